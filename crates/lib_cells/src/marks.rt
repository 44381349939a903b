//! What attributes say of a cell or of pins, with no more than counts of it: [`Marks`] meets `specs/Marks`.
ghost use Rattle.std.specs.Prelude.{◌≡◌, [], codes};
ghost use Rattle.std.specs.Option.{option_map};
ghost use Rattle.lib_cells.specs.Marks.{is_lone, lone_dir, lone_flag, mark_of, marks_of, one_said, overlaid};

use pw_defs::Dir;

/// What attributes say: for each name that counts, what its attribute says, where it is given.
#[derive(Clone, Copy)]
pub struct Marks {
    /// The direction, where it is one that netlists know.
    pub direction: Option<Option<Dir>>,
    pub isolation: Option<bool>,
    pub shifter: Option<bool>,
    pub isolation_data: Option<bool>,
    pub isolation_enable: Option<bool>,
    pub shifter_data: Option<bool>,
    pub shifter_enable: Option<bool>,
}

/// Whether the one word of a value is this one.
fn is_lone(wanted: &[u8], word: Option<&[u8]>) -> bool
    ensures { result ≡ is_lone wanted.now (option_map (λ w. w.now) word.entry) }
{
    match word {
        None => false,
        Some(word) => word == wanted,
    }
}

/// The direction that a value says, where netlists know it.
fn known_dir(word: Option<&[u8]>) -> Option<Dir>
    ensures { result ≡ lone_dir (option_map (λ w. w.now) word.entry) }
{
    if is_lone(b"input", word) {
        return Some(Dir::Input);
    }
    if is_lone(b"output", word) {
        return Some(Dir::Output);
    }
    None
}

/// What an attribute says of the direction.
fn direction(name: &[u8], word: Option<&[u8]>) -> Option<Option<Dir>>
    ensures { result ≡ one_said lone_dir (codes "direction") name.now (option_map (λ w. w.now) word.entry) }
{
    if name != b"direction".as_slice() {
        return None;
    }
    Some(known_dir(word))
}

/// What an attribute says of a flag.
fn flag(wanted: &[u8], name: &[u8], word: Option<&[u8]>) -> Option<bool>
    ensures { result ≡ one_said lone_flag wanted.now name.now (option_map (λ w. w.now) word.entry) }
{
    if name != wanted {
        return None;
    }
    Some(is_lone(b"true", word))
}

impl Marks {
    /// What no attributes say.
    #[tactic(auto, unfolding(crate::specs::Marks::marks_of))]
    pub fn none() -> Marks
        ensures { result ≡ marks_of [] }
    {
        Marks {
            direction: None,
            isolation: None,
            shifter: None,
            isolation_data: None,
            isolation_enable: None,
            shifter_data: None,
            shifter_enable: None,
        }
    }

    /// What an attribute says, by its name and the one word of its value.
    #[tactic(auto, unfolding(crate::specs::Marks::mark_of))]
    pub fn of(name: &[u8], word: Option<&[u8]>) -> Marks
        ensures { result ≡ mark_of name.now (option_map (λ w. w.now) word.entry) }
    {
        Marks {
            direction: direction(name, word),
            isolation: flag(b"is_isolation_cell", name, word),
            shifter: flag(b"is_level_shifter", name, word),
            isolation_data: flag(b"isolation_cell_data_pin", name, word),
            isolation_enable: flag(b"isolation_cell_enable_pin", name, word),
            shifter_data: flag(b"level_shifter_data_pin", name, word),
            shifter_enable: flag(b"level_shifter_enable_pin", name, word),
        }
    }

    /// What these attributes and later ones say together.
    #[tactic(auto, unfolding(crate::specs::Marks::overlaid))]
    pub fn over(self, later: Marks) -> Marks
        ensures { result ≡ overlaid self later }
    {
        Marks {
            direction: later.direction.or(self.direction),
            isolation: later.isolation.or(self.isolation),
            shifter: later.shifter.or(self.shifter),
            isolation_data: later.isolation_data.or(self.isolation_data),
            isolation_enable: later.isolation_enable.or(self.isolation_enable),
            shifter_data: later.shifter_data.or(self.shifter_data),
            shifter_enable: later.shifter_enable.or(self.shifter_enable),
        }
    }
}
