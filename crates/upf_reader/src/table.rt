//! The table of commands, as plain data.
ghost use Rattle.std.specs.Prelude.{◌≡◌, map, option_map, find, length};
ghost use Rattle.std.specs.Str.{bytes_eq};
ghost use Rattle.upf_commands.specs.CommandTable.{commands};
ghost use Rattle.upf_commands.specs.CommandWords.{row_of, option_of};
ghost use Rattle.upf_reader.specs.Rows.{command_view, option_view, rows_of};

/// Texts that stand in the table.
pub type Texts = &'static [&'static [u8]];

/// The form of a single word.
#[derive(Clone, Copy)]
pub enum WordShape {
    Any,
    Simple,
    SetName,
    Handle,
    File,
    OneOf(Texts),
    Volts,
}

/// The form of a list's words.
#[derive(Clone, Copy)]
pub enum ListShape {
    Names,
    Scope,
    Columns,
    Keyed(Texts),
    Pair,
    Attribute,
    SwitchPort,
    OnState,
    SupplyState,
    PowerState,
}

/// The form of a value: a word, a list, or a list of pairs.
#[derive(Clone, Copy)]
pub enum Shape {
    Word(WordShape),
    List(ListShape),
    Pairs,
}

/// What stands behind an option.
#[derive(Clone, Copy)]
pub enum Behind {
    /// A value.
    Value,
    /// Nothing.
    Flag,
    /// A truth, or nothing where it is true.
    Truth,
    /// Nothing: the option stands for another one with this value.
    Means(&'static [u8]),
    /// A power state in one word or two.
    State,
}

/// An option of a command: the word that gives it, the name under which it is kept, what stands behind it and the form of
/// that, whether it may be given more than once, and whether it must be given.
#[derive(Clone, Copy)]
pub struct OptionLine {
    pub spelled: &'static [u8],
    pub kept: &'static [u8],
    pub behind: Behind,
    pub shape: Shape,
    pub repeats: bool,
    pub needed: bool,
}

/// A command: its name, the form of its own word if it has one, its options, and the groups of options of which it takes at
/// most one. Of a command that is passed over only the name is looked at.
#[derive(Clone, Copy)]
pub struct CommandLine {
    pub name: &'static [u8],
    pub own: Option<WordShape>,
    pub options: &'static [OptionLine],
    pub apart: &'static [Texts],
    pub passed: bool,
}

/// The form of a word.
macro_rules! word {
    ($form:ident) => {
        Shape::Word(WordShape::$form)
    };
    ($form:ident, $($text:literal),*) => {
        Shape::Word(WordShape::$form(&[$($text),*]))
    };
}

/// The form of a list.
macro_rules! list {
    ($form:ident) => {
        Shape::List(ListShape::$form)
    };
    ($form:ident, $($text:literal),*) => {
        Shape::List(ListShape::$form(&[$($text),*]))
    };
}

macro_rules! option {
    ($spelled:literal, $kept:literal, $behind:expr, $shape:expr, $repeats:literal, $needed:literal) => {
        OptionLine {
            spelled: $spelled,
            kept: $kept,
            behind: $behind,
            shape: $shape,
            repeats: $repeats,
            needed: $needed,
        }
    };
}

/// An option that may be given.
macro_rules! may {
    ($name:literal, $shape:expr) => {
        option!($name, $name, Behind::Value, $shape, false, false)
    };
}

/// An option that must be given.
macro_rules! must {
    ($name:literal, $shape:expr) => {
        option!($name, $name, Behind::Value, $shape, false, true)
    };
}

/// An option that may be given any number of times.
macro_rules! often {
    ($name:literal, $shape:expr) => {
        option!($name, $name, Behind::Value, $shape, true, false)
    };
}

/// An option that must be given, once or more.
macro_rules! some {
    ($name:literal, $shape:expr) => {
        option!($name, $name, Behind::Value, $shape, true, true)
    };
}

/// An option without a value.
macro_rules! bare {
    ($name:literal) => {
        option!($name, $name, Behind::Flag, word!(Any), false, false)
    };
}

/// An option that is true or false.
macro_rules! either {
    ($name:literal) => {
        option!($name, $name, Behind::Truth, word!(Any), false, false)
    };
}

/// A command with an own word.
macro_rules! command {
    ($name:literal, $own:ident, [$($option:expr),*]) => {
        command!($name, $own, [$($option),*], [])
    };
    ($name:literal, $own:ident, [$($option:expr),*], [$($apart:literal),*]) => {
        CommandLine {
            name: $name,
            own: Some(WordShape::$own),
            options: &[$($option),*],
            apart: apart!($($apart),*),
            passed: false,
        }
    };
}

/// The groups of options of which a command takes at most one: none, or one group.
macro_rules! apart {
    () => {
        &[]
    };
    ($($option:literal),*) => {
        &[&[$($option),*]]
    };
}

/// A command without an own word.
macro_rules! wordless {
    ($name:literal, $passed:literal, [$($option:expr),*]) => {
        CommandLine {
            name: $name,
            own: None,
            options: &[$($option),*],
            apart: &[],
            passed: $passed,
        }
    };
}

/// A command on strategies of a domain: with options that select what a strategy is for, and then these.
macro_rules! strategy {
    ($name:literal, [$($option:expr),*], [$($apart:literal),*]) => {
        command!($name, Simple, [
            must!(b"-domain", word!(Any)),
            may!(b"-elements", list!(Names)),
            may!(b"-exclude_elements", list!(Names)),
            may!(b"-source", word!(Any)),
            may!(b"-sink", word!(Any)),
            either!(b"-diff_supply_only"),
            may!(b"-applies_to", word!(OneOf, b"inputs", b"outputs", b"both")),
            may!(b"-applies_to_boundary", word!(OneOf, b"lower", b"upper", b"both")),
            may!(b"-instance", Shape::Pairs),
            bare!(b"-update"),
            $($option),*
        ], [$($apart),*])
    };
}

/// A command that is passed over.
macro_rules! passed_over {
    ($name:literal) => {
        wordless!($name, true, [])
    };
}

/// Supply ports and nets, and how they are joined.
static SUPPLY: [CommandLine; 4] = [
    command!(
        b"create_supply_port",
        Simple,
        [
            may!(b"-direction", word!(OneOf, b"in", b"out")),
            may!(b"-domain", word!(Any))
        ]
    ),
    command!(
        b"create_supply_net",
        Simple,
        [
            may!(b"-domain", word!(Any)),
            may!(b"-resolve", word!(OneOf, b"unresolved"))
        ]
    ),
    command!(b"connect_supply_net", Any, [must!(b"-ports", list!(Names))]),
    command!(
        b"create_power_switch",
        Simple,
        [
            must!(b"-output_supply_port", list!(SwitchPort)),
            some!(b"-input_supply_port", list!(SwitchPort)),
            some!(b"-on_state", list!(OnState)),
            often!(b"-off_state", word!(Any)),
            often!(b"-control_port", word!(Any)),
            often!(b"-ack_port", word!(Any)),
            often!(b"-ack_delay", word!(Any)),
            often!(b"-error_state", word!(Any)),
            may!(b"-domain", word!(Any))
        ]
    ),
];

/// Supply sets.
static SETS: [CommandLine; 3] = [
    command!(
        b"create_supply_set",
        SetName,
        [
            often!(b"-function", list!(Keyed, b"power", b"ground")),
            bare!(b"-update")
        ]
    ),
    command!(
        b"associate_supply_set",
        Any,
        [must!(b"-handle", word!(Handle))]
    ),
    command!(
        b"connect_supply_set",
        Any,
        [must!(b"-elements", list!(Names))]
    ),
];

/// The states of supplies and tables of states.
static TABLES: [CommandLine; 4] = [
    command!(
        b"add_port_state",
        Any,
        [some!(b"-state", list!(SupplyState))]
    ),
    command!(
        b"add_supply_state",
        Any,
        [some!(b"-state", list!(SupplyState))]
    ),
    command!(b"create_pst", Simple, [must!(b"-supplies", list!(Names))]),
    command!(
        b"add_pst_state",
        Simple,
        [must!(b"-pst", word!(Any)), must!(b"-state", list!(Columns))]
    ),
];

/// Power states.
static STATES: [CommandLine; 2] = [
    command!(b"create_power_state_group", Simple, []),
    command!(
        b"add_power_state",
        Any,
        [
            bare!(b"-supply"),
            bare!(b"-domain"),
            bare!(b"-group"),
            option!(
                b"-state",
                b"-state",
                Behind::State,
                list!(PowerState),
                true,
                false
            ),
            bare!(b"-complete"),
            bare!(b"-update")
        ],
        [b"-supply", b"-domain", b"-group"]
    ),
];

/// Domains and strategies.
static DOMAINS: [CommandLine; 3] = [
    command!(
        b"create_power_domain",
        Simple,
        [
            may!(b"-elements", list!(Names)),
            may!(b"-exclude_elements", list!(Names)),
            option!(
                b"-include_scope",
                b"-elements",
                Behind::Means(b"."),
                list!(Names),
                false,
                false
            ),
            often!(b"-supply", list!(Keyed, b"primary", b"default_isolation")),
            bare!(b"-update")
        ]
    ),
    strategy!(
        b"set_isolation",
        [
            may!(b"-isolation_supply", word!(Any)),
            option!(
                b"-isolation_supply_set",
                b"-isolation_supply",
                Behind::Value,
                word!(Any),
                false,
                false
            ),
            bare!(b"-no_isolation"),
            bare!(b"-force_isolation"),
            may!(b"-isolation_signal", word!(Any)),
            may!(b"-isolation_sense", word!(Any)),
            may!(b"-clamp_value", word!(Any)),
            may!(b"-location", word!(Any)),
            may!(b"-name_prefix", word!(Any)),
            may!(b"-name_suffix", word!(Any))
        ],
        [b"-no_isolation", b"-force_isolation"]
    ),
    strategy!(
        b"set_level_shifter",
        [
            may!(
                b"-rule",
                word!(OneOf, b"low_to_high", b"high_to_low", b"both")
            ),
            may!(b"-threshold", word!(Volts)),
            bare!(b"-no_shift"),
            bare!(b"-force_shift"),
            may!(b"-input_supply", word!(Any)),
            may!(b"-output_supply", word!(Any)),
            may!(b"-location", word!(Any)),
            may!(b"-name_prefix", word!(Any)),
            may!(b"-name_suffix", word!(Any))
        ],
        [b"-no_shift", b"-force_shift"]
    ),
];

/// Marks and attributes.
static ATTRIBUTES: [CommandLine; 2] = [
    wordless!(
        b"set_design_attributes",
        false,
        [
            must!(b"-elements", list!(Scope)),
            either!(b"-is_soft_macro"),
            often!(b"-attribute", list!(Attribute))
        ]
    ),
    wordless!(
        b"set_port_attributes",
        false,
        [
            must!(b"-ports", list!(Names)),
            may!(b"-driver_supply", word!(Any)),
            may!(b"-receiver_supply", word!(Any)),
            often!(b"-attribute", list!(Pair))
        ]
    ),
];

/// Files, scopes and power models.
static SCOPES: [CommandLine; 5] = [
    command!(b"load_upf", File, [may!(b"-scope", word!(Any))]),
    command!(b"set_scope", Any, []),
    command!(b"begin_power_model", Simple, [may!(b"-for", list!(Names))]),
    wordless!(b"end_power_model", false, []),
    command!(
        b"apply_power_model",
        Any,
        [
            must!(b"-elements", list!(Names)),
            may!(b"-supply_map", Shape::Pairs)
        ]
    ),
];

/// The commands that are passed over.
static PASSED: [CommandLine; 15] = [
    passed_over!(b"upf_version"),
    passed_over!(b"map_isolation_cell"),
    passed_over!(b"map_level_shifter_cell"),
    passed_over!(b"map_power_switch"),
    passed_over!(b"map_retention_cell"),
    passed_over!(b"use_interface_cell"),
    passed_over!(b"bind_checker"),
    passed_over!(b"set_simstate_behavior"),
    passed_over!(b"name_format"),
    passed_over!(b"set_retention"),
    passed_over!(b"set_retention_elements"),
    passed_over!(b"create_logic_net"),
    passed_over!(b"create_logic_port"),
    passed_over!(b"connect_logic_net"),
    passed_over!(b"describe_state_transition"),
];

/// All commands, in groups.
#[tactic(auto, unfolding(upf_commands::specs::CommandTable::commands))]
fn groups() -> [&'static [CommandLine]; 8]
    ensures rows { rows_of result ≡ commands }
    ensures count { length result ≡ 8 }
{
    [
        &SUPPLY,
        &SETS,
        &TABLES,
        &STATES,
        &DOMAINS,
        &ATTRIBUTES,
        &SCOPES,
        &PASSED,
    ]
}

/// The command of this name among some of the table.
fn command_among(name: &[u8], rows: &'static [CommandLine]) -> Option<&'static CommandLine>
    ensures { option_map (λ c. command_view c.now) result ≡ find (λ row. bytes_eq row.name name.now) (map command_view rows.now) }
{
    for row in rows {
        if row.name == name {
            return Some(row);
        }
    }
    None
}

/// The command of this name.
pub fn command_of(name: &[u8]) -> Option<&'static CommandLine>
    ensures { option_map (λ c. command_view c.now) result ≡ row_of name.now }
{
    for group in groups() {
        if let Some(row) = command_among(name, group) {
            return Some(row);
        }
    }
    None
}

/// The option of a command that the word gives.
pub(crate) fn option_of(command: &CommandLine, word: &[u8]) -> Option<&'static OptionLine>
    ensures { option_map (λ o. option_view o.now) result ≡ option_of (command_view command.now) word.now }
{
    for option in command.options {
        if option.spelled == word {
            return Some(option);
        }
    }
    None
}
