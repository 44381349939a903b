//! The pins of a cell that netlists know, and its through pin and enable pin.
ghost use Rattle.std.specs.Prelude.{◌≡◌, ◌≤◌, ◌++◌, ◌∷◌, [], List, IfErr, IfOk, length, map, ◌||◌, ◌&&◌, false, unwrap_or, is_some};
ghost use Rattle.text_streams.specs.declared.stops.Stop.TheVariants as stops;
ghost use Rattle.lib_cells.specs.CellViews.{AreKept, cell_with, first_of, pins_view, roles_by};
ghost use Rattle.lib_cells.specs.CellsMeant.{KnownPin, is_input, places_where, the_only};
ghost use Rattle.lib_cells.specs.Groups.{present};
ghost use Rattle.lib_cells.specs.Marks.{cell_by, pin_by, pins_by};

use crate::cells::{CellDraft, PinGroup};
use crate::marks::Marks;
use crate::tables::pin_table;
use pw_defs::{Cell, Dir, List, Name, Pin};
use std::alloc::Global;
use text_streams::Stop;

/// Whether a pin is a data pin, and whether it is an input that is marked as an enable pin.
#[derive(Clone, Copy)]
pub struct PinRoles {
    pub is_data: bool,
    pub enables: bool,
}

/// The pins that netlists know, and the roles of each.
#[derive(Drop)]
pub struct KeptPins {
    pub pins: List<Pin>,
    pub roles: List<PinRoles>,
}

/// Whether a direction is that of an input.
fn is_input(dir: Dir) -> bool
    ensures { result ≡ is_input dir }
{
    matches!(dir, Dir::Input)
}

/// The roles of a pin of this direction.
fn roles(dir: Dir, marks: Marks) -> PinRoles
    ensures { result ≡ roles_by dir marks }
{
    let is_enable = marks.isolation_enable.unwrap_or(false)
        || marks.shifter_enable.unwrap_or(false);
    PinRoles {
        is_data: marks.isolation_data.unwrap_or(false) || marks.shifter_data.unwrap_or(false),
        enables: is_input(dir) && is_enable,
    }
}

impl KeptPins {
    fn new(alloc: Global) -> KeptPins
        ensures { AreKept [] result }
    {
        KeptPins {
            pins: List::new(alloc),
            roles: List::new(alloc),
        }
    }

    /// Adds a pin.
    fn add(&mut self, alloc: Global, name: &[u8], dir: Dir, marks: Marks) -> Result<(), Stop>
        ensures pins { IfOk result (λ _. self.new.pins ≡ self.old.pins ++ (record { name = name.now; dir = dir }) ∷ []) }
        ensures roles { IfOk result (λ _. self.new.roles ≡ self.old.roles ++ roles_by dir marks ∷ []) }
        ensures memory { IfErr result (λ e. e ≡ stops.Memory) }
    {
        let name = Name::from_slice(alloc, name)?;
        self.pins.push(Pin { name, dir })?;
        self.roles.push(roles(dir, marks))?;
        Ok(())
    }

    /// Adds the pin of a name, if netlists know it.
    fn keep(&mut self, alloc: Global, name: &[u8], marks: Marks) -> Result<(), Stop>
        ensures kept { IfOk result (λ _. (before : List KnownPin) → AreKept before self.old → AreKept (before ++ present (pin_by name.now marks ∷ [])) self.new) }
        ensures memory { IfErr result (λ e. e ≡ stops.Memory) }
    {
        let dir = marks.direction.unwrap_or(None);
        if let Some(dir) = dir {
            self.add(alloc, name, dir, marks)?;
        }
        Ok(())
    }
}

/// The pins that netlists know, each at the place where it is first named.
fn kept_pins(alloc: Global, groups: &[PinGroup<'_>]) -> Result<KeptPins, Stop>
    ensures kept { IfOk result (λ k. AreKept (pins_by (map pins_view groups.now)) k) }
    ensures memory { IfErr result (λ e. e ≡ stops.Memory) }
{
    let table = pin_table(alloc, groups)?;
    let mut kept = KeptPins::new(alloc);
    for at in 0..table.names.len() {
        kept.keep(alloc, table.names.name(at), table.marks[at as usize])?;
    }
    Ok(kept)
}

/// The place of the one data pin, if there is no other.
fn through_pin(roles: &[PinRoles]) -> Option<u32>
    requires { length roles.now ≤ 4294967295 }
    ensures { result ≡ the_only (places_where (λ r. r.is_data) roles.now) }
{
    let mut found = None;
    for (at, role) in roles.iter().enumerate() {
        if role.is_data {
            if found.is_some() {
                return None;
            }
            found = Some(at as u32);
        }
    }
    found
}

/// The place of the first input pin that is marked as an enable pin.
fn enable_pin(roles: &[PinRoles]) -> Option<u32>
    requires { length roles.now ≤ 4294967295 }
    ensures { result ≡ first_of (places_where (λ r. r.enables) roles.now) }
{
    for (at, role) in roles.iter().enumerate() {
        if role.enables {
            return Some(at as u32);
        }
    }
    None
}

/// Whether a cell is an isolation cell: it says so, or it is a level shifter with an enable pin.
fn isolates(marks: Marks, enable: Option<u32>) -> bool
    ensures { result ≡ (unwrap_or marks.isolation false || (unwrap_or marks.shifter false && is_some enable)) }
{
    let shift = marks.shifter.unwrap_or(false);
    marks.isolation.unwrap_or(false) || (shift && enable.is_some())
}

/// The cell of a name, by what is said of it and the pins that netlists know.
fn cell_with(name: Name, marks: Marks, kept: KeptPins) -> Cell
    ensures { result ≡ cell_with name marks kept }
{
    let through = through_pin(kept.roles.as_slice());
    let enable = enable_pin(kept.roles.as_slice());
    let shift = marks.shifter.unwrap_or(false);
    Cell {
        name,
        pins: kept.pins,
        iso: isolates(marks, enable),
        shift,
        through,
        enable,
    }
}

/// The cell of a name, by what its group says.
pub fn cell_of(alloc: Global, name: &[u8], said: CellDraft<'_>) -> Result<Cell, Stop>
    ensures cell { IfOk result (λ c. c ≡ cell_by name.now said.entry.marks (pins_by (map pins_view said.entry.groups))) }
    ensures memory { IfErr result (λ e. e ≡ stops.Memory) }
{
    let kept = kept_pins(alloc, said.groups.as_slice())?;
    let name = Name::from_slice(alloc, name)?;
    Ok(cell_with(name, said.marks, kept))
}
