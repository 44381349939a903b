//! The cells of a library's text, or its first fault.
ghost use Rattle.std.specs.Prelude.{◌≡◌, filter, length, not};
ghost use Rattle.lib_cells.specs.CellsMeant.{is_input, is_odd};
ghost use Rattle.cell_joins.specs.Unions.{ChecksRoles, IsOddAt, IsReading};

use crate::unions::joined_groups;
use lib_cells::{PlacedCell, placed_cells};
use pw_defs::{At, Cell, Cells, Dir, LibFault, Pin};
use std::alloc::Global;

/// Whether a pin is an output.
fn is_output(pin: &Pin) -> bool
    ensures { result ≡ not (is_input pin.now.dir) }
{
    matches!(pin.dir, Dir::Output)
}

/// How many of the pins are outputs.
fn outputs(pins: &[Pin]) -> usize
    ensures { result ≡ length (filter (λ p. not (is_input p.dir)) pins.now) }
{
    pins.iter().filter(|pin| is_output(*pin)).count()
}

/// Whether a cell is an isolation cell or level shifter without exactly one through pin and exactly one output pin.
#[tactic(auto, unfolding(lib_cells::specs::CellsMeant::is_odd))]
fn is_odd(cell: &Cell) -> bool
    ensures { result ≡ is_odd cell.now }
{
    (cell.iso || cell.shift) && !(cell.through.is_some() && outputs(cell.pins.as_slice()) == 1)
}

/// The fault of a cell that a library cannot have, at a line.
fn odd(cell: &Cell, line: u32) -> LibFault
    ensures { IsOddAt line cell.now result }
{
    match cell.name.clone() {
        Ok(name) => LibFault::L3(At { line, name }),
        Err(_) => LibFault::Memory,
    }
}

/// The first cell that a library cannot have is its fault.
fn checked_roles(placed: &[PlacedCell]) -> Result<(), LibFault>
    ensures { ChecksRoles placed.now result }
{
    for group in placed {
        if is_odd(&group.cell) {
            return Err(odd(&group.cell, group.line));
        }
    }
    Ok(())
}

/// The cells of a library's text, each at the place where it first comes; or its first fault: that it is no library, then
/// an odd cell, then a cell that is given otherwise.
pub fn read_cells(alloc: Global, text: &[u8]) -> Result<Cells, LibFault>
    ensures { IsReading text.now result }
{
    let placed = placed_cells(alloc, text)?;
    checked_roles(placed.as_slice())?;
    joined_groups(alloc, placed.as_slice())
}
