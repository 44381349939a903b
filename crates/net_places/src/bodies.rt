//! The rows of the pins of cells and of the ports of models.
ghost use Rattle.std.specs.Prelude.{◌≡◌, ◌≤◌, ◌∷◌, [], ◌++◌, ℕ, List, IfOk, Some, length, map, slice_get};
ghost use Rattle.design_defs.specs.Ports.{port_of_pin};
ghost use Rattle.net_places.specs.Mentions.{Mention, of_ports};
ghost use Rattle.net_places.specs.Gathered.{mention_of, AreGathered, HasIndexed};
ghost use Rattle.pw_defs.specs.declared.cells.Pin.{Pin as PlainPin};
ghost use Rattle.pw_defs.specs.declared.netlist.Port.{Port as PlainPort};

use crate::rows::{NamedRow, NetRow};
use name_index::NameIndex;
use pw_defs::{Memory, Pin, Port};
use std::alloc::Global;

/// Rows that are gathered by name.
#[derive(Drop)]
pub(crate) struct Indexed<'a> {
    pub(crate) index: NameIndex,
    pub(crate) rows: Vec<NamedRow<'a>>,
}

/// Adds a row, unless there is one of its name.
fn add_row<'a>(indexed: &mut Indexed<'a>, name: &'a [u8], row: NetRow) -> Result<(), Memory>
    ensures { IfOk result (λ _. (names : List (List ℕ)) → (before : List Mention) → slice_get names row.name ≡ Some name.now
        → HasIndexed names indexed.old before → HasIndexed names indexed.new (before ++ mention_of name.now row ∷ [])) }
{
    if !indexed.index.add(name)? {
        return Ok(());
    }
    indexed.rows.push(NamedRow { name, row })?;
    Ok(())
}

/// No rows.
fn no_rows<'a>(alloc: Global) -> Indexed<'a>
    ensures { (names : List (List ℕ)) → HasIndexed names result [] }
{
    Indexed {
        index: NameIndex::new(alloc),
        rows: Vec::new(alloc),
    }
}

/// The pins of a cell, each name once.
pub(crate) fn pin_rows<'a>(alloc: Global, pins: &'a [Pin]) -> Result<Vec<NamedRow<'a>>, Memory>
    requires { length pins.now ≤ 4294967295 }
    ensures { IfOk result (λ rows. AreGathered (map (λ (p : PlainPin). p.name) pins.now) rows.items (of_ports 0 (map port_of_pin pins.now))) }
{
    let mut indexed = no_rows(alloc);
    for (number, pin) in pins.iter().enumerate() {
        let row = NetRow {
            name: number as u32,
            range: None,
            port: Some(number as u32),
            first: 0,
        };
        add_row(&mut indexed, pin.name.as_slice(), row)?;
    }
    let Indexed { rows, .. } = indexed;
    Ok(rows)
}

/// The ports of a model, each name once.
pub(crate) fn port_rows<'a>(alloc: Global, ports: &'a [Port]) -> Result<Vec<NamedRow<'a>>, Memory>
    requires { length ports.now ≤ 4294967295 }
    ensures { IfOk result (λ rows. AreGathered (map (λ (p : PlainPort). p.name) ports.now) rows.items (of_ports 0 ports.now)) }
{
    let mut indexed = no_rows(alloc);
    for (number, port) in ports.iter().enumerate() {
        let row = NetRow {
            name: number as u32,
            range: port.range,
            port: Some(number as u32),
            first: 0,
        };
        add_row(&mut indexed, port.name.as_slice(), row)?;
    }
    let Indexed { rows, .. } = indexed;
    Ok(rows)
}
