//! Whether the library and the netlist are of the form: roles of cells, connections of instances, and depth.
ghost use Rattle.std.specs.Prelude.{◌≡◌, count_by, IfOk};
ghost use Rattle.std.specs.List.{list_all, filter_map};
ghost use Rattle.form_design.specs.Names.{inst_of, body_named};
ghost use Rattle.form_design.specs.Fits.{is_data, is_data_pin, is_output_pin, is_plain, has_roles, is_connected, fits_body, is_placed, all_placed, passes, is_plain_cell, holds_plain_cells, top_is_shallow};
ghost use Rattle.form_design.specs.Depth.{plain_holders, is_shallow_by, are_shallow_by};

use crate::names::Names;
use crate::words;
use line_forms::{CellKind, CellLines, ConnWords, InstLine, ItemLine, ModuleLines, PinLine, Role};
use name_index::NameIndex;
use pw_defs::{Body, Dir, List, Memory};
use std::alloc::Global;

fn is_data(role: Role) -> bool
    ensures { result ≡ is_data role }
{
    match role {
        Role::IsolationData | Role::ShifterData => true,
        Role::IsolationEnable | Role::ShifterEnable => false,
    }
}

pub(crate) fn is_data_pin(pin: &PinLine) -> bool
    ensures { result ≡ is_data_pin pin.now }
{
    match pin.role {
        Some(role) => is_data(role),
        None => false,
    }
}

pub(crate) fn is_plain(kind: CellKind) -> bool
    ensures { result ≡ is_plain kind }
{
    match kind {
        CellKind::Plain => true,
        CellKind::Isolation | CellKind::Shifter => false,
    }
}

fn is_output_pin(pin: &PinLine) -> bool
    ensures { result ≡ is_output_pin pin.now }
{
    pin.dir == Dir::Output
}

pub(crate) fn data_pins(pins: &[PinLine]) -> usize
    ensures { result ≡ count_by is_data_pin pins.now }
{
    pins.iter().filter(|pin| is_data_pin(*pin)).count()
}

fn output_pins(pins: &[PinLine]) -> usize
    ensures { result ≡ count_by is_output_pin pins.now }
{
    pins.iter().filter(|pin| is_output_pin(*pin)).count()
}

fn has_roles(cell: &CellLines) -> bool
    ensures { result ≡ has_roles cell.now }
{
    if is_plain(cell.kind) {
        return true;
    }
    data_pins(cell.pins.as_slice()) == 1 && output_pins(cell.pins.as_slice()) == 1
}

/// Whether each isolation cell and level shifter has one data pin and one output pin.
pub(crate) fn all_have_roles(cells: &[CellLines]) -> bool
    ensures { result ≡ list_all has_roles cells.now }
{
    for cell in cells {
        if !has_roles(cell) {
            return false;
        }
    }
    true
}

fn is_connected(names: &Names, holder: u32, body: Body, conn: &ConnWords) -> bool
    ensures { result ≡ is_connected names.now holder body conn.now }
{
    if names.port_place(body, conn.port.as_slice()).is_none() {
        return false;
    }
    match &conn.net {
        Some(net) => names.net_place(holder, net.as_slice()).is_some(),
        None => true,
    }
}

fn fits_body(
    alloc: Global,
    names: &Names,
    holder: u32,
    conns: &[ConnWords],
    body: Body,
) -> Result<bool, Memory>
    ensures { IfOk result (λ fits. fits ≡ fits_body names.now holder conns.now body) }
{
    if NameIndex::from_names(alloc, words::conn_words(alloc, conns)?.as_slice())?.is_none() {
        return Ok(false);
    }
    for conn in conns {
        if !is_connected(names, holder, body, conn) {
            return Ok(false);
        }
    }
    Ok(true)
}

fn is_placed(alloc: Global, names: &Names, holder: u32, line: &InstLine) -> Result<bool, Memory>
    ensures { IfOk result (λ placed. placed ≡ is_placed names.now holder line.now) }
{
    match names.body_named(line.kind.as_slice()) {
        Some(body) => fits_body(alloc, names, holder, line.conns.as_slice(), body),
        None => Ok(false),
    }
}

fn are_placed(alloc: Global, names: &Names, holder: u32, items: &[ItemLine]) -> Result<bool, Memory>
    ensures { IfOk result (λ placed. placed ≡ list_all (is_placed names.now holder) (filter_map inst_of items.now)) }
{
    for item in items {
        if let ItemLine::Inst(line) = item {
            if !is_placed(alloc, names, holder, line)? {
                return Ok(false);
            }
        }
    }
    Ok(true)
}

/// Whether each instance is of a module or cell of the files, and connects its ports to nets of its module.
pub(crate) fn all_placed(
    alloc: Global,
    names: &Names,
    modules: &List<ModuleLines>,
) -> Result<bool, Memory>
    ensures { IfOk result (λ placed. placed ≡ all_placed names.now modules.now) }
{
    for (holder, lines) in modules.as_slice().iter().enumerate() {
        if !are_placed(alloc, names, holder as u32, lines.items.as_slice())? {
            return Ok(false);
        }
    }
    Ok(true)
}

fn is_plain_cell(cells: &List<CellLines>, body: Body) -> bool
    ensures { result ≡ is_plain_cell cells.now body }
{
    match body {
        Body::Cell(cell) => match cells.get(cell) {
            Some(lines) => is_plain(lines.kind),
            None => false,
        },
        Body::Module(_) | Body::Model(_) => false,
    }
}

fn holds_plain_cells(names: &Names, cells: &List<CellLines>, items: &[ItemLine]) -> bool
    ensures { result ≡ holds_plain_cells names.now cells.now (filter_map inst_of items.now) }
{
    for item in items {
        if let ItemLine::Inst(line) = item {
            let is_plain = match names.body_named(line.kind.as_slice()) {
                Some(body) => is_plain_cell(cells, body),
                None => false,
            };
            if !is_plain {
                return false;
            }
        }
    }
    true
}

/// Whether each module holds plain cells alone.
fn plain_holders(
    alloc: Global,
    names: &Names,
    cells: &List<CellLines>,
    modules: &[ModuleLines],
) -> Result<Vec<bool>, Memory>
    ensures { IfOk result (λ plain. plain.items ≡ plain_holders names.now cells.now modules.now) }
{
    let mut plain = Vec::new(alloc);
    for lines in modules {
        plain.push(holds_plain_cells(names, cells, lines.items.as_slice()))?;
    }
    Ok(plain)
}

fn is_shallow(cells: &List<CellLines>, plain: &[bool], body: Body) -> bool
    ensures { result ≡ is_shallow_by cells.now plain.now body }
{
    match body {
        Body::Cell(_) => is_plain_cell(cells, body),
        Body::Module(holder) => match plain.get(holder as usize) {
            Some(holds) => *holds,
            None => true,
        },
        Body::Model(_) => false,
    }
}

fn are_shallow(names: &Names, cells: &List<CellLines>, plain: &[bool], items: &[ItemLine]) -> bool
    ensures { result ≡ are_shallow_by names.now cells.now plain.now (filter_map inst_of items.now) }
{
    for item in items {
        if let ItemLine::Inst(line) = item {
            let is_shallow = match names.body_named(line.kind.as_slice()) {
                Some(body) => is_shallow(cells, plain, body),
                None => false,
            };
            if !is_shallow {
                return false;
            }
        }
    }
    true
}

/// Whether what the top holds is a plain cell, or a module that holds plain cells alone.
pub(crate) fn top_is_shallow(
    alloc: Global,
    names: &Names,
    cells: &List<CellLines>,
    modules: &List<ModuleLines>,
    top: u32,
) -> Result<bool, Memory>
    ensures { IfOk result (λ shallow. shallow ≡ top_is_shallow names.now cells.now modules.now top) }
{
    let plain = plain_holders(alloc, names, cells, modules.as_slice())?;
    let shallow = match modules.get(top) {
        Some(lines) => are_shallow(names, cells, plain.as_slice(), lines.items.as_slice()),
        None => true,
    };
    Ok(shallow)
}
