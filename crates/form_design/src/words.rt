//! The names that cells and modules declare, as words to make an index of.
ghost use Rattle.std.specs.Prelude.{◌≡◌, map, IfOk};
ghost use Rattle.form_design.specs.Names.{pin_names, pin_dirs, port_names, port_dirs, nets, names, inst_names};

use line_forms::{CellLines, ConnWords, ItemLine, ModuleLines};
use pw_defs::{Dir, List, Memory};
use std::alloc::Global;

pub(crate) fn cell_words(alloc: Global, cells: &[CellLines]) -> Result<Vec<&[u8]>, Memory>
    ensures { IfOk result (λ words. map (λ w. w.now) words.items ≡ map (λ c. c.name) cells.now) }
{
    let mut words = Vec::new(alloc);
    for cell in cells {
        words.push(cell.name.as_slice())?;
    }
    Ok(words)
}

pub(crate) fn module_words(alloc: Global, modules: &[ModuleLines]) -> Result<Vec<&[u8]>, Memory>
    ensures { IfOk result (λ words. map (λ w. w.now) words.items ≡ map (λ m. m.name) modules.now) }
{
    let mut words = Vec::new(alloc);
    for lines in modules {
        words.push(lines.name.as_slice())?;
    }
    Ok(words)
}

pub(crate) fn pin_words(alloc: Global, cell: &CellLines) -> Result<Vec<&[u8]>, Memory>
    ensures { IfOk result (λ words. map (λ w. w.now) words.items ≡ pin_names cell.now) }
{
    let mut words = Vec::new(alloc);
    for pin in cell.pins.as_slice() {
        words.push(pin.name.as_slice())?;
    }
    Ok(words)
}

pub(crate) fn port_words(alloc: Global, lines: &ModuleLines) -> Result<Vec<&[u8]>, Memory>
    ensures { IfOk result (λ words. map (λ w. w.now) words.items ≡ port_names lines.now) }
{
    let mut words = Vec::new(alloc);
    for port in lines.ports.as_slice() {
        words.push(port.name.as_slice())?;
    }
    Ok(words)
}

/// The ports and wires of a module.
pub(crate) fn net_words(alloc: Global, lines: &ModuleLines) -> Result<Vec<&[u8]>, Memory>
    ensures { IfOk result (λ words. map (λ w. w.now) words.items ≡ nets lines.now) }
{
    let mut words = port_words(alloc, lines)?;
    for item in lines.items.as_slice() {
        if let ItemLine::Wire(name) = item {
            words.push(name.as_slice())?;
        }
    }
    Ok(words)
}

/// The ports, wires and instances of a module.
pub(crate) fn name_words(alloc: Global, lines: &ModuleLines) -> Result<Vec<&[u8]>, Memory>
    ensures { IfOk result (λ words. map (λ w. w.now) words.items ≡ names lines.now) }
{
    let mut words = net_words(alloc, lines)?;
    for item in lines.items.as_slice() {
        if let ItemLine::Inst(line) = item {
            words.push(line.name.as_slice())?;
        }
    }
    Ok(words)
}

/// The ports that connections name.
pub(crate) fn conn_words(alloc: Global, conns: &[ConnWords]) -> Result<Vec<&[u8]>, Memory>
    ensures { IfOk result (λ words. map (λ w. w.now) words.items ≡ map (λ c. c.port) conns.now) }
{
    let mut words = Vec::new(alloc);
    for conn in conns {
        words.push(conn.port.as_slice())?;
    }
    Ok(words)
}

/// The names of the instances in a module, in order.
pub(crate) fn inst_words(alloc: Global, lines: &ModuleLines) -> Result<Vec<&[u8]>, Memory>
    ensures { IfOk result (λ words. map (λ w. w.now) words.items ≡ inst_names lines.now) }
{
    let mut words = Vec::new(alloc);
    for item in lines.items.as_slice() {
        if let ItemLine::Inst(line) = item {
            words.push(line.name.as_slice())?;
        }
    }
    Ok(words)
}

pub(crate) fn pin_dirs(alloc: Global, cell: &CellLines) -> Result<List<Dir>, Memory>
    ensures { IfOk result (λ dirs. dirs ≡ pin_dirs cell.now) }
{
    let mut dirs = List::new(alloc);
    for pin in cell.pins.as_slice() {
        dirs.push(pin.dir)?;
    }
    Ok(dirs)
}

pub(crate) fn port_dirs(alloc: Global, lines: &ModuleLines) -> Result<List<Dir>, Memory>
    ensures { IfOk result (λ dirs. dirs ≡ port_dirs lines.now) }
{
    let mut dirs = List::new(alloc);
    for port in lines.ports.as_slice() {
        dirs.push(port.dir)?;
    }
    Ok(dirs)
}
