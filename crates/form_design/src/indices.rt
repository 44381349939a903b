//! The index of the names of all files, and whether these differ.
ghost use Rattle.std.specs.Prelude.{◌≡◌, true, false, map, IfOk, MatchOption};
ghost use Rattle.std.specs.List.{list_all};
ghost use Rattle.list_defs.specs.Members.{all_differ, same_name};
ghost use Rattle.form_design.specs.Names.{pin_names, pin_dirs, port_names, port_dirs, nets, names, table_of};
ghost use Rattle.form_design.specs.Fits.{is_apart, names_differ};

use crate::names::Names;
use crate::words;
use line_forms::{CellLines, ModuleLines};
use name_index::NameIndex;
use pw_defs::{Dir, List, Memory};
use std::alloc::Global;

/// An index of the pins of each cell, which is `None` where two pins of a cell have one name.
fn pin_indices(alloc: Global, cells: &[CellLines]) -> Result<Option<Vec<NameIndex>>, Memory>
    ensures { IfOk result (λ r. MatchOption r
        (list_all (all_differ same_name) (map pin_names cells.now) ≡ false)
        (λ indices. (indices.items ≡ map pin_names cells.now) × (list_all (all_differ same_name) (map pin_names cells.now) ≡ true))) }
{
    let mut indices = Vec::new(alloc);
    for cell in cells {
        match NameIndex::from_names(alloc, words::pin_words(alloc, cell)?.as_slice())? {
            Some(index) => indices.push(index)?,
            None => return Ok(None),
        }
    }
    Ok(Some(indices))
}

/// An index of the ports of each module, which is `None` where two ports of a module have one name.
fn port_indices(alloc: Global, modules: &[ModuleLines]) -> Result<Option<Vec<NameIndex>>, Memory>
    ensures { IfOk result (λ r. MatchOption r
        (list_all (all_differ same_name) (map port_names modules.now) ≡ false)
        (λ indices. indices.items ≡ map port_names modules.now)) }
{
    let mut indices = Vec::new(alloc);
    for lines in modules {
        match NameIndex::from_names(alloc, words::port_words(alloc, lines)?.as_slice())? {
            Some(index) => indices.push(index)?,
            None => return Ok(None),
        }
    }
    Ok(Some(indices))
}

/// An index of the nets of each module, which is `None` where two nets of a module have one name.
fn net_indices(alloc: Global, modules: &[ModuleLines]) -> Result<Option<Vec<NameIndex>>, Memory>
    ensures { IfOk result (λ r. MatchOption r
        (list_all (all_differ same_name) (map nets modules.now) ≡ false)
        (λ indices. indices.items ≡ map nets modules.now)) }
{
    let mut indices = Vec::new(alloc);
    for lines in modules {
        match NameIndex::from_names(alloc, words::net_words(alloc, lines)?.as_slice())? {
            Some(index) => indices.push(index)?,
            None => return Ok(None),
        }
    }
    Ok(Some(indices))
}

/// Whether the names of each module differ.
fn names_differ_within(alloc: Global, modules: &[ModuleLines]) -> Result<bool, Memory>
    ensures { IfOk result (λ differ. differ ≡ list_all (λ m. all_differ same_name (names m)) modules.now) }
{
    for lines in modules {
        if NameIndex::from_names(alloc, words::name_words(alloc, lines)?.as_slice())?.is_none() {
            return Ok(false);
        }
    }
    Ok(true)
}

/// Whether no module has a cell's name.
fn modules_are_apart(cells: &NameIndex, modules: &[ModuleLines]) -> bool
    ensures { result ≡ list_all (is_apart cells.now) (map (λ m. m.name) modules.now) }
{
    for lines in modules {
        if cells.find(lines.name.as_slice()).is_some() {
            return false;
        }
    }
    true
}

fn all_pin_dirs(alloc: Global, cells: &[CellLines]) -> Result<Vec<List<Dir>>, Memory>
    ensures { IfOk result (λ dirs. dirs.items ≡ map pin_dirs cells.now) }
{
    let mut dirs = Vec::new(alloc);
    for cell in cells {
        dirs.push(words::pin_dirs(alloc, cell)?)?;
    }
    Ok(dirs)
}

fn all_port_dirs(alloc: Global, modules: &[ModuleLines]) -> Result<Vec<List<Dir>>, Memory>
    ensures { IfOk result (λ dirs. dirs.items ≡ map port_dirs modules.now) }
{
    let mut dirs = Vec::new(alloc);
    for lines in modules {
        dirs.push(words::port_dirs(alloc, lines)?)?;
    }
    Ok(dirs)
}

/// The index of all names, which is `None` where they do not differ as they have to.
#[tactic(auto, using(crate::proofs::Fronts::ports_differ, crate::proofs::Fronts::nets_differ))]
pub(crate) fn names_of(
    alloc: Global,
    cells: &[CellLines],
    modules: &[ModuleLines],
) -> Result<Option<Names>, Memory>
    ensures { IfOk result (λ r. MatchOption r
        (names_differ cells.now modules.now ≡ false)
        (λ names. (names ≡ table_of cells.now modules.now) × (names_differ cells.now modules.now ≡ true))) }
{
    let Some(cell_index) = NameIndex::from_names(
        alloc,
        words::cell_words(alloc, cells)?.as_slice(),
    )?
    else {
        return Ok(None);
    };
    let Some(pins) = pin_indices(alloc, cells)? else {
        return Ok(None);
    };
    let Some(module_index) = NameIndex::from_names(
        alloc,
        words::module_words(alloc, modules)?.as_slice(),
    )?
    else {
        return Ok(None);
    };
    if !modules_are_apart(&cell_index, modules) || !names_differ_within(alloc, modules)? {
        return Ok(None);
    }
    let Some(ports) = port_indices(alloc, modules)? else {
        return Ok(None);
    };
    let Some(nets) = net_indices(alloc, modules)? else {
        return Ok(None);
    };
    Ok(Some(Names::new(
        cell_index,
        module_index,
        pins,
        ports,
        nets,
        all_pin_dirs(alloc, cells)?,
        all_port_dirs(alloc, modules)?,
    )))
}
