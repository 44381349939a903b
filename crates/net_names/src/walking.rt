//! All names of a hierarchy, met instance by instance.
ghost use Rattle.std.specs.Prelude.{◌≡◌, ◌<◌, ◌↔◌, IfOk, IfSome, IsTrue, Some, length, slice_get};
ghost use Rattle.design_defs.specs.Hierarchy.{Sources, AreNamedInsts};
ghost use Rattle.design_defs.specs.Inputs.{AreReadSources};
ghost use Rattle.net_instances.specs.Instances.{AreInstances};
ghost use Rattle.net_names.specs.Things.{HasMet, IsBelow};
ghost use Rattle.net_names.specs.Walking.{HasMetAt, HasMetInner, HasMetPorts, HasMetTop, IsLineIn, IsOwnPlace, IsPathBelow};
ghost use Rattle.net_sizes.specs.declared.sizes.Counts.{Counts};

use crate::meeting::{Meeting, Place, meet, no_names};
use crate::ports::{meet_cell, meet_model, meet_module};
use crate::spelling::joined;
use module_rows::Modules;
use name_rows::Names;
use net_instances::{InstanceRow, Instances};
use pw_defs::{Body, Bytes, Cells, List, Memory, Model};
use std::alloc::Global;

/// The instance of a number.
pub(crate) fn row_at(rows: &List<InstanceRow>, number: u32) -> Result<InstanceRow, Memory>
    ensures { IfOk result (λ row. slice_get rows.now number ≡ Some row) }
{
    match rows.get(number) {
        Some(row) => Ok(*row),
        None => Err(Memory),
    }
}

/// The line of a module that makes an instance, by the numbers of both.
fn line_in(modules: &Modules, body: Body, inst: u32) -> Option<u32>
    ensures { IfSome result (λ line. IsLineIn modules.now body inst line) }
{
    match body {
        Body::Module(holder) => {
            if holder >= modules.len() || inst >= modules.module(holder).insts {
                return None;
            }
            Some(modules.inst(holder, inst).line)
        }
        Body::Cell(_) | Body::Model(_) => None,
    }
}

/// Where an instance stands: at its line in the module of what it is inside.
fn place_of(modules: &Modules, rows: &List<InstanceRow>, row: InstanceRow) -> Option<Place>
    ensures { IfSome result (λ place. IsOwnPlace modules.now rows.now row place) }
{
    let outer = rows.get(row.parent)?;
    let line = line_in(modules, outer.body, row.inst)?;
    Some(Place {
        holder: row.parent,
        line,
    })
}

/// The path of an instance, by the paths of those that come before it.
fn path_of(
    alloc: Global,
    modules: &Modules,
    paths: &Names,
    row: InstanceRow,
) -> Result<Bytes, Memory>
    ensures { IfOk result (λ path. IsPathBelow modules.now.symbols paths.now row path) }
{
    if row.parent >= paths.len() || row.name >= modules.symbols() {
        return Err(Memory);
    }
    let path = joined(alloc, paths.name(row.parent), modules.spelling(row.name))?;
    Ok(path)
}

/// Whether there is a module of this number.
fn has_module(modules: &Modules, holder: u32) -> bool
    ensures { IsTrue result ↔ (holder < length modules.now.modules) }
{
    holder < modules.len()
}

/// Meets the ports of the instance of a number, which stands at this place itself.
fn meet_ports(
    alloc: Global,
    modules: &Modules,
    cells: &Cells,
    models: &List<Model>,
    meeting: &mut Meeting,
    number: u32,
    own: Place,
    path: &[u8],
    body: Body,
) -> Result<(), Memory>
    ensures { IfOk result (λ _. HasMetPorts modules.now cells.now models.now number own path.now body meeting.old meeting.new) }
{
    match body {
        Body::Module(holder) => {
            if !has_module(modules, holder) {
                return Err(Memory);
            }
            let line = modules.module(holder).line;
            let place = Place {
                holder: number,
                line,
            };
            meet_module(alloc, meeting, place, path, modules, holder)?;
            Ok(())
        }
        Body::Cell(cell) => {
            meet_cell(alloc, meeting, own, path, cells, cell)?;
            Ok(())
        }
        Body::Model(model) => {
            meet_model(alloc, meeting, own, path, models, model)?;
            Ok(())
        }
    }
}

/// Meets the names of the top's ports.
fn meet_top(
    alloc: Global,
    modules: &Modules,
    cells: &Cells,
    models: &List<Model>,
    meeting: &mut Meeting,
    paths: &mut Names,
    row: InstanceRow,
) -> Result<(), Memory>
    ensures { IfOk result (λ _. HasMetTop modules.now cells.now models.now row paths.old paths.new meeting.old meeting.new) }
{
    let nowhere = Place { holder: 0, line: 0 };
    meet_ports(
        alloc, modules, cells, models, meeting, 0, nowhere, b"", row.body,
    )?;
    paths.push(b"")?;
    Ok(())
}

/// Meets the name of an instance below the top, and the names of its ports.
fn meet_inner(
    alloc: Global,
    modules: &Modules,
    cells: &Cells,
    models: &List<Model>,
    meeting: &mut Meeting,
    paths: &mut Names,
    number: u32,
    own: Place,
    row: InstanceRow,
) -> Result<(), Memory>
    ensures { IfOk result (λ _. HasMetInner modules.now cells.now models.now number own row paths.old paths.new meeting.old meeting.new) }
{
    let path = path_of(alloc, modules, paths, row)?;
    meet(alloc, meeting, own, path.as_slice())?;
    meet_ports(
        alloc,
        modules,
        cells,
        models,
        meeting,
        number,
        own,
        path.as_slice(),
        row.body,
    )?;
    paths.push(path.as_slice())?;
    Ok(())
}

/// Meets the names of the instance of a number.
fn meet_at(
    alloc: Global,
    modules: &Modules,
    cells: &Cells,
    models: &List<Model>,
    rows: &List<InstanceRow>,
    meeting: &mut Meeting,
    paths: &mut Names,
    number: u32,
) -> Result<(), Memory>
    ensures { IfOk result (λ _. HasMetAt modules.now cells.now models.now rows.now number paths.old paths.new meeting.old meeting.new) }
{
    let row = row_at(rows, number)?;
    if number == 0 {
        meet_top(alloc, modules, cells, models, meeting, paths, row)?;
        return Ok(());
    }
    let own = place_of(modules, rows, row).ok_or(Memory)?;
    meet_inner(
        alloc, modules, cells, models, meeting, paths, number, own, row,
    )?;
    Ok(())
}

/// Meets all names of a hierarchy.
pub(crate) fn meet_all(
    alloc: Global,
    modules: &Modules,
    cells: &Cells,
    models: &List<Model>,
    instances: &Instances,
) -> Result<Meeting, Memory>
    ensures { IfOk result (λ meeting. (s : Sources) → (bits : Counts) → s.modules ≡ modules.now.modules → s.cells ≡ cells.now → s.models ≡ models.now → AreReadSources s
        → AreNamedInsts s → (are : AreInstances s modules.now bits instances.now) → HasMet s (are.ways) (IsBelow (are.ways) (length instances.now.rows) 0 0) meeting) }
{
    let mut meeting = no_names(alloc);
    let mut paths = Names::new(alloc);
    for number in 0..instances.rows.len() {
        meet_at(
            alloc,
            modules,
            cells,
            models,
            &instances.rows,
            &mut meeting,
            &mut paths,
            number,
        )?;
    }
    Ok(meeting)
}
