//! The design below a top, or its first fault.
ghost use Rattle.std.specs.Prelude.{◌≡◌, IfErr, IfOk, OnOk};
ghost use Rattle.design_defs.specs.DesignFaults.{FaultKind, IsDesignOf, sources, HasNoneBefore};
ghost use Rattle.design_defs.specs.Designs.{IsMadeFrom};
ghost use Rattle.design_defs.specs.Hierarchy.{Sources, AreNamedInsts};
ghost use Rattle.design_defs.specs.Inputs.{AreReadSources};
ghost use Rattle.design_defs.specs.Sound.{IsSoundDesign};
ghost use Rattle.design_laws.specs.FullNames.{HaveFullNames};
ghost use Rattle.design_rows.specs.Children.{HasNames};
ghost use Rattle.design_rows.specs.Sound.{AreRows};
ghost use Rattle.design_rows.specs.View.{design_of};
ghost use Rattle.net_design.specs.Stages.{AreParts, HaveTargets};
ghost use Rattle.net_hierarchy.specs.Firstness.{IsCause};
ghost use Rattle.net_instances.specs.Instances.{AreInstances};
ghost use Rattle.net_outline.specs.Outline.{IsOutline};
ghost use Rattle.net_places.specs.Plans.{IsOf};
ghost use Rattle.net_sizes.specs.declared.sizes.Counts.{Counts};

use crate::lines::check_lines;
use crate::wiring::wire;
use design_rows::{Design, Feed, Rows};
use module_rows::Modules;
use net_bits::Placed;
use net_frames::rows_of;
use net_instances::{Instances, instances_of};
use net_names::path_fault;
use net_outline::{Outline, outline_of};
use net_places::Spellings;
use net_widths::have_targets;
use pw_defs::{Cells, DesignFault, List, Memory, Model};
use std::alloc::Global;

/// The outline of a design whose lines are right, wherever their modules stand.
fn lines_checked(
    alloc: Global,
    modules: &Modules,
    cells: &Cells,
    models: &List<Model>,
    top: &[u8],
) -> Result<Outline, DesignFault>
    ensures ok { IfOk result (λ outline. (s : Sources) → AreReadSources s → HaveFullNames s → IsOf modules.now cells.now models.now s → s.top ≡ top.now
        → IsOutline s modules.now outline × HasNoneBefore FaultKind.path_twice s) }
    ensures cause { IfErr result (λ fault. (s : Sources) → AreReadSources s → HaveFullNames s → IsOf modules.now cells.now models.now s → s.top ≡ top.now
        → IsCause s fault) }
{
    let outline = outline_of(alloc, modules, cells, models, top)?;
    let spellings = Spellings {
        modules,
        cells,
        models,
    };
    check_lines(alloc, &spellings, &outline)?;
    Ok(outline)
}

/// Errors: the first instance, port or vector bit whose joined name another one has, or want of memory.
fn check_names(
    alloc: Global,
    modules: &Modules,
    cells: &Cells,
    models: &List<Model>,
    instances: &Instances,
) -> Result<(), DesignFault>
    ensures none { OnOk result ((s : Sources) → (bits : Counts) → IsOf modules.now cells.now models.now s → AreReadSources s → AreNamedInsts s
        → AreInstances s modules.now bits instances.now → HasNoneBefore FaultKind.path_twice s → HasNoneBefore FaultKind.multi_driven s) }
    ensures cause { IfErr result (λ fault. (s : Sources) → (bits : Counts) → IsOf modules.now cells.now models.now s → AreReadSources s → AreNamedInsts s
        → AreInstances s modules.now bits instances.now → HasNoneBefore FaultKind.path_twice s → IsCause s fault) }
{
    match path_fault(alloc, modules, cells, models, instances)? {
        Some(at) => Err(DesignFault::N12(at)),
        None => Ok(()),
    }
}

/// What the rows of a design are made from.
#[derive(Drop)]
pub(crate) struct Parts {
    outline: Outline,
    instances: Instances,
    feeds: Vec<Feed>,
}

/// What feeds the bits of a design, and all its instances, where nothing is wrong with it.
fn parts_of(
    alloc: Global,
    modules: &Modules,
    cells: &Cells,
    models: &List<Model>,
    top: &[u8],
) -> Result<Parts, DesignFault>
    ensures ok { IfOk result (λ parts. (s : Sources) → AreReadSources s → HaveFullNames s → HaveTargets s → IsOf modules.now cells.now models.now s
        → s.top ≡ top.now → AreParts s modules.now parts) }
    ensures cause { IfErr result (λ fault. (s : Sources) → AreReadSources s → HaveFullNames s → HaveTargets s → IsOf modules.now cells.now models.now s
        → s.top ≡ top.now → IsCause s fault) }
{
    let outline = lines_checked(alloc, modules, cells, models, top)?;
    let instances = instances_of(alloc, modules, &outline.types, &outline.bits, outline.top)?;
    check_names(alloc, modules, cells, models, &instances)?;
    let placed = Placed {
        modules,
        cells,
        models,
        plans: &outline.plans,
        instances: &instances,
    };
    let feeds = wire(alloc, &placed, &outline.types)?;
    Ok(Parts {
        outline,
        instances,
        feeds,
    })
}

/// The design of rows, once its instances are in order.
fn ordered_design(rows: Rows) -> Result<Design, Memory>
    requires rows { AreRows rows }
    requires names { HasNames rows }
    requires sound { IsSoundDesign (design_of rows) }
    ensures { IfOk result (λ design. design ≡ design_of rows) }
{
    let mut rows = rows;
    let apart = rows.order_children()?;
    if !apart {
        return Err(Memory);
    }
    let design = Design::new(rows)?;
    Ok(design)
}

/// The rows of a design of which nothing is wrong.
fn sound_rows(
    alloc: Global,
    modules: &Modules,
    cells: Cells,
    models: List<Model>,
    parts: Parts,
) -> Result<Rows, Memory>
    ensures rows { IfOk result (λ rows. AreRows rows) }
    ensures made { IfOk result (λ rows. (s : Sources) → AreReadSources s → HaveFullNames s → IsOf modules.now cells models s → AreParts s modules.now parts
        → IsMadeFrom s (design_of rows) × HasNames rows × IsSoundDesign (design_of rows)) }
{
    let Parts {
        outline,
        instances,
        feeds,
    } = parts;
    let rows = rows_of(
        alloc,
        modules,
        cells,
        models,
        &outline.plans,
        &instances,
        feeds,
    )?;
    Ok(rows)
}

/// The design that the modules of netlists, the cells of libraries and the models of soft macros make below the top of this
/// name, after the elaboration of IEEE 1364 for structural netlists.
///
/// All instances and bits have numbers in order of their paths. A module that has a model is not gone into: its bits and
/// what they are fed by are the model's. Errors: the first fault, by its kind, then by the path of the instance whose
/// module has the line, by line and by name; or want of memory. `Memory` also stands for an assignment to nothing, which no
/// netlist has.
pub fn elaborate(
    alloc: Global,
    modules: &Modules,
    cells: Cells,
    models: List<Model>,
    top: &[u8],
) -> Result<Design, DesignFault>
    requires read { AreReadSources (sources modules.now.modules cells models top.now) }
    requires names { HaveFullNames (sources modules.now.modules cells models top.now) }
    ensures ok { IfOk result (λ design. IsDesignOf modules.now.modules cells models top.now design) }
    ensures cause { IfErr result (λ fault. IsCause (sources modules.now.modules cells models top.now) fault) }
{
    if !have_targets(modules) {
        return Err(DesignFault::Memory);
    }
    let parts = parts_of(alloc, modules, &cells, &models, top)?;
    let rows = sound_rows(alloc, modules, cells, models, parts)?;
    let design = ordered_design(rows)?;
    Ok(design)
}
