//! The outline of a design, or its first fault of names, types or size.
ghost use Rattle.std.specs.Prelude.{◌≡◌, IfErr, IfOk, Some};
ghost use Rattle.design_defs.specs.DesignFaults.{FaultKind, HasNoneBefore};
ghost use Rattle.design_defs.specs.Hierarchy.{Sources, module_named, AreNamedInsts};
ghost use Rattle.design_defs.specs.Inputs.{AreReadSources};
ghost use Rattle.design_laws.specs.FullNames.{HaveFullNames};
ghost use Rattle.net_hierarchy.specs.Firstness.{IsCause};
ghost use Rattle.net_hierarchy.specs.Graph.{AreInstsApart, IsOrder, types_of};
ghost use Rattle.net_hierarchy.specs.Kinds.{AreKinds};
ghost use Rattle.net_outline.specs.Outline.{IsOutline};
ghost use Rattle.net_places.specs.Plans.{ArePlans, IsOf};

use crate::counts::{bit_counts, one_counts};
use module_rows::Modules;
use net_hierarchy::{Kinds, first_by_name, kinds_of, top_number, types_of};
use net_least::{ordered_modules, size_fault};
use net_places::{Plans, plans_of};
use net_sizes::Counts;
use pw_defs::{Body, Cells, DesignFault, List, Model};
use std::alloc::Global;

/// What is decided of a design on its modules alone.
#[derive(Drop)]
pub struct Outline {
    /// The number of the module that is the top.
    pub top: u32,
    /// The types of the instances of each module, in their order.
    pub types: List<List<Option<Body>>>,
    /// The modules below the top, each behind those that it holds.
    pub order: Vec<u32>,
    /// Where the nets of each body have their bits.
    pub plans: Plans,
    /// How many bits each body owns.
    pub bits: Counts,
}

/// The number of the top, where no module has a wrong name.
fn top_of(
    alloc: Global,
    kinds: &Kinds,
    modules: &Modules,
    models: &List<Model>,
    top: &[u8],
) -> Result<u32, DesignFault>
    ensures ok { IfOk result (λ number. (s : Sources) → AreKinds s.modules s.cells s.models kinds.now → s.modules ≡ modules.now.modules → s.models ≡ models.now
        → s.top ≡ top.now → (module_named s s.top ≡ Some number) × HasNoneBefore FaultKind.recursion s) }
    ensures cause { IfErr result (λ fault. (s : Sources) → AreKinds s.modules s.cells s.models kinds.now → s.modules ≡ modules.now.modules → s.models ≡ models.now
        → s.top ≡ top.now → IsCause s fault) }
{
    first_by_name(alloc, kinds, modules, models)?;
    let number = top_number(alloc, kinds, top)?;
    Ok(number)
}

/// What is decided of a design on its modules alone.
///
/// Errors: the first of the faults that are looked for before those of lines: a module with the name of an earlier module
/// or of a cell, a module whose model has other ports, an instance of a module that it is inside, a type or a top that isn't
/// there, a design that is too large; or want of memory.
pub fn outline_of(
    alloc: Global,
    modules: &Modules,
    cells: &Cells,
    models: &List<Model>,
    top: &[u8],
) -> Result<Outline, DesignFault>
    ensures ok { IfOk result (λ outline. (s : Sources) → AreReadSources s → HaveFullNames s → IsOf modules.now cells.now models.now s → s.top ≡ top.now
        → IsOutline s modules.now outline) }
    ensures cause { IfErr result (λ fault. (s : Sources) → AreReadSources s → HaveFullNames s → IsOf modules.now cells.now models.now s → s.top ≡ top.now
        → IsCause s fault) }
{
    let kinds = kinds_of(alloc, modules, cells, models)?;
    let top = top_of(alloc, &kinds, modules, models, top)?;
    let types = types_of(alloc, &kinds, modules)?;
    let order = ordered_modules(alloc, modules, &types, top)?;
    let plans = plans_of(alloc, modules, cells, models)?;
    let bits = bit_counts(alloc, modules, cells, models, &plans)?;
    let ones = one_counts(alloc, modules, cells, models)?;
    size_fault(alloc, &types, order.as_slice(), top, &ones, &bits)?;
    Ok(Outline {
        top,
        types,
        order,
        plans,
        bits,
    })
}
