//! How much modules, cells and models have by themselves: one instance each, and their bits.
ghost use Rattle.std.specs.Prelude.{◌≡◌, IfOk, length, map};
ghost use Rattle.std.specs.List.{range_with_len};
ghost use Rattle.design_defs.specs.Hierarchy.{Sources};
ghost use Rattle.net_outline.specs.Outline.{bits_at, body_of, HaveBits};
ghost use Rattle.net_places.specs.Plans.{ArePlans, IsOf};
ghost use Rattle.net_sizes.specs.Sizes.{AreCounted, one_each};

use module_rows::Modules;
use net_places::Plans;
use net_sizes::Counts;
use pw_defs::{Body, Cells, List, Memory, Model};
use std::alloc::Global;

/// What a body is.
#[derive(Clone, Copy)]
pub(crate) enum BodyKind {
    Module,
    Cell,
    Model,
}

/// The module, cell or model of a number.
fn body_of(kind: BodyKind, number: u32) -> Body
    ensures { result ≡ body_of kind number }
{
    match kind {
        BodyKind::Module => Body::Module(number),
        BodyKind::Cell => Body::Cell(number),
        BodyKind::Model => Body::Model(number),
    }
}

/// How many bits each of some modules, cells or models owns.
fn bits_of(alloc: Global, plans: &Plans, kind: BodyKind, count: u32) -> Result<Vec<u64>, Memory>
    ensures { IfOk result (λ bits. bits.items ≡ map (bits_at plans.now kind) (range_with_len 0 count)) }
{
    let mut bits = Vec::with_capacity(alloc, count as usize)?;
    for number in 0..count {
        bits.push(plans.bits(body_of(kind, number)))?;
    }
    Ok(bits)
}

/// The number of bits that each module, cell and model owns.
pub(crate) fn bit_counts(
    alloc: Global,
    modules: &Modules,
    cells: &Cells,
    models: &List<Model>,
    plans: &Plans,
) -> Result<Counts, Memory>
    ensures { IfOk result (λ counts. (s : Sources) → IsOf modules.now cells.now models.now s → ArePlans s modules.now.symbols plans.now
        → HaveBits s plans.now counts) }
{
    Ok(Counts {
        modules: bits_of(alloc, plans, BodyKind::Module, modules.len())?,
        cells: bits_of(alloc, plans, BodyKind::Cell, cells.cells.len())?,
        models: bits_of(alloc, plans, BodyKind::Model, models.len())?,
    })
}

/// One for each module, cell and model.
pub(crate) fn one_counts(
    alloc: Global,
    modules: &Modules,
    cells: &Cells,
    models: &List<Model>,
) -> Result<Counts, Memory>
    ensures { IfOk result (λ counts. (s : Sources) → IsOf modules.now cells.now models.now s → AreCounted s one_each counts 1000001) }
{
    Ok(Counts {
        modules: vec![in alloc; 1; modules.len() as usize]?,
        cells: vec![in alloc; 1; cells.cells.len() as usize]?,
        models: vec![in alloc; 1; models.len() as usize]?,
    })
}
