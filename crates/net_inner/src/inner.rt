//! What feeds the bits of all cells and models through the bodies themselves.
ghost use Rattle.std.specs.Prelude.{◌≡◌, ℕ, true, IfOk, Some, None, length, replicate, slice_get};
ghost use Rattle.design_defs.specs.Hierarchy.{Sources};
ghost use Rattle.pw_defs.specs.declared.cells.Cell.{Cell as PlainCell};
ghost use Rattle.pw_defs.specs.declared.model.Model.{Model as PlainModel};
ghost use Rattle.pw_defs.specs.declared.design.Body.TheVariants.{Cell as CellBody, Model as ModelBody};
ghost use Rattle.net_bits.specs.Placed.{ArePlaced};
ghost use Rattle.net_instances.specs.declared.numbering.InstanceRow.{InstanceRow as Instance};
ghost use Rattle.net_inner.specs.Inside.{AreInnerSources, AreUsed, HasPlans, HasSources, MarksModel, in_row, source_in};
ghost use Rattle.net_inner.specs.Pairs.{pairs_of_cell, pairs_of_model, with_pairs};

use crate::bodies::index_of;
use crate::pairs::{put_cell, put_model};
use name_index::NameIndex;
use net_bits::Placed;
use net_instances::InstanceRow;
use pw_defs::{Body, Cell, List, Memory, Model};
use std::alloc::Global;

/// For each bit of a cell or model, by its number there, the bit that feeds it through the body itself.
#[derive(Drop)]
pub struct Inner {
    cells: List<List<Option<u32>>>,
    models: List<List<Option<u32>>>,
}

/// No sources of so many bits.
fn no_sources(alloc: Global, count: u32) -> Result<Vec<Option<u32>>, Memory>
    ensures { IfOk result (λ sources. sources.items ≡ replicate count None) }
{
    let mut sources = Vec::new(alloc);
    for done in 0..count {
        sources.push(None)?;
    }
    Ok(sources)
}

/// What a cell says of its bits, which have these names.
fn cell_table(alloc: Global, index: &NameIndex, cell: &Cell) -> Result<List<Option<u32>>, Memory>
    ensures { IfOk result (λ sources. sources ≡ with_pairs index.now (pairs_of_cell cell.now) (replicate (length index.now) None)) }
{
    let mut sources = no_sources(alloc, index.len())?;
    put_cell(index, cell, &mut sources);
    let Some(list) = List::from_vec(sources) else {
        return Err(Memory);
    };
    Ok(list)
}

/// What feeds the bits of a cell.
fn cell_sources(
    alloc: Global,
    placed: &Placed,
    number: u32,
    cell: &Cell,
) -> Result<List<Option<u32>>, Memory>
    ensures { IfOk result (λ sources. (s : Sources) → HasPlans s placed.now → slice_get s.cells.cells number ≡ Some cell.now → HasSources s placed.now (CellBody number) (Some sources)) }
{
    match index_of(alloc, placed, Body::Cell(number))? {
        Some(index) => {
            let sources = cell_table(alloc, &index, cell)?;
            Ok(sources)
        }
        None => Ok(List::new(alloc)),
    }
}

/// What a model says of its bits, which have these names.
fn model_table(alloc: Global, index: &NameIndex, model: &Model) -> Result<List<Option<u32>>, Memory>
    ensures { IfOk result (λ sources. sources ≡ with_pairs index.now (pairs_of_model model.now) (replicate (length index.now) None)) }
{
    let mut sources = no_sources(alloc, index.len())?;
    put_model(index, model, &mut sources);
    let Some(list) = List::from_vec(sources) else {
        return Err(Memory);
    };
    Ok(list)
}

/// What feeds the bits of a model.
fn model_sources(
    alloc: Global,
    placed: &Placed,
    number: u32,
    model: &Model,
) -> Result<List<Option<u32>>, Memory>
    ensures { IfOk result (λ sources. (s : Sources) → HasPlans s placed.now → slice_get s.models number ≡ Some model.now → HasSources s placed.now (ModelBody number) (Some sources)) }
{
    match index_of(alloc, placed, Body::Model(number))? {
        Some(index) => {
            let sources = model_table(alloc, &index, model)?;
            Ok(sources)
        }
        None => Ok(List::new(alloc)),
    }
}

/// What feeds the bits of all cells.
fn all_cells(alloc: Global, placed: &Placed) -> Result<List<List<Option<u32>>>, Memory>
    ensures { IfOk result (λ rows. (s : Sources) → HasPlans s placed.now → (c : ℕ) → (cell : PlainCell) → slice_get placed.now.cells.now.cells c ≡ Some cell
        → HasSources s placed.now (CellBody c) (slice_get rows c)) }
{
    let mut rows = List::new(alloc);
    let cells = placed.cells.cells.as_slice();
    for number in 0..cells.len() {
        rows.push(cell_sources(alloc, placed, number as u32, &cells[number])?)?;
    }
    Ok(rows)
}

/// Marks the model that an instance is of.
fn mark_model(row: InstanceRow, used: &mut Vec<bool>)
    ensures { MarksModel row.body used.old.items used.new.items }
{
    match row.body {
        Body::Model(model) => {
            if (model as usize) < used.len() {
                used[model as usize] = true;
            }
        }
        Body::Module(_) | Body::Cell(_) => {}
    }
}

/// The models that instances are of.
fn used_models(alloc: Global, placed: &Placed) -> Result<Vec<bool>, Memory>
    ensures { IfOk result (λ used. AreUsed placed.now.instances.now.rows (length placed.now.models.now) used.items) }
{
    let mut used = vec![in alloc; false; placed.models.len() as usize]?;
    for row in placed.instances.rows.as_slice() {
        mark_model(*row, &mut used);
    }
    Ok(used)
}

/// What feeds the bits of a model, nothing where no instance is of it.
fn sources_if(
    alloc: Global,
    placed: &Placed,
    number: u32,
    model: &Model,
    used: bool,
) -> Result<List<Option<u32>>, Memory>
    ensures { IfOk result (λ sources. (s : Sources) → HasPlans s placed.now → slice_get s.models number ≡ Some model.now → used ≡ true → HasSources s placed.now (ModelBody number) (Some sources)) }
{
    if !used {
        return Ok(List::new(alloc));
    }
    model_sources(alloc, placed, number, model)
}

/// Whether a model is marked.
fn is_used(used: &[bool], number: usize) -> bool
    ensures { slice_get used.now number ≡ Some true → result ≡ true }
{
    match used.get(number) {
        Some(used) => *used,
        None => false,
    }
}

/// What feeds the bits of all models that instances are of.
fn all_models(
    alloc: Global,
    placed: &Placed,
    used: &[bool],
) -> Result<List<List<Option<u32>>>, Memory>
    ensures { IfOk result (λ rows. (s : Sources) → HasPlans s placed.now → (m : ℕ) → (model : PlainModel) → slice_get placed.now.models.now m ≡ Some model → slice_get used.now m ≡ Some true
        → HasSources s placed.now (ModelBody m) (slice_get rows m)) }
{
    let mut rows = List::new(alloc);
    let models = placed.models.as_slice();
    for number in 0..models.len() {
        rows.push(sources_if(
            alloc,
            placed,
            number as u32,
            &models[number],
            is_used(used, number),
        )?)?;
    }
    Ok(rows)
}

/// What feeds the bits of the cells and models that instances are of.
pub fn inner_of(alloc: Global, placed: &Placed) -> Result<Inner, Memory>
    ensures { IfOk result (λ inner. (s : Sources) → ArePlaced s placed.now → AreInnerSources s placed.now inner) }
{
    let cells = all_cells(alloc, placed)?;
    let used = used_models(alloc, placed)?;
    let models = all_models(alloc, placed, used.as_slice())?;
    Ok(Inner { cells, models })
}

/// What stands at a place of a row.
fn source_at(rows: &List<List<Option<u32>>>, number: u32, bit: u32) -> Option<u32>
    ensures { result ≡ in_row (slice_get rows.now number) bit }
{
    *rows.get(number)?.get(bit)?
}

impl Inner {
    /// The bit of a body that feeds another one of it, by its number there.
    pub fn source(&self, body: Body, bit: u32) -> Option<u32>
        ensures { result ≡ source_in self.now body bit }
    {
        match body {
            Body::Module(_) => None,
            Body::Cell(number) => source_at(&self.cells, number, bit),
            Body::Model(number) => source_at(&self.models, number, bit),
        }
    }
}
