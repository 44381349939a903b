//! The plans of all modules, cells and models.
ghost use Rattle.std.specs.Prelude.{◌≡◌, ◌+◌, ◌<◌, ◌≤◌, ℕ, [], IfOk, IfSome, Some, length, map, slice_get, slice_index_or};
ghost use Rattle.pw_defs.specs.declared.cells.Cell.{Cell as PlainCell};
ghost use Rattle.pw_defs.specs.declared.model.Model.{Model as PlainModel};
ghost use Rattle.pw_defs.specs.declared.netlist.Port.{Port as PlainPort};
ghost use Rattle.design_defs.specs.Hierarchy.{Sources};
ghost use Rattle.design_defs.specs.Ports.{port_of_pin};
ghost use Rattle.module_rows.specs.Reads.{module_at};
ghost use Rattle.net_places.specs.Gathered.{HasGathered, IsReady};
ghost use Rattle.net_places.specs.Mentions.{of_module};
ghost use Rattle.net_places.specs.Nets.{net_among, net_in};
ghost use Rattle.net_places.specs.Plans.{rows_at, ArePlans, IsOf};
ghost use Rattle.net_places.specs.Tables.{bits_in, AddsPlan, IsPlanOf};

use crate::bodies::{pin_rows, port_rows};
use crate::gathering::Gathering;
use crate::lines::mention_module;
use crate::order::sort;
use crate::rows::NetRow;
use crate::tables::Table;
use module_rows::Modules;
use pw_defs::{Body, Cell, Cells, List, Memory, Model};
use std::alloc::Global;

/// The nets of each module, cell and model, rising by name, with the numbers of their first bits.
#[derive(Drop)]
pub struct Plans {
    modules: Table,
    cells: Table,
    models: Table,
}

/// No marks.
fn no_marks<'a>(alloc: Global, modules: &'a Modules) -> Result<Gathering<'a>, Memory>
    ensures { IfOk result (λ gathering. IsReady modules.now.symbols 1 gathering) }
{
    let marks = vec![in alloc; 0; modules.symbols() as usize]?;
    Ok(Gathering {
        marks,
        nets: Vec::new(alloc),
    })
}

/// Gathers the nets of a module.
fn gather<'a>(
    modules: &'a Modules,
    holder: u32,
    mark: u32,
    gathering: &mut Gathering<'a>,
) -> Result<(), Memory>
    requires { holder < length modules.now.modules }
    ensures { IfOk result (λ _. IsReady modules.now.symbols mark gathering.old → HasGathered modules.now.symbols mark gathering.new (of_module (module_at modules.now holder))) }
{
    gathering.nets.clear();
    mention_module(modules, holder, mark, gathering)?;
    Ok(())
}

/// Adds a module.
fn add_module<'a>(
    modules: &'a Modules,
    holder: u32,
    mark: u32,
    gathering: &mut Gathering<'a>,
    table: &mut Table,
) -> Result<(), Memory>
    requires { holder < length modules.now.modules }
    ensures ready { IfOk result (λ _. IsReady modules.now.symbols mark gathering.old → IsReady modules.now.symbols (mark + 1) gathering.new) }
    ensures plan { IfOk result (λ _. IsReady modules.now.symbols mark gathering.old → AddsPlan (net_in (module_at modules.now holder)) modules.now.symbols table.old table.new) }
{
    gather(modules, holder, mark, gathering)?;
    sort(&mut gathering.nets)?;
    table.add(gathering.nets.as_slice())?;
    Ok(())
}

/// The nets of all modules.
fn module_plans(alloc: Global, modules: &Modules) -> Result<Table, Memory>
    ensures len { IfOk result (λ table. length table ≡ length modules.now.modules) }
    ensures plans { IfOk result (λ table. (m : ℕ) → m < length modules.now.modules
        → IsPlanOf (net_in (module_at modules.now m)) modules.now.symbols (slice_index_or table m [])) }
{
    let mut table = Table::new(alloc);
    let mut gathering = no_marks(alloc, modules)?;
    for holder in 0..modules.len() {
        add_module(modules, holder, holder + 1, &mut gathering, &mut table)?;
    }
    Ok(table)
}

/// Adds a cell.
fn add_cell(alloc: Global, cell: &Cell, table: &mut Table) -> Result<(), Memory>
    ensures { IfOk result (λ _. AddsPlan (net_among (map port_of_pin cell.now.pins)) (map (λ (p : PlainPort). p.name) (map port_of_pin cell.now.pins)) table.old table.new) }
{
    let mut rows = pin_rows(alloc, cell.pins.as_slice())?;
    sort(&mut rows)?;
    table.add(rows.as_slice())?;
    Ok(())
}

/// The pins of all cells.
fn cell_plans(alloc: Global, cells: &[Cell]) -> Result<Table, Memory>
    ensures len { IfOk result (λ table. length table ≡ length cells.now) }
    ensures plans { IfOk result (λ table. (c : ℕ) (cell : PlainCell) → slice_get cells.now c ≡ Some cell
        → IsPlanOf (net_among (map port_of_pin cell.pins)) (map (λ (p : PlainPort). p.name) (map port_of_pin cell.pins)) (slice_index_or table c [])) }
{
    let mut table = Table::new(alloc);
    for cell in cells {
        add_cell(alloc, cell, &mut table)?;
    }
    Ok(table)
}

/// Adds a model.
fn add_model(alloc: Global, model: &Model, table: &mut Table) -> Result<(), Memory>
    ensures { IfOk result (λ _. AddsPlan (net_among model.now.ports) (map (λ (p : PlainPort). p.name) model.now.ports) table.old table.new) }
{
    let mut rows = port_rows(alloc, model.ports.as_slice())?;
    sort(&mut rows)?;
    table.add(rows.as_slice())?;
    Ok(())
}

/// The ports of all models.
fn model_plans(alloc: Global, models: &[Model]) -> Result<Table, Memory>
    ensures len { IfOk result (λ table. length table ≡ length models.now) }
    ensures plans { IfOk result (λ table. (c : ℕ) (model : PlainModel) → slice_get models.now c ≡ Some model
        → IsPlanOf (net_among model.ports) (map (λ (p : PlainPort). p.name) model.ports) (slice_index_or table c [])) }
{
    let mut table = Table::new(alloc);
    for model in models {
        add_model(alloc, model, &mut table)?;
    }
    Ok(table)
}

/// The plans of all modules, cells and models.
///
/// Each line of a module is looked at once, and the nets of each body are put in order by their names.
pub fn plans_of(
    alloc: Global,
    modules: &Modules,
    cells: &Cells,
    models: &List<Model>,
) -> Result<Plans, Memory>
    ensures { IfOk result (λ plans. (s : Sources) → IsOf modules.now cells.now models.now s → ArePlans s modules.now.symbols plans) }
{
    let modules = module_plans(alloc, modules)?;
    let cells = cell_plans(alloc, cells.cells.as_slice())?;
    let models = model_plans(alloc, models.as_slice())?;
    Ok(Plans {
        modules,
        cells,
        models,
    })
}

impl Plans {
    /// How many nets a body has.
    pub fn nets(&self, body: Body) -> u32
        ensures { result ≡ length (rows_at self.now body) }
    {
        match body {
            Body::Module(number) => self.modules.nets(number),
            Body::Cell(number) => self.cells.nets(number),
            Body::Model(number) => self.models.nets(number),
        }
    }

    /// How many bits a body has.
    pub fn bits(&self, body: Body) -> u64
        ensures { result ≡ bits_in (rows_at self.now body) }
    {
        match body {
            Body::Module(number) => self.modules.bits(number),
            Body::Cell(number) => self.cells.bits(number),
            Body::Model(number) => self.models.bits(number),
        }
    }

    /// A net of a body, by its number among the nets in the order of their names. Each bit of the body has a number of 64
    /// bits.
    pub fn net(&self, body: Body, net: u32) -> Option<NetRow>
        ensures net { result ≡ slice_get (rows_at self.now body) net }
        ensures bits { IfSome result (λ _. bits_in (rows_at self.now body) ≤ 18446744073709551615) }
    {
        match body {
            Body::Module(number) => self.modules.net(number, net),
            Body::Cell(number) => self.cells.net(number, net),
            Body::Model(number) => self.models.net(number, net),
        }
    }
}
