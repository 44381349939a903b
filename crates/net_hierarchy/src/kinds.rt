//! What the name of a type stands for below the top: a model, else a module, else a cell.
ghost use Rattle.std.specs.Prelude.{◌≡◌, ◌≤◌, length, IfOk};
ghost use Rattle.design_defs.specs.Hierarchy.{Sources, type_of, module_named, cell_named};
ghost use Rattle.net_hierarchy.specs.Kinds.{AreFirsts, AreKinds, first_place, type_in, module_names, cell_names, model_names};

use crate::firsts::Firsts;
use crate::rows::name_of;
use module_rows::Modules;
use pw_defs::{Body, Cell, Cells, List, Memory, Model};
use std::alloc::Global;

/// Finds models, modules and cells by their names.
#[derive(Drop)]
pub struct Kinds {
    models: Firsts,
    modules: Firsts,
    cells: Firsts,
}

impl Kinds {
    /// What the tables say of the name of a type.
    fn type_in(&self, kind: &[u8]) -> Option<Body>
        ensures { result ≡ type_in self.now kind.now }
    {
        match self.models.find(kind) {
            Some(model) => return Some(Body::Model(model)),
            None => {}
        }
        match self.modules.find(kind) {
            Some(module) => return Some(Body::Module(module)),
            None => {}
        }
        match self.cells.find(kind) {
            Some(cell) => Some(Body::Cell(cell)),
            None => None,
        }
    }

    /// What a type is below the top.
    pub fn type_of(&self, kind: &[u8]) -> Option<Body>
        ensures table { result ≡ type_in self.now kind.now }
        ensures meaning { (s : Sources) → AreKinds s.modules s.cells s.models self.now → result ≡ type_of s kind.now }
    {
        self.type_in(kind)
    }

    /// The first module of a name.
    pub fn module_named(&self, name: &[u8]) -> Option<u32>
        ensures table { result ≡ first_place self.now.modules name.now }
        ensures meaning { (s : Sources) → AreKinds s.modules s.cells s.models self.now → result ≡ module_named s name.now }
    {
        self.modules.find(name)
    }

    /// The first cell of a name.
    pub fn cell_named(&self, name: &[u8]) -> Option<u32>
        ensures table { result ≡ first_place self.now.cells name.now }
        ensures meaning { (s : Sources) → AreKinds s.modules s.cells s.models self.now → result ≡ cell_named s name.now }
    {
        self.cells.find(name)
    }
}

fn names_of_modules(alloc: Global, modules: &Modules) -> Result<Firsts, Memory>
    ensures { IfOk result (λ firsts. AreFirsts (module_names modules.now.modules) firsts) }
{
    let mut firsts = Firsts::new(alloc);
    for place in 0..modules.len() {
        firsts.add(name_of(modules, place), place)?;
    }
    Ok(firsts)
}

fn names_of_cells(alloc: Global, cells: &[Cell]) -> Result<Firsts, Memory>
    requires { length cells.now ≤ 4294967295 }
    ensures { IfOk result (λ firsts. AreFirsts (cell_names cells.now) firsts) }
{
    let mut firsts = Firsts::new(alloc);
    for (place, cell) in cells.iter().enumerate() {
        firsts.add(cell.name.as_slice(), place as u32)?;
    }
    Ok(firsts)
}

fn names_of_models(alloc: Global, models: &[Model]) -> Result<Firsts, Memory>
    requires { length models.now ≤ 4294967295 }
    ensures { IfOk result (λ firsts. AreFirsts (model_names models.now) firsts) }
{
    let mut firsts = Firsts::new(alloc);
    for (place, model) in models.iter().enumerate() {
        firsts.add(model.module.as_slice(), place as u32)?;
    }
    Ok(firsts)
}

/// The names of all modules, cells and models.
pub fn kinds_of(
    alloc: Global,
    modules: &Modules,
    cells: &Cells,
    models: &List<Model>,
) -> Result<Kinds, Memory>
    ensures { IfOk result (λ kinds. AreKinds modules.now.modules cells.now models.now kinds) }
{
    Ok(Kinds {
        models: names_of_models(alloc, models.as_slice())?,
        modules: names_of_modules(alloc, modules)?,
        cells: names_of_cells(alloc, cells.cells.as_slice())?,
    })
}
