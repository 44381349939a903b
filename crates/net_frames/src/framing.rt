//! What instances are instances of, and the rows of the instances.
ghost use Rattle.std.specs.Prelude.{◌≡◌, ◌<◌, [], IfOk, IfSome, IsTrue, length, slice_get};
ghost use Rattle.design_rows.specs.Sound.{AreRows};
ghost use Rattle.net_frames.specs.Framed.{AreFramed, HasInstance, HasKindOf, HaveSameParts, IsKindOf};

use crate::places::add_nets;
use design_rows::Rows;
use module_rows::Modules;
use net_instances::{InstanceRow, Instances};
use net_places::Plans;
use pw_defs::{Body, Memory};
use std::alloc::Global;

/// The numbers of the kinds of bodies, by the numbers of these; `NO_KIND` where a body has none yet.
#[derive(Drop)]
struct Kinds {
    modules: Vec<u32>,
    cells: Vec<u32>,
    models: Vec<u32>,
}

const NO_KIND: u32 = 4294967295;

impl Kinds {
    /// No kinds.
    fn new(alloc: Global, rows: &Rows) -> Result<Kinds, Memory> {
        Ok(Kinds {
            modules: vec![in alloc; NO_KIND; rows.modules.len() as usize]?,
            cells: vec![in alloc; NO_KIND; rows.cells.cells.len() as usize]?,
            models: vec![in alloc; NO_KIND; rows.models.len() as usize]?,
        })
    }

    /// The number that is kept for a body.
    fn number(&self, body: Body) -> Option<u32> {
        let (numbers, at) = match body {
            Body::Module(number) => (&self.modules, number),
            Body::Cell(number) => (&self.cells, number),
            Body::Model(number) => (&self.models, number),
        };
        numbers.get(at as usize).copied()
    }

    /// Keeps the number of the kind of a body.
    fn keep(&mut self, body: Body, kind: u32) {
        match body {
            Body::Module(number) => keep_at(&mut self.modules, number, kind),
            Body::Cell(number) => keep_at(&mut self.cells, number, kind),
            Body::Model(number) => keep_at(&mut self.models, number, kind),
        }
    }
}

/// Keeps a number at a place that there is.
fn keep_at(numbers: &mut Vec<u32>, at: u32, number: u32) {
    if (at as usize) < numbers.len() {
        numbers[at as usize] = number;
    }
}

/// Whether two bodies are the same.
fn is_same(one: Body, other: Body) -> bool
    ensures { IsTrue result → one ≡ other }
{
    match one {
        Body::Module(number) => match other {
            Body::Module(same) => number == same,
            Body::Cell(_) => false,
            Body::Model(_) => false,
        },
        Body::Cell(number) => match other {
            Body::Module(_) => false,
            Body::Cell(same) => number == same,
            Body::Model(_) => false,
        },
        Body::Model(number) => match other {
            Body::Module(_) => false,
            Body::Cell(_) => false,
            Body::Model(same) => number == same,
        },
    }
}

/// The kind of this number, where it is that of the body.
fn known(rows: &Rows, kinds: &Kinds, body: Body) -> Option<u32>
    ensures { IfSome result (λ number. IsKindOf rows.now body number) }
{
    let number = kinds.number(body)?;
    let kind = rows.kinds.get(number)?;
    if is_same(kind.body, body) {
        Some(number)
    } else {
        None
    }
}

/// Adds a kind of a body with its places.
fn add_kind(modules: &Modules, plans: &Plans, rows: &mut Rows, body: Body) -> Result<u32, Memory>
    requires { AreRows rows.old }
    ensures rows { AreRows rows.new }
    ensures kind { IfOk result (λ number. HasKindOf modules.now plans.now rows.old rows.new body number) }
{
    let first = rows.places.len();
    add_nets(modules, plans, rows, body)?;
    let end = rows.places.len();
    if end < first {
        return Err(Memory);
    }
    let number = rows.add_kind(body, first, end - first)?;
    Ok(number)
}

/// The kind of a body, which is added where there is none yet.
fn kind_of(
    modules: &Modules,
    plans: &Plans,
    kinds: &mut Kinds,
    rows: &mut Rows,
    body: Body,
) -> Result<u32, Memory>
    requires { AreRows rows.old }
    ensures rows { AreRows rows.new }
    ensures kind { IfOk result (λ number. HasKindOf modules.now plans.now rows.old rows.new body number) }
{
    match known(rows, kinds, body) {
        Some(number) => return Ok(number),
        None => {}
    }
    let number = add_kind(modules, plans, rows, body)?;
    kinds.keep(body, number);
    Ok(number)
}

/// Adds an instance behind the others.
fn add_row(
    modules: &Modules,
    plans: &Plans,
    kinds: &mut Kinds,
    rows: &mut Rows,
    row: InstanceRow,
) -> Result<(), Memory>
    requires { AreRows rows.old }
    ensures rows { AreRows rows.new }
    ensures added { IfOk result (λ _. HasInstance modules.now plans.now rows.old rows.new row) }
{
    let kind = kind_of(modules, plans, kinds, rows, row.body)?;
    if row.name >= rows.names.len() || !is_inside(rows, row.parent) {
        return Err(Memory);
    }
    rows.add_instance(row.parent, row.name, kind)?;
    Ok(())
}

/// Whether the next instance can be inside one: that is there, or the next one is the first.
fn is_inside(rows: &Rows, parent: u32) -> bool
    ensures { IsTrue result → 0 < length rows.now.insts → parent < length rows.now.insts }
{
    rows.insts.len() == 0 || parent < rows.insts.len()
}

/// The instance of a number.
fn row_at(instances: &Instances, at: u32) -> Option<InstanceRow>
    ensures { result ≡ slice_get instances.now.rows at }
{
    instances.rows.get(at).copied()
}

/// Adds all instances, and what they are instances of.
pub(crate) fn add_instances(
    alloc: Global,
    modules: &Modules,
    plans: &Plans,
    instances: &Instances,
    rows: &mut Rows,
) -> Result<(), Memory>
    requires { AreRows rows.old }
    ensures rows { AreRows rows.new }
    ensures parts { IfOk result (λ _. HaveSameParts rows.old rows.new) }
    ensures framed { IfOk result (λ _. AreFramed modules.now plans.now [] rows.old → AreFramed modules.now plans.now instances.now.rows rows.new) }
{
    let mut kinds = Kinds::new(alloc, rows)?;
    for at in 0..instances.rows.len() {
        let row = row_at(instances, at).ok_or(Memory)?;
        add_row(modules, plans, &mut kinds, rows, row)?;
    }
    Ok(())
}
