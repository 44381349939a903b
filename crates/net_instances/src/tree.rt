//! All instances below a top, level by level: each has its number, and those inside one have numbers one behind another.
ghost use Rattle.std.specs.Prelude.{◌≡◌, ◌<◌, length, IfOk};
ghost use Rattle.module_rows.specs.Reads.{module_at};
ghost use Rattle.module_rows.specs.View.{name_at};
ghost use Rattle.net_instances.specs.Trees.{HasChild, HasChildren, HasInside, IsTree, name_in, parent_in, type_at};

use module_rows::Modules;
use pw_defs::{Body, List, Memory};
use std::alloc::Global;

/// An instance: the number of the one that it is inside, the number of its line there, the symbol of its name, and what it
/// is an instance of. All but the last are 0 for the top.
#[derive(Clone, Copy)]
pub(crate) struct TreeRow {
    pub(crate) parent: u32,
    pub(crate) inst: u32,
    pub(crate) name: u32,
    pub(crate) body: Body,
}

/// All instances, and for each the number of the first one inside it.
#[derive(Drop)]
pub(crate) struct Tree {
    pub(crate) rows: List<TreeRow>,
    pub(crate) firsts: List<u32>,
}

/// The number of the instance that one is inside; the top is inside none, and has its own.
pub(crate) fn parent_in(rows: &[TreeRow], n: u32) -> u32
    ensures is { result ≡ parent_in rows.now n }
    ensures lower { 0 < n → result < n }
{
    match rows.get(n as usize) {
        Some(row) => { if row.parent < n { row.parent } else { 0 } }
        None => 0,
    }
}

/// The name of an instance; past the end it is empty.
pub(crate) fn name_in<'a>(modules: &'a Modules, rows: &[TreeRow], n: u32) -> &'a [u8]
    ensures { result.now ≡ name_in modules.now.symbols rows.now n }
{
    match rows.get(n as usize) {
        Some(row) => spelling(modules, row.name),
        None => &[],
    }
}

/// The spelling of a symbol; past the end it is empty.
pub(crate) fn spelling(modules: &Modules, symbol: u32) -> &[u8]
    ensures { result.now ≡ name_at modules.now.symbols symbol }
{
    if symbol < modules.symbols() {
        modules.spelling(symbol)
    } else {
        &[]
    }
}

/// The type of an instance of a module.
pub(crate) fn type_at(types: &List<List<Option<Body>>>, holder: u32, inst: u32) -> Option<Body>
    ensures { result ≡ type_at types.now holder inst }
{
    *types.get(holder)?.get(inst)?
}

/// Adds the instance that a line of a module makes.
fn add_child(
    modules: &Modules,
    types: &List<List<Option<Body>>>,
    rows: &mut List<TreeRow>,
    parent: u32,
    holder: u32,
    inst: u32,
) -> Result<(), Memory>
    requires holder { holder < length modules.now.modules }
    requires inst { inst < length (module_at modules.now holder).insts }
    ensures { IfOk result (λ _. HasChild modules.now types.now holder parent inst rows.old rows.new) }
{
    let body = type_at(types, holder, inst).ok_or(Memory)?;
    let head = modules.inst(holder, inst);
    rows.push(TreeRow {
        parent,
        inst,
        name: head.name,
        body,
    })?;
    Ok(())
}

/// Adds the instances of a module. Who calls this knows that each line has a type; one without would be answered as want of
/// memory.
fn add_children(
    modules: &Modules,
    types: &List<List<Option<Body>>>,
    rows: &mut List<TreeRow>,
    parent: u32,
    holder: u32,
) -> Result<(), Memory>
    requires { holder < length modules.now.modules }
    ensures { IfOk result (λ _. HasChildren modules.now types.now holder parent (length (module_at modules.now holder).insts) rows.old rows.new) }
{
    let head = modules.module(holder);
    for inst in 0..head.insts {
        add_child(modules, types, rows, parent, holder, inst)?;
    }
    Ok(())
}

/// Adds what is inside an instance.
fn add_inside(
    modules: &Modules,
    types: &List<List<Option<Body>>>,
    rows: &mut List<TreeRow>,
    parent: u32,
    body: Body,
) -> Result<(), Memory>
    ensures { IfOk result (λ _. HasInside modules.now types.now parent body rows.old rows.new) }
{
    match body {
        Body::Module(holder) => {
            if holder < modules.len() {
                add_children(modules, types, rows, parent, holder)?;
            }
            Ok(())
        }
        Body::Cell(_) | Body::Model(_) => Ok(()),
    }
}

/// All instances below a top.
pub(crate) fn tree_of(
    alloc: Global,
    modules: &Modules,
    types: &List<List<Option<Body>>>,
    top: u32,
) -> Result<Tree, Memory>
    ensures { IfOk result (λ tree. IsTree modules.now types.now top tree.rows tree.firsts × (length tree.firsts ≡ length tree.rows)) }
{
    let mut rows = List::new(alloc);
    let mut firsts = List::new(alloc);
    rows.push(TreeRow {
        parent: 0,
        inst: 0,
        name: 0,
        body: Body::Module(top),
    })?;
    for at in 0..u32::MAX {
        let body = match rows.get(at) {
            Some(row) => row.body,
            None => return Ok(Tree { rows, firsts }),
        };
        firsts.push(rows.len())?;
        add_inside(modules, types, &mut rows, at, body)?;
    }
    Err(Memory)
}
