//! Marks of modules, and the modules below which there is no recursion.
ghost use Rattle.std.specs.Prelude.{◌≡◌, ◌↔◌, ℕ, Some, true, IfOk, IsTrue, set};
ghost use Rattle.pw_defs.specs.declared.design.Body.TheVariants.{Module as ModuleBody};
ghost use Rattle.list_defs.specs.Members.{IsIn};
ghost use Rattle.net_hierarchy.specs.Graph.{Types};
ghost use Rattle.net_least.specs.Recursion.{AreFree, IsMarked};

use net_hierarchy::{Frame, Item, item_at};
use pw_defs::{Body, List, Memory};
use std::alloc::Global;

/// Whether a module is marked.
pub(crate) fn is_marked(marks: &[bool], number: u32) -> bool
    ensures { IsTrue result ↔ IsMarked marks.now number }
{
    match marks.get(number as usize) {
        Some(mark) => *mark,
        None => false,
    }
}

/// Marks a module, where there is a place for its mark.
pub(crate) fn set_mark(marks: &mut Vec<bool>, number: u32)
    ensures { marks.new.items ≡ set marks.old.items number true }
{
    if (number as usize) < marks.len() {
        marks[number as usize] = true;
    }
}

/// Whether what stands in a row, if it is a module, is marked.
fn is_free(free: &[bool], item: Option<Body>) -> bool
    ensures { IsTrue result → (k : ℕ) → item ≡ Some (ModuleBody k) → IsMarked free.now k }
{
    match item {
        Some(body) => match body {
            Body::Module(number) => is_marked(free, number),
            Body::Cell(_) | Body::Model(_) => true,
        },
        None => true,
    }
}

/// Whether all modules of a row are marked.
fn are_free(free: &[bool], row: &[Option<Body>]) -> bool
    ensures { IsTrue result → (k : ℕ) → IsIn (Some (ModuleBody k)) row.now → IsMarked free.now k }
{
    for item in row {
        if !is_free(free, *item) {
            return false;
        }
    }
    true
}

/// Marks a module as free, where all that it holds are.
fn leave(types: &List<List<Option<Body>>>, free: &mut Vec<bool>, number: u32)
    ensures { AreFree types.now free.old.items → AreFree types.now free.new.items }
{
    match types.get(number) {
        Some(row) => {
            if are_free(free.as_slice(), row.as_slice()) {
                set_mark(free, number);
            }
        }
        None => {}
    }
}

/// A search through the modules: those that were seen, those that are known to be free, and those that the search is
/// inside.
#[derive(Drop)]
struct Search {
    seen: Vec<bool>,
    free: Vec<bool>,
    stack: Vec<Frame>,
}

/// The step from the module that the search is inside.
fn step_from(
    types: &List<List<Option<Body>>>,
    search: &mut Search,
    frame: Frame,
) -> Result<(), Memory>
    ensures { IfOk result (λ _. AreFree types.now search.old.free.items → AreFree types.now search.new.free.items) }
{
    let next = Frame {
        number: frame.number,
        next: frame.next.saturating_add(1),
    };
    match item_at(types, frame) {
        Item::End => leave(types, &mut search.free, frame.number),
        Item::Leaf => search.stack.push(next)?,
        Item::Module(number) => {
            search.stack.push(next)?;
            if !is_marked(search.seen.as_slice(), number) {
                set_mark(&mut search.seen, number);
                search.stack.push(Frame { number, next: 0 })?;
            }
        }
    }
    Ok(())
}

/// One step of the search, and whether there was one.
fn next_step(types: &List<List<Option<Body>>>, search: &mut Search) -> Result<bool, Memory>
    ensures { IfOk result (λ _. AreFree types.now search.old.free.items → AreFree types.now search.new.free.items) }
{
    match search.stack.pop() {
        Some(frame) => {
            step_from(types, search, frame)?;
            Ok(true)
        }
        None => Ok(false),
    }
}

/// The search at its start, inside the top alone.
fn start(alloc: Global, count: usize, top: u32) -> Result<Search, Memory>
    ensures { IfOk result (λ search. (types : Types) → AreFree types search.free.items) }
{
    let free = vec![in alloc; false; count]?;
    let mut seen = vec![in alloc; false; count]?;
    set_mark(&mut seen, top);
    let mut stack = Vec::new(alloc);
    stack.push(Frame {
        number: top,
        next: 0,
    })?;
    Ok(Search { seen, free, stack })
}

/// Marks modules below the top that are free: each holds free modules alone, so that there is no recursion below it.
///
/// A search through the modules, each once, deepest first.
pub(crate) fn free_marks(
    alloc: Global,
    types: &List<List<Option<Body>>>,
    top: u32,
) -> Result<Vec<bool>, Memory>
    ensures { IfOk result (λ free. AreFree types.now free.items) }
{
    let mut search = start(alloc, types.len() as usize, top)?;
    for _ in 0..u64::MAX {
        if !next_step(types, &mut search)? {
            let Search { free, .. } = search;
            return Ok(free);
        }
    }
    Err(Memory)
}
