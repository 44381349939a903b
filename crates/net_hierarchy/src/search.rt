//! A search through the graph of modules, depth first, with a stack in place of recursion.
ghost use Rattle.std.specs.Prelude.{◌≡◌, ◌≤◌, ◌+◌, ℕ, [], ◌∷◌, ◌++◌, IfOk, MatchOption, replicate, set};
ghost use Rattle.net_hierarchy.specs.Graph.{HasCycle, IsOrder, Types};
ghost use Rattle.net_hierarchy.specs.Search.{IsSearch, IsStepped, item_at, mark_at};
ghost use Rattle.net_hierarchy.specs.declared.search.Mark.TheVariants.{New, Open, Done};
ghost use Rattle.net_hierarchy.specs.declared.search.Item.TheVariants.{Module as ModuleItem};

use pw_defs::{Body, List, Memory};
use std::alloc::Global;

/// How far a module has been looked at.
#[derive(Clone, Copy)]
pub(crate) enum Mark {
    New,
    Open,
    Done,
}

/// A module that the search is inside, and the place of the instance that comes next.
#[derive(Clone, Copy)]
pub struct Frame {
    pub number: u32,
    pub next: u32,
}

/// What stands at the place of an instance.
#[derive(Clone, Copy)]
pub enum Item {
    End,
    Leaf,
    Module(u32),
}

/// What a step came to.
#[derive(Clone, Copy)]
pub(crate) enum Step {
    Goes,
    Ends,
    Returns,
}

/// The state of the search.
#[derive(Drop)]
pub(crate) struct Search {
    marks: Vec<Mark>,
    order: Vec<u32>,
    stack: Vec<Frame>,
}

/// What stands at the next place of a module.
pub fn item_at(types: &List<List<Option<Body>>>, frame: Frame) -> Item
    ensures { result ≡ item_at types.now frame }
{
    match types.get(frame.number) {
        Some(row) => match row.get(frame.next) {
            Some(item) => match *item {
                Some(body) => match body {
                    Body::Module(number) => Item::Module(number),
                    Body::Cell(_) | Body::Model(_) => Item::Leaf,
                },
                None => Item::Leaf,
            },
            None => Item::End,
        },
        None => Item::End,
    }
}

/// How far a module has been looked at.
fn mark_at(marks: &[Mark], number: u32) -> Mark
    ensures { result ≡ mark_at marks.now number }
{
    match marks.get(number as usize) {
        Some(mark) => *mark,
        None => Mark::New,
    }
}

/// Marks a module, where there is a place for its mark.
fn set_mark(marks: &mut Vec<Mark>, number: u32, mark: Mark)
    ensures { marks.new.items ≡ set marks.old.items number mark }
{
    if (number as usize) < marks.len() {
        marks[number as usize] = mark;
    }
}

/// The module is done: it comes behind those that it holds.
fn leave(search: &mut Search, frame: Frame) -> Result<(), Memory>
    ensures order { IfOk result (λ _. search.new.order.items ≡ search.old.order.items ++ frame.number ∷ []) }
    ensures marks { IfOk result (λ _. search.new.marks.items ≡ set search.old.marks.items frame.number Done) }
    ensures stack { IfOk result (λ _. search.new.stack.items ≡ search.old.stack.items) }
{
    search.order.push(frame.number)?;
    set_mark(&mut search.marks, frame.number, Mark::Done);
    Ok(())
}

/// Goes on to the next instance of the module.
fn skip(search: &mut Search, frame: Frame) -> Result<(), Memory>
    ensures order { search.new.order.items ≡ search.old.order.items }
    ensures marks { search.new.marks.items ≡ search.old.marks.items }
    ensures stack { IfOk result (λ _. (next : ℕ) × (next ≤ frame.next + 1) × (search.new.stack.items ≡ search.old.stack.items ++ record { number = frame.number; next = next } ∷ [])) }
{
    search.stack.push(Frame {
        number: frame.number,
        next: frame.next.saturating_add(1),
    })?;
    Ok(())
}

/// Goes into a module that wasn't looked at yet.
fn enter(search: &mut Search, frame: Frame, number: u32) -> Result<(), Memory>
    ensures order { search.new.order.items ≡ search.old.order.items }
    ensures marks { IfOk result (λ _. search.new.marks.items ≡ set search.old.marks.items number Open) }
    ensures stack { IfOk result (λ _. search.new.stack.items ≡ (search.old.stack.items ++ frame ∷ []) ++ record { number = number; next = 0 } ∷ []) }
{
    set_mark(&mut search.marks, number, Mark::Open);
    search.stack.push(frame)?;
    search.stack.push(Frame { number, next: 0 })?;
    Ok(())
}

/// The step at an instance of a module.
fn visit(search: &mut Search, frame: Frame, number: u32) -> Result<Step, Memory>
    ensures { IfOk result (λ step. (types : Types) → (top : ℕ) → item_at types frame ≡ ModuleItem number
        → IsSearch types top search.old.marks.items search.old.order.items (search.old.stack.items ++ frame ∷ [])
        → IsStepped types top search.new.marks.items search.new.order.items search.new.stack.items step) }
{
    match mark_at(search.marks.as_slice(), number) {
        Mark::Done => {
            skip(search, frame)?;
            Ok(Step::Goes)
        }
        Mark::Open => Ok(Step::Returns),
        Mark::New => {
            enter(search, frame, number)?;
            Ok(Step::Goes)
        }
    }
}

/// The step from the module that the search is inside.
fn step_from(
    types: &List<List<Option<Body>>>,
    search: &mut Search,
    frame: Frame,
) -> Result<Step, Memory>
    ensures { IfOk result (λ step. (top : ℕ) → IsSearch types.now top search.old.marks.items search.old.order.items (search.old.stack.items ++ frame ∷ [])
        → IsStepped types.now top search.new.marks.items search.new.order.items search.new.stack.items step) }
{
    match item_at(types, frame) {
        Item::End => {
            leave(search, frame)?;
            Ok(Step::Goes)
        }
        Item::Leaf => {
            skip(search, frame)?;
            Ok(Step::Goes)
        }
        Item::Module(number) => {
            let step = visit(search, frame, number)?;
            Ok(step)
        }
    }
}

/// One step of the search.
fn next_step(types: &List<List<Option<Body>>>, search: &mut Search) -> Result<Step, Memory>
    ensures { IfOk result (λ step. (top : ℕ) → IsSearch types.now top search.old.marks.items search.old.order.items search.old.stack.items
        → IsStepped types.now top search.new.marks.items search.new.order.items search.new.stack.items step) }
{
    match search.stack.pop() {
        Some(frame) => {
            let step = step_from(types, search, frame)?;
            Ok(step)
        }
        None => Ok(Step::Ends),
    }
}

/// The marks at the start, where the top alone is open.
fn first_marks(alloc: Global, count: u32, top: u32) -> Result<Vec<Mark>, Memory>
    ensures { IfOk result (λ marks. marks.items ≡ set (replicate count New) top Open) }
{
    let mut marks = vec![in alloc; Mark::New; count as usize]?;
    set_mark(&mut marks, top, Mark::Open);
    Ok(marks)
}

/// The search at its start, inside the top alone.
fn start(alloc: Global, types: &List<List<Option<Body>>>, top: u32) -> Result<Search, Memory>
    ensures { IfOk result (λ s. IsSearch types.now top s.marks.items s.order.items s.stack.items) }
{
    let marks = first_marks(alloc, types.len(), top)?;
    let mut stack = Vec::new(alloc);
    stack.push(Frame {
        number: top,
        next: 0,
    })?;
    Ok(Search {
        marks,
        order: Vec::new(alloc),
        stack,
    })
}

/// The modules below the top, each behind those that it holds. It is `None` where a module comes back to itself.
pub(crate) fn order_of(
    alloc: Global,
    types: &List<List<Option<Body>>>,
    top: u32,
) -> Result<Option<Vec<u32>>, Memory>
    ensures { IfOk result (λ found. MatchOption found (HasCycle types.now top) (λ order. IsOrder types.now top order.items)) }
{
    let mut search = start(alloc, types, top)?;
    for _ in 0..u64::MAX {
        match next_step(types, &mut search)? {
            Step::Goes => {}
            Step::Ends => {
                let Search { order, .. } = search;
                return Ok(Some(order));
            }
            Step::Returns => return Ok(None),
        }
    }
    Err(Memory)
}
