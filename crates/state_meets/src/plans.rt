//! What a walk over several sets knows before it begins.

ghost use Rattle.std.specs.Prelude.{◌≡◌, ◌≤◌, ◌<◌, ◌+◌, ◌++◌, [], ◌∷◌, ℕ, List, IsTrue, IfOk, OnOk, map, set, replicate, length, slice_index_or};
ghost use Rattle.diagram_defs.specs.Diagrams.{IsPool, IsSet};
ghost use Rattle.diagram_defs.specs.Locals.{AreLocals};
ghost use Rattle.state_meets.specs.Gathered.{begun_of, padded};
ghost use Rattle.state_meets.specs.Walks.{IsOver};
ghost use Rattle.state_meets.specs.Planned.{IsPlanFor, IsSpread, AreWithin};

use diagram_defs::{Local, Quantifier};
use state_diagrams::Pool;
use std::alloc::{AllocError, Global};

/// Whether a walk looks for what is in all sets or in any, the numbers that begin at each of some levels in a row, how
/// many levels are before and behind those, where nothing begins, and how many tuples the walk may remember.
#[derive(Drop)]
pub struct Plan {
    pub which: Quantifier,
    pub before: u32,
    pub begun: Vec<Vec<u32>>,
    pub behind: u32,
    pub budget: u32,
}

/// Some levels in a row: how many there are before, in it and behind. The end counts as a level.
#[derive(Clone, Copy)]
struct Row {
    before: u32,
    count: u32,
    behind: u32,
}

/// The plan of a walk over some sets.
pub fn plan_of(
    pool: &Pool,
    which: Quantifier,
    sets: &[Local],
    budget: u32,
) -> Result<Plan, AllocError>
    requires { AreLocals pool.now sets.now }
    ensures { IfOk result (λ plan. IsPlanFor pool.now which sets.now plan) }
{
    let row = row_of(pool, sets);
    let begun = spread(pool, sets, row)?;
    Ok(Plan {
        which,
        before: row.before,
        begun,
        behind: row.behind,
        budget,
    })
}

/// The numbers of the sets that begin at a level.
pub fn begun_at(plan: &Plan, level: u32) -> &[u32]
    ensures { result.now ≡ slice_index_or (begun_of plan.now) level [] }
{
    if level < plan.before {
        return &[];
    }
    let at = (level - plan.before) as usize;
    if at >= plan.begun.len() {
        return &[];
    }
    plan.begun[at].as_slice()
}

/// Whether nothing begins at a level or behind it.
pub fn is_over(plan: &Plan, level: u32) -> bool
    ensures { IsTrue result → IsOver (begun_of plan.now) level }
{
    if level < plan.before {
        return false;
    }
    let at = (level - plan.before) as usize;
    if at < plan.begun.len() {
        return false;
    }
    true
}

/// The levels from the first one at which a set begins to the last one; the end alone where no set is given.
fn row_of(pool: &Pool, sets: &[Local]) -> Row
    requires { AreLocals pool.now sets.now }
    ensures size { result.before + result.count + result.behind ≡ length pool.now.arities + 1 }
    ensures low { result.before ≤ length pool.now.arities }
    ensures within { AreWithin result.before (result.before + result.count) sets.now }
{
    let _alloc = pool.allocator();
    let levels = pool.level(1);
    let mut first = levels;
    let mut last = 0;
    for local in sets {
        first = first.min(local.level);
        last = greater(last, local.level);
    }
    let past = greater(last, first) + 1;
    Row {
        before: first,
        count: past - first,
        behind: levels + 1 - past,
    }
}

/// The greater of two levels.
fn greater(a: u32, b: u32) -> u32
    ensures first { a ≤ result }
    ensures second { b ≤ result }
    ensures least { (n : ℕ) → a ≤ n → b ≤ n → result ≤ n }
{
    if a < b { b } else { a }
}

/// The numbers of the sets, by the levels of the row at which they begin.
fn spread(pool: &Pool, sets: &[Local], row: Row) -> Result<Vec<Vec<u32>>, AllocError>
    requires locals { AreLocals pool.now sets.now }
    requires size { row.before + row.count + row.behind ≡ length pool.now.arities + 1 }
    requires within { AreWithin row.before (row.before + row.count) sets.now }
    ensures { IfOk result (λ begun. IsSpread pool.now sets.now (padded row.before (map (λ numbers. numbers.items) begun.items) row.behind)) }
{
    let mut begun = empty_lists(pool.allocator(), row.count as usize)?;
    for local in sets {
        put_in(begun.as_mut_slice(), local.level - row.before, local.number)?;
    }
    Ok(begun)
}

/// So many empty lists.
fn empty_lists(alloc: Global, count: usize) -> Result<Vec<Vec<u32>>, AllocError>
    ensures { IfOk result (λ lists. map (λ numbers. numbers.items) lists.items ≡ replicate count []) }
{
    let mut lists = Vec::new(alloc);
    for _ in 0..count {
        lists.push(Vec::new(alloc))?;
    }
    Ok(lists)
}

/// Adds a number to the list of its level.
fn put_in(begun: &mut [Vec<u32>], level: u32, n: u32) -> Result<(), AllocError>
    requires { level < length begun.old }
    ensures size { length begun.new ≡ length begun.old }
    ensures put { OnOk result (map (λ numbers. numbers.items) begun.new ≡
        set (map (λ numbers. numbers.items) begun.old) level (slice_index_or (map (λ numbers. numbers.items) begun.old) level [] ++ n ∷ [])) }
{
    begun[level as usize].push(n)?;
    Ok(())
}
