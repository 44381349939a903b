//! The walk: what several sets make together, tuple by tuple, each tuple once.

ghost use Rattle.std.specs.Prelude.{◌≡◌, ◌≤◌, ◌<◌, ◌+◌, ℕ, List, [], ◌∷◌, IfOk, IfSome, IfNone, length, nat_eq};
ghost use Rattle.std.specs.List.{list_all, list_any};
ghost use Rattle.diagram_defs.specs.Diagrams.{Diagram, IsPool, IsSet, IsNumberFor, AreKidsFor};
ghost use Rattle.diagram_defs.specs.Parts.{IsPartOf};
ghost use Rattle.diagram_defs.specs.Answers.{Yields};
ghost use Rattle.diagram_defs.specs.Quantified.{quantified};
ghost use Rattle.diagram_defs.specs.declared.quantifiers.Quantifier.{Quantifier as AnyQuantifier};
ghost use Rattle.state_meets.specs.Walks.{AreSets, walk_set};
ghost use Rattle.state_meets.specs.Gathered.{IsPlan, IsReason, begun_of};
ghost use Rattle.state_meets.specs.Memos.{IsMemo, IsRemembered};

use crate::faults::GatherFault;
use crate::plans::{Plan, is_over};
use crate::tuples::{
    Stage, Tuple, constant_number, decides, full_number, is_constant, tuple_behind,
};
use diagram_defs::Quantifier;
use smallvec::SmallVec;
use state_diagrams::Pool;
use std::alloc::AllocError;
use std::collections::HashMap;

/// The number of the rests of a tuple's level that are in the sets of its numbers, and whose ends are in the sets that
/// begin at later levels.
#[cycle(walk)]
pub fn walk(
    pool: &mut Pool,
    plan: &Plan,
    memo: &mut HashMap<Tuple, u32>,
    tuple: Tuple,
) -> Result<u32, GatherFault>
    requires level_in { tuple.level ≤ length pool.old.arities }
    requires sets { AreSets pool.old tuple.level tuple.numbers.items }
    requires plan { IsPlan pool.old plan.now }
    requires memo { IsMemo pool.old plan.now.which (begun_of plan.now) memo.old }
    ensures makes { let set = walk_set pool.old plan.now.which (begun_of plan.now) tuple.level tuple.numbers.items in
        let Allowed = IsPartOf (length pool.old.arities) tuple.level set in
        Yields Allowed pool.old pool.new (IsNumberFor pool.new tuple.level set) (IsReason pool.new Allowed) result }
    ensures memo { IsMemo pool.new plan.now.which (begun_of plan.now) memo.new }
{
    if let Some(n) = known(pool, plan, memo, &tuple) {
        return Ok(n);
    }
    if memo.len() >= plan.budget as usize {
        return Err(GatherFault::GivenUp);
    }
    let kids = walk_kids(pool, plan, memo, &tuple)?;
    let n = pool.case_of(tuple.level, kids)?;
    remember(memo, tuple, n)?;
    Ok(n)
}

/// The numbers of what stands behind each value of the tuple's level.
#[cycle(walk)]
fn walk_kids(
    pool: &mut Pool,
    plan: &Plan,
    memo: &mut HashMap<Tuple, u32>,
    tuple: &Tuple,
) -> Result<SmallVec<u32, 4>, GatherFault>
    requires level_in { tuple.now.level < length pool.old.arities }
    requires sets { AreSets pool.old tuple.now.level tuple.now.numbers.items }
    requires plan { IsPlan pool.old plan.now }
    requires memo { IsMemo pool.old plan.now.which (begun_of plan.now) memo.old }
    ensures makes { let set = walk_set pool.old plan.now.which (begun_of plan.now) tuple.now.level tuple.now.numbers.items in
        let Allowed = IsPartOf (length pool.old.arities) tuple.now.level set in
        Yields Allowed pool.old pool.new (λ kids. AreKidsFor pool.new tuple.now.level set kids.items) (IsReason pool.new Allowed) result }
    ensures memo { IsMemo pool.new plan.now.which (begun_of plan.now) memo.new }
{
    let arity = pool.arity(tuple.level);
    let mut kids = SmallVec::new(pool.allocator());
    for v in 0..arity {
        let next = tuple_behind(pool, plan, tuple, v)?;
        let n = walk(pool, plan, memo, next)?;
        kids.push(n)?;
    }
    Ok(kids)
}

/// What a walk finds from a tuple, where that is known: behind the last level, where one number decides, or where the
/// tuple was met before.
fn known(pool: &Pool, plan: &Plan, memo: &HashMap<Tuple, u32>, tuple: &Tuple) -> Option<u32>
    requires level_in { tuple.now.level ≤ length pool.now.arities }
    requires sets { AreSets pool.now tuple.now.level tuple.now.numbers.items }
    requires plan { IsPlan pool.now plan.now }
    requires memo { IsMemo pool.now plan.now.which (begun_of plan.now) memo.now }
    ensures number { IfSome result (IsNumberFor pool.now tuple.now.level (walk_set pool.now plan.now.which (begun_of plan.now) tuple.now.level tuple.now.numbers.items)) }
    ensures open { IfNone result (tuple.now.level < length pool.now.arities) }
    ensures pool { IsPool pool.now }
{
    let _alloc = pool.allocator();
    if tuple.level == pool.level(1) {
        if are_whole(plan.which, tuple.numbers.as_slice()) {
            return Some(1);
        }
        return Some(0);
    }
    if let Some(n) = decided(pool, plan, tuple) {
        return Some(n);
    }
    memo.get(tuple).copied()
}

/// The number of a tuple, where its numbers alone show it: one of them decides, or there is at most one and no set begins
/// later.
fn decided(pool: &Pool, plan: &Plan, tuple: &Tuple) -> Option<u32>
    requires level_in { tuple.now.level < length pool.now.arities }
    requires sets { AreSets pool.now tuple.now.level tuple.now.numbers.items }
    ensures { IfSome result (IsNumberFor pool.now tuple.now.level (walk_set pool.now plan.now.which (begun_of plan.now) tuple.now.level tuple.now.numbers.items)) }
{
    let numbers = tuple.numbers.as_slice();
    if numbers.len() > 1 {
        return None;
    }
    if numbers.is_empty() {
        return number_of_none(pool, plan, tuple.level);
    }
    number_of_one(pool, plan, tuple.level, numbers[0])
}

/// The number of no numbers, where no set begins later: all rests are in all of no sets, and none is in any of them.
fn number_of_none(pool: &Pool, plan: &Plan, level: u32) -> Option<u32>
    requires { level < length pool.now.arities }
    ensures { IfSome result (IsNumberFor pool.now level (walk_set pool.now plan.now.which (begun_of plan.now) level [])) }
{
    let _alloc = pool.allocator();
    if is_over(plan, level + 1) {
        let full = full_number(pool, level);
        let n = constant_number(pool, Stage { level, full }, !decides(plan.which))?;
        return Some(n);
    }
    None
}

/// The number of one number, where no set begins later, or where it decides.
fn number_of_one(pool: &Pool, plan: &Plan, level: u32, n: u32) -> Option<u32>
    requires level_in { level < length pool.now.arities }
    requires number { IsSet pool.now level n }
    ensures { IfSome result (IsNumberFor pool.now level (walk_set pool.now plan.now.which (begun_of plan.now) level (n ∷ []))) }
{
    let _alloc = pool.allocator();
    if is_over(plan, level + 1) {
        return Some(n);
    }
    let full = full_number(pool, level);
    if is_constant(pool, Stage { level, full }, n, decides(plan.which)) {
        return Some(n);
    }
    None
}

/// Whether all of the numbers are 1, or any.
fn are_whole(which: Quantifier, numbers: &[u32]) -> bool
    ensures { result ≡ quantified which (λ n. nat_eq n 1) numbers.now }
{
    match which {
        Quantifier::All => all_whole(numbers),
        Quantifier::Any => some_whole(numbers),
    }
}

fn all_whole(numbers: &[u32]) -> bool
    ensures { result ≡ list_all (λ n. nat_eq n 1) numbers.now }
{
    numbers.iter().all(|n| *n == 1)
}

fn some_whole(numbers: &[u32]) -> bool
    ensures { result ≡ list_any (λ n. nat_eq n 1) numbers.now }
{
    numbers.iter().any(|n| *n == 1)
}

/// Remembers what a walk found from a tuple.
fn remember(memo: &mut HashMap<Tuple, u32>, tuple: Tuple, n: u32) -> Result<(), AllocError>
    ensures { (d : Diagram) (which : AnyQuantifier) (begun : List (List ℕ)) → IsMemo d which begun memo.old →
        IsRemembered d which begun tuple.level tuple.numbers.items n → IsMemo d which begun memo.new }
{
    memo.insert(tuple, n)?;
    Ok(())
}
