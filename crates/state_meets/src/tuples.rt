//! Tuples of numbers of one level, which say what is left to be found behind a front.

ghost use Rattle.std.specs.Prelude.{◌≡◌, ◌≤◌, ◌<◌, ◌+◌, ◌++◌, [], ◌∷◌, ℕ, List, Bool, IsTrue, IfOk, IfSome, OnOk, Contains, length, map, slice_index};
ghost use Rattle.diagram_defs.specs.Diagrams.{IsPool, IsSet, IsNumberFor, kid};
ghost use Rattle.diagram_defs.specs.Quantified.{deciding, quantified_none};
ghost use Rattle.state_meets.specs.Walks.{AreSets, Stands, constant_set};
ghost use Rattle.state_meets.specs.Gathered.{IsPlan, IsFullNumber};
ghost use Rattle.state_meets.specs.Behind.{IsTupleBehind};

use crate::plans::{Plan, begun_at};
use diagram_defs::Quantifier;
use smallvec::SmallVec;
use state_diagrams::Pool;
use std::alloc::AllocError;

/// Numbers of a level.
#[derive(Debug, Drop, PartialEq, Eq, Hash)]
pub struct Tuple {
    pub level: u32,
    pub numbers: SmallVec<u32, 16>,
}

/// A level of a walk, with the number of all its rests, 0 where it isn't known.
#[derive(Clone, Copy)]
pub struct Stage {
    pub level: u32,
    pub full: u32,
}

/// The tuple of what is left behind a value of a tuple's level: the children there, and what begins at the next level.
/// It is in order and without repeats, numbers that say nothing are left out, and one that decides stands alone.
pub fn tuple_behind(pool: &Pool, plan: &Plan, tuple: &Tuple, v: u32) -> Result<Tuple, AllocError>
    requires level_in { tuple.now.level < length pool.now.arities }
    requires sets { AreSets pool.now tuple.now.level tuple.now.numbers.items }
    requires plan { IsPlan pool.now plan.now }
    ensures { IfOk result (IsTupleBehind pool.now plan.now tuple.now v) }
{
    let _alloc = pool.allocator();
    let level = tuple.level + 1;
    let full = full_number(pool, level);
    let begun = begun_at(plan, level);
    let numbers = numbers_kept(
        pool,
        plan,
        Stage { level, full },
        tuple.numbers.as_slice(),
        v,
        begun,
    )?;
    Ok(Tuple {
        level,
        numbers: in_order(numbers),
    })
}

/// The children at a value and the numbers that begin, but for those that say nothing; one that decides stands alone.
fn numbers_kept(
    pool: &Pool,
    plan: &Plan,
    stage: Stage,
    numbers: &[u32],
    v: u32,
    begun: &[u32],
) -> Result<SmallVec<u32, 16>, AllocError>
    requires full { IsFullNumber pool.now stage.level stage.full }
    requires sets { AreSets pool.now stage.level (map (λ n. kid pool.now.nodes n v) numbers.now ++ begun.now) }
    ensures { IfOk result (λ kept. Stands pool.now plan.now.which stage.level (map (λ n. kid pool.now.nodes n v) numbers.now ++ begun.now) kept.items) }
{
    let mut kept = SmallVec::new(pool.allocator());
    let all = numbers.len() + begun.len();
    for at in 0..all {
        let n = number_behind(pool, numbers, v, begun, at);
        if is_constant(pool, stage, n, decides(plan.which)) {
            return only(pool, n);
        }
        keep(pool, plan, stage, &mut kept, n)?;
    }
    Ok(kept)
}

/// One of the children at a value, or of the numbers that begin.
fn number_behind(pool: &Pool, numbers: &[u32], v: u32, begun: &[u32], at: usize) -> u32
    requires { at < length numbers.now + length begun.now }
    ensures { result ≡ slice_index (map (λ n. kid pool.now.nodes n v) numbers.now ++ begun.now) at }
{
    let count = numbers.len();
    if at < count {
        return pool.child(numbers[at], v);
    }
    begun[at - count]
}

/// A number alone.
fn only(pool: &Pool, n: u32) -> Result<SmallVec<u32, 16>, AllocError>
    ensures { IfOk result (λ kept. kept.items ≡ n ∷ []) }
{
    let mut kept = SmallVec::new(pool.allocator());
    kept.push(n)?;
    Ok(kept)
}

/// Keeps a number, unless it says nothing.
fn keep(
    pool: &Pool,
    plan: &Plan,
    stage: Stage,
    kept: &mut SmallVec<u32, 16>,
    n: u32,
) -> Result<(), AllocError>
    requires full { IsFullNumber pool.now stage.level stage.full }
    requires number { IsSet pool.now stage.level n }
    ensures { OnOk result ((numbers : List ℕ) → Stands pool.now plan.now.which stage.level numbers kept.old.items →
        Stands pool.now plan.now.which stage.level (numbers ++ n ∷ []) kept.new.items) }
{
    if is_constant(pool, stage, n, !decides(plan.which)) {
        return Ok(());
    }
    kept.push(n)?;
    Ok(())
}

/// The same numbers, in order and without repeats.
fn in_order(numbers: SmallVec<u32, 16>) -> SmallVec<u32, 16>
    ensures there { (n : ℕ) → Contains numbers.items n → Contains result.items n }
    ensures back { (n : ℕ) → Contains result.items n → Contains numbers.items n }
{
    let mut numbers = numbers;
    numbers.as_mut_slice().sort_unstable();
    numbers.dedup();
    numbers
}

/// The number of all rests of a level, 0 where it isn't known.
pub fn full_number(pool: &Pool, level: u32) -> u32
    ensures { IsFullNumber pool.now level result }
{
    match pool.full_there(level) {
        Some(n) => n,
        None => 0,
    }
}

/// Whether a number is known to mean all rests of its level, where `holds`, or else none.
pub fn is_constant(pool: &Pool, stage: Stage, n: u32, holds: bool) -> bool
    requires { IsFullNumber pool.now stage.level stage.full }
    ensures { IsTrue result → IsNumberFor pool.now stage.level (constant_set pool.now stage.level holds) n }
{
    if holds {
        n != 0 && n == stage.full
    } else {
        n == 0
    }
}

/// The number of all rests of a level, where `holds`, or else of none; no number where it isn't known.
pub fn constant_number(pool: &Pool, stage: Stage, holds: bool) -> Option<u32>
    requires { IsFullNumber pool.now stage.level stage.full }
    ensures { IfSome result (IsNumberFor pool.now stage.level (constant_set pool.now stage.level holds)) }
{
    let n = if holds { stage.full } else { 0 };
    if is_constant(pool, stage, n, holds) {
        return Some(n);
    }
    None
}

/// The answer of one set that settles whether a state is in all sets, or in any.
pub fn decides(which: Quantifier) -> bool
    ensures { result ≡ deciding which }
{
    match which {
        Quantifier::All => false,
        Quantifier::Any => true,
    }
}
