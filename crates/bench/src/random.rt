//! Two sets that look random, and their intersection.

ghost use Rattle.std.specs.Prelude.{◌≡◌, ◌<◌, ◌≤◌, ◌+◌, ◌-◌, IfOk, length, slice_index};
ghost use Rattle.diagram_defs.specs.Diagrams.{AreArities, AreKids, IsPool, IsSet, Grows};
ghost use Rattle.bench.specs.Rows.{ArePicked};

use crate::MAX_NODES;
use pw_defs::DiagFault;
use state_diagrams::Pool;
use std::alloc::{AllocError, Global};

/// The most levels that are tried.
const MOST_LEVELS: u32 = 40;

/// Numbers that look random, the same in each run.
#[derive(Drop)]
struct Numbers {
    seed: u64,
}

impl Numbers {
    /// The next number below a limit.
    fn below(&mut self, limit: usize) -> usize
        requires { 0 < limit }
        ensures { result < limit }
    {
        self.seed = self
            .seed
            .wrapping_mul(6_364_136_223_846_793_005)
            .wrapping_add(1_442_695_040_888_963_407);
        (self.seed >> 33) as usize % limit
    }
}

/// How many nodes a table has with two sets of about `size` nodes each, and then with their intersection.
pub fn random_nodes(alloc: Global, size: u32) -> Result<(u32, u32), DiagFault> {
    let levels = levels_for(size);
    let arities = arities_of(alloc, levels)?;
    let mut pool = Pool::new(alloc, arities.as_slice(), MAX_NODES)?;
    let mut numbers = Numbers { seed: 1 };
    let a = random_set(alloc, &mut pool, &mut numbers, levels)?;
    let b = random_set(alloc, &mut pool, &mut numbers, levels)?;
    let before = pool.nodes();
    pool.and(a, b)?;
    Ok((before, pool.nodes()))
}

/// The fewest levels at which a set has `size` nodes.
fn levels_for(size: u32) -> u32
    ensures { result ≤ MOST_LEVELS }
{
    for levels in 1..MOST_LEVELS {
        let mut sum: u32 = 0;
        for level in 0..levels {
            sum = sum.saturating_add(width(level, levels));
        }
        if sum >= size {
            return levels;
        }
    }
    MOST_LEVELS
}

/// How many nodes a level has: no more than there are ways to it, and sixteen times as many for each level behind it.
fn width(level: u32, levels: u32) -> u32 {
    let mut ways: u32 = 1;
    for before in 0..level {
        ways = ways.saturating_mul(arity_at(before));
    }
    let mut rests: u32 = 1;
    for _ in level..levels {
        rests = rests.saturating_mul(16);
    }
    ways.min(rests)
}

/// How many values a level has: two, three or four.
fn arity_at(level: u32) -> u32
    ensures low { 1 ≤ result }
    ensures high { result ≤ 64 }
{
    2 + level % 3
}

fn arities_of(alloc: Global, levels: u32) -> Result<Vec<u32>, AllocError>
    requires { levels ≤ MOST_LEVELS }
    ensures arities { IfOk result (λ arities. AreArities arities.items) }
    ensures count { IfOk result (λ arities. length arities.items ≡ levels) }
{
    let mut arities = Vec::new(alloc);
    for level in 0..levels {
        arities.push(arity_at(level))?;
    }
    Ok(arities)
}

/// A set of whole states, made level by level from the last one.
fn random_set(
    alloc: Global,
    pool: &mut Pool,
    numbers: &mut Numbers,
    levels: u32,
) -> Result<u32, DiagFault>
    requires { levels ≡ length pool.old.arities }
    ensures number { IfOk result (IsSet pool.new 0) }
    ensures grows { IfOk result (λ _. Grows pool.old pool.new) }
{
    let _count = pool.nodes();
    // Behind the last level there is the empty rest, or nothing.
    let mut row = Vec::new(alloc);
    row.push(1)?;
    row.push(0)?;
    let mut level = levels;
    while level > 0 {
        level -= 1;
        let width = width(level, levels);
        row = random_row(alloc, pool, numbers, level, row.as_slice(), width)?;
    }
    Ok(number_at(row.as_slice(), 0))
}

/// Numbers of a level whose children are picked from those of the next level.
fn random_row(
    alloc: Global,
    pool: &mut Pool,
    numbers: &mut Numbers,
    level: u32,
    below: &[u32],
    width: u32,
) -> Result<Vec<u32>, DiagFault>
    requires level_in { level < length pool.old.arities }
    requires below { AreKids pool.old.arities pool.old.nodes (length pool.old.nodes) (level + 1) below.now }
    ensures row { IfOk result (λ row. AreKids pool.new.arities pool.new.nodes (length pool.new.nodes) level row.items) }
    ensures grows { IfOk result (λ _. Grows pool.old pool.new) }
{
    let _count = pool.nodes();
    let mut row = Vec::new(alloc);
    for _ in 0..width {
        let arity = pool.arity(level);
        let kids = picked(alloc, numbers, arity, below)?;
        let n = pool.case(level, kids.as_slice())?;
        row.push(n)?;
    }
    Ok(row)
}

/// So many numbers, each of them 0 or one of the given ones.
fn picked(
    alloc: Global,
    numbers: &mut Numbers,
    count: u32,
    given: &[u32],
) -> Result<Vec<u32>, AllocError>
    ensures count { IfOk result (λ kids. length kids.items ≡ count) }
    ensures each { IfOk result (λ kids. ArePicked given.now kids.items) }
{
    let mut kids = Vec::new(alloc);
    for _ in 0..count {
        let at = numbers.below(given.len().max(1));
        kids.push(number_at(given, at))?;
    }
    Ok(kids)
}

/// The number at a place, or 0 past the last one.
fn number_at(given: &[u32], at: usize) -> u32
    ensures { result ≡ slice_index given.now at }
{
    if at < given.len() { given[at] } else { 0 }
}
