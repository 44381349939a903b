//! Calls on a table of sets of states. Each meets the conditions of the call that it makes, or is unknown.
ghost use Rattle.std.specs.Prelude.{◌≡◌, ◌≤◌, IsTrue, length};
ghost use Rattle.diagram_defs.specs.Diagrams.{IsSet};

use crate::words::{answer_text, number_text, numbers_of, unknown};
use plain_lists::DiagFault;
use state_diagrams::Pool;
use std::alloc::{AllocError, Global};

/// An empty table with a bound, and levels of equally many values, which is `None` where a limit is passed.
pub fn table_of(alloc: Global, arguments: &[&str]) -> Result<Option<Pool>, AllocError> {
    let Some(numbers) = numbers_of(alloc, arguments)? else {
        return Ok(None);
    };
    match numbers.as_slice() {
        [bound, levels, arity] => even_table(alloc, *bound, *levels, *arity),
        _ => Ok(None),
    }
}

#[tactic(auto, using(crate::proofs::EvenTables::even_arities))]
fn even_table(
    alloc: Global,
    bound: u32,
    levels: u32,
    arity: u32,
) -> Result<Option<Pool>, AllocError> {
    if bound > 1_048_576 || levels > 1024 || arity < 1 || arity > 64 {
        return Ok(None);
    }
    let arities = Vec::from_elem(alloc, arity, levels as usize)?;
    match Pool::new(alloc, arities.as_slice(), bound) {
        Ok(pool) => Ok(Some(pool)),
        Err(_) => Err(AllocError),
    }
}

/// How many levels a table has.
#[tactic(auto, using(crate::proofs::EvenTables::whole_at_end))]
fn level_count(pool: &Pool) -> u32
    ensures count { result ≡ length pool.now.arities }
    ensures few { result ≤ 1024 }
{
    let _count = pool.nodes();
    pool.level(1)
}

/// Whether a number is one of a level.
#[tactic(auto, using(crate::proofs::EvenTables::zero_anywhere))]
fn is_of_level(pool: &Pool, level: u32, n: u32) -> bool
    ensures { IsTrue result → IsSet pool.now level n }
{
    if n == 0 {
        return true;
    }
    if n >= pool.nodes() + 2 {
        return false;
    }
    let found = pool.level(n);
    if found == level {
        return true;
    }
    false
}

/// The answer of a call on a table.
pub fn answer(
    alloc: Global,
    pool: &mut Pool,
    call: &str,
    numbers: &[u32],
) -> Result<String, AllocError> {
    match (call, numbers) {
        ("nodes", []) => {
            let nodes = pool.nodes();
            format!(in alloc; "{nodes}")
        }
        ("holds", [n, rest @ ..]) => {
            let held = holds(alloc, pool, *n, rest)?;
            answer_text(alloc, true, if held { "true" } else { "false" })
        }
        ("literal", [level, mask]) => literal(alloc, pool, *level, *mask),
        ("full", [level]) => full(alloc, pool, *level),
        ("complement", [level, a]) => complement(alloc, pool, *level, *a),
        ("case", [level, a, b]) => case(alloc, pool, *level, *a, *b),
        ("and", [level, a, b]) => joined(alloc, pool, true, *level, *a, *b),
        ("or", [level, a, b]) => joined(alloc, pool, false, *level, *a, *b),
        _ => unknown(alloc),
    }
}

fn holds(alloc: Global, pool: &Pool, n: u32, rest: &[u32]) -> Result<bool, AllocError> {
    let mut indices = Vec::new(alloc);
    for index in rest {
        indices.push((*index).min(255) as u8)?;
    }
    Ok(pool.holds(n, indices.as_slice()))
}

fn literal(alloc: Global, pool: &mut Pool, level: u32, mask: u32) -> Result<String, AllocError> {
    if level >= level_count(pool) {
        return unknown(alloc);
    }
    let number = pool.literal(level, u64::from(mask));
    number_text(alloc, number)
}

fn full(alloc: Global, pool: &mut Pool, level: u32) -> Result<String, AllocError> {
    if level > level_count(pool) {
        return unknown(alloc);
    }
    let number = pool.full(level);
    number_text(alloc, number)
}

fn complement(alloc: Global, pool: &mut Pool, level: u32, a: u32) -> Result<String, AllocError> {
    if level > level_count(pool) {
        return unknown(alloc);
    }
    if !is_of_level(pool, level, a) {
        return unknown(alloc);
    }
    let number = pool.complement(level, a);
    number_text(alloc, number)
}

/// The case of a level of two values.
fn case(alloc: Global, pool: &mut Pool, level: u32, a: u32, b: u32) -> Result<String, AllocError> {
    if level >= level_count(pool) || pool.arity(level) != 2 {
        return unknown(alloc);
    }
    if !is_of_level(pool, level + 1, a) {
        return unknown(alloc);
    }
    if !is_of_level(pool, level + 1, b) {
        return unknown(alloc);
    }
    let number = pool.case(level, &[a, b]);
    number_text(alloc, number)
}

/// The states in both sets, or in one of them.
#[tactic(auto, using(crate::proofs::EvenTables::one_level))]
fn joined(
    alloc: Global,
    pool: &mut Pool,
    both: bool,
    level: u32,
    a: u32,
    b: u32,
) -> Result<String, AllocError> {
    if !is_of_level(pool, level, a) {
        return unknown(alloc);
    }
    if !is_of_level(pool, level, b) {
        return unknown(alloc);
    }
    let number = if both { pool.and(a, b) } else { pool.or(a, b) };
    number_text(alloc, number)
}
