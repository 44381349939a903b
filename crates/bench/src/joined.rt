//! The states of supplies that are off or on, two and two of them joined by a condition.

ghost use Rattle.std.specs.Prelude.{◌≡◌, ◌&&◌, ◌||◌, ◌<◌, ◌≤◌, ◌+◌, ◌*◌, ℕ, true, map, length, replicate, IfOk};
ghost use Rattle.std.specs.List.{list_all, list_any};
ghost use Rattle.pw_defs.specs.declared.values.Value.{Value};
ghost use Rattle.supply_defs.specs.Conditions.{holds, speaks_below};
ghost use Rattle.pw_defs.specs.Values.{is_on};
ghost use Rattle.diagram_defs.specs.Diagrams.{AreArities};
ghost use Rattle.diagram_defs.specs.Locals.{AreLocals};
ghost use Rattle.bench.specs.Links.{levels_of, first_of, second_of, are_alike, is_after, is_linked};

use crate::{MAX_NODES, MAX_TUPLES};
use diagram_defs::{Local, Quantifier};
use pw_defs::{Boxed, Cond, DiagFault, List, Value};
use state_build::{build, local_of};
use state_diagrams::Pool;
use state_meets::{GatherFault, gather};
use std::alloc::{AllocError, Global};

/// Which supplies are joined, and how.
#[derive(Clone, Copy)]
pub enum Link {
    /// Each with the next one, in pairs: both are on or none is.
    Beside,
    /// The same, with all first ones of the pairs before all second ones.
    Behind,
    /// Each with the next one, in a row: the next one is on only where it is.
    Chain,
}

/// How many supplies there are for so many links.
pub fn level_count(link: Link, count: u32) -> u32
    requires { count ≤ 1000000 }
    ensures { result ≡ levels_of link count }
{
    match link {
        Link::Beside => 2 * count,
        Link::Behind => 2 * count,
        Link::Chain => count + 1,
    }
}

/// The two supplies of a link.
fn ends(link: Link, count: u32, at: u32) -> (u32, u32)
    requires few { count ≤ 1000000 }
    requires within { at < count }
    ensures ends { (result.0 ≡ first_of link count at) × (result.1 ≡ second_of link count at) }
    ensures first { result.0 < levels_of link count }
    ensures second { result.1 < levels_of link count }
{
    match link {
        Link::Beside => (2 * at, 2 * at + 1),
        Link::Behind => (at, count + at),
        Link::Chain => (at, at + 1),
    }
}

/// Both supplies are on.
#[tactic(auto, using(supply_defs::proofs::Meaning::speaking, supply_defs::proofs::Meaning::holding))]
fn both(alloc: Global, a: u32, b: u32) -> Result<List<Cond>, AllocError>
    ensures speaks { IfOk result (λ conds. (n : ℕ) → a < n → b < n → list_all (speaks_below n) conds ≡ true) }
    ensures all { IfOk result (λ conds. (value : ℕ → Value) →
        list_all (holds value) conds ≡ (is_on (value a) && is_on (value b))) }
    ensures any { IfOk result (λ conds. (value : ℕ → Value) →
        list_any (holds value) conds ≡ (is_on (value a) || is_on (value b))) }
{
    let mut conds = List::new(alloc);
    conds.push(Cond::On { supply: a })?;
    conds.push(Cond::On { supply: b })?;
    Ok(conds)
}

/// Both supplies are on, or none is.
#[tactic(auto, using(supply_defs::proofs::Meaning::speaking, supply_defs::proofs::Meaning::holding))]
pub fn alike(alloc: Global, a: u32, b: u32) -> Result<Cond, AllocError>
    ensures speaks { IfOk result (λ cond. (n : ℕ) → a < n → b < n → speaks_below n cond ≡ true) }
    ensures means { IfOk result (λ cond. (value : ℕ → Value) → holds value cond ≡ are_alike (value a) (value b)) }
{
    let some = Boxed::new(alloc, Cond::Any(both(alloc, a, b)?))?;
    let mut conds = List::new(alloc);
    conds.push(Cond::All(both(alloc, a, b)?))?;
    conds.push(Cond::Not(some))?;
    Ok(Cond::Any(conds))
}

/// The second supply is on only where the first is.
#[tactic(auto, using(supply_defs::proofs::Meaning::speaking, supply_defs::proofs::Meaning::holding))]
fn follows(alloc: Global, a: u32, b: u32) -> Result<Cond, AllocError>
    ensures speaks { IfOk result (λ cond. (n : ℕ) → a < n → b < n → speaks_below n cond ≡ true) }
    ensures means { IfOk result (λ cond. (value : ℕ → Value) → holds value cond ≡ is_after (value a) (value b)) }
{
    let second = Boxed::new(alloc, Cond::On { supply: b })?;
    let mut conds = List::new(alloc);
    conds.push(Cond::Not(second))?;
    conds.push(Cond::On { supply: a })?;
    Ok(Cond::Any(conds))
}

/// The condition of a link.
fn link_cond(alloc: Global, link: Link, a: u32, b: u32) -> Result<Cond, AllocError>
    ensures speaks { IfOk result (λ cond. (n : ℕ) → a < n → b < n → speaks_below n cond ≡ true) }
    ensures means { IfOk result (λ cond. (value : ℕ → Value) → holds value cond ≡ is_linked link (value a) (value b)) }
{
    match link {
        Link::Beside => alike(alloc, a, b),
        Link::Behind => alike(alloc, a, b),
        Link::Chain => follows(alloc, a, b),
    }
}

/// The conditions of all links, in order.
fn conditions(alloc: Global, link: Link, count: u32) -> Result<List<Cond>, AllocError>
    requires { count ≤ 1000000 }
    ensures { IfOk result (λ conds. list_all (speaks_below (levels_of link count)) conds ≡ true) }
{
    let mut conds = List::new(alloc);
    for at in 0..count {
        let (a, b) = ends(link, count, at);
        let cond = link_cond(alloc, link, a, b)?;
        conds.push(cond)?;
    }
    Ok(conds)
}

/// The values of so many supplies.
pub fn supplies(alloc: Global, count: u32) -> Result<Vec<List<Value>>, AllocError>
    ensures { IfOk result (λ lists. map length lists.items ≡ replicate count 2) }
{
    let mut lists = Vec::new(alloc);
    for _ in 0..count {
        lists.push(List::from_slice(alloc, &[Value::Off, Value::On(0)])?)?;
    }
    Ok(lists)
}

/// How many nodes a table has once the states are found in which all links hold.
pub fn joined_nodes(alloc: Global, link: Link, count: u32) -> Result<u32, DiagFault>
    requires few { count ≤ 1000000 }
    requires levels { levels_of link count ≤ 1024 }
{
    let levels = level_count(link, count);
    let lists = supplies(alloc, levels)?;
    let arities = Vec::from_elem(alloc, 2, levels as usize)?;
    let mut pool = Pool::new(alloc, arities.as_slice(), MAX_NODES)?;
    let cond = Cond::All(conditions(alloc, link, count)?);
    build(&mut pool, lists.as_slice(), &cond)?;
    Ok(pool.nodes())
}

/// How many nodes a table has with the sets of the links alone, and then with the states in which all links hold,
/// which one walk finds.
pub fn gathered_nodes(alloc: Global, link: Link, count: u32) -> Result<(u32, u32), GatherFault>
    requires few { count ≤ 1000000 }
    requires levels { levels_of link count ≤ 1024 }
{
    let levels = level_count(link, count);
    let lists = supplies(alloc, levels)?;
    let arities = Vec::from_elem(alloc, 2, levels as usize)?;
    let mut pool = table(alloc, arities.as_slice())?;
    let conds = conditions(alloc, link, count)?;
    let sets = link_sets(alloc, &mut pool, lists.as_slice(), conds.as_slice())?;
    let before = pool.nodes();
    gather(&mut pool, Quantifier::All, sets.as_slice(), MAX_TUPLES)?;
    Ok((before, pool.nodes()))
}

/// A table without nodes.
fn table(alloc: Global, arities: &[u32]) -> Result<Pool, DiagFault>
    requires { AreArities arities.now }
    ensures { IfOk result (λ pool. pool.arities ≡ arities.now) }
{
    let pool = Pool::new(alloc, arities, MAX_NODES)?;
    Ok(pool)
}

/// The sets of the conditions, each from the least supply on that it speaks of.
fn link_sets(
    alloc: Global,
    pool: &mut Pool,
    lists: &[List<Value>],
    conds: &[Cond],
) -> Result<Vec<Local>, DiagFault>
    requires lists { map length lists.now ≡ pool.old.arities }
    requires levels { list_all (speaks_below (length lists.now)) conds.now ≡ true }
    ensures { IfOk result (λ sets. AreLocals pool.new sets.items) }
{
    let mut sets = Vec::new(alloc);
    for cond in conds {
        let set = local_of(pool, lists, cond)?;
        sets.push(set)?;
    }
    Ok(sets)
}
