//! The prefixes of a set, in a table that has the first levels alone.

ghost use Rattle.std.specs.Prelude.{◌≡◌, ◌≢◌, ◌≤◌, ◌<◌, ◌+◌, ◌-◌, ◌*◌, ℕ, IfOk, IfErr, length, vec_len};
ghost use Rattle.diagram_defs.specs.Diagrams.{IsPool, IsSet, IsNumberFor, AreKidsFor, Grows};
ghost use Rattle.diagram_defs.specs.Sets.{prefix_set};
ghost use Rattle.diagram_defs.specs.Answers.{MakesSet, MakesKids};
ghost use Rattle.lift_project.specs.Prefixes.{starts_set, AreFound, AreFirst};

use plain_lists::DiagFault;
use state_diagrams::Pool;
use std::collections::HashMap;

/// The number of the states of `into` that begin a state of a set of `from`. The levels of `into` are the first ones
/// of `from`. `Bound` comes only where `into` is full and a part of the result has no node.
pub fn project(from: &Pool, node: u32, into: &mut Pool) -> Result<u32, DiagFault>
    requires levels { AreFirst from.now into.old }
    requires number { IsSet from.now 0 node }
    ensures { MakesSet 0 (prefix_set from.now (length into.old.arities) node) into.old into.new result }
{
    let _count = from.nodes();
    let mut done = HashMap::new(into.allocator());
    prefixes(from, into, &mut done, 0, node)
}

// The number of the prefixes of a set of rests of a level. `done` has those that were found.
#[cycle(prefixes)]
fn prefixes(
    from: &Pool,
    into: &mut Pool,
    done: &mut HashMap<u32, u32>,
    level: u32,
    n: u32,
) -> Result<u32, DiagFault>
    requires levels { AreFirst from.now into.old }
    requires level_in { level ≤ length into.old.arities }
    requires number { IsSet from.now level n }
    requires table { IsPool from.now }
    requires done { AreFound from.now into.old done.old }
    ensures makes { MakesSet level (starts_set into.old.arities from.now.nodes level n) into.old into.new result }
    ensures done { AreFound from.now into.new done.new }
{
    let levels = into.level(1);
    let _count = into.nodes();
    if from.is_empty(n) {
        return Ok(0);
    }
    if level == levels {
        return Ok(1);
    }
    if let Some(found) = done.get(&n) {
        return Ok(*found);
    }
    let kids = prefix_kids(from, into, done, level, n)?;
    let found = into.case(level, kids.as_slice())?;
    done.insert(n, found)?;
    Ok(found)
}

// The numbers of what stands behind each value of the level among the prefixes.
#[cycle(prefixes)]
fn prefix_kids(
    from: &Pool,
    into: &mut Pool,
    done: &mut HashMap<u32, u32>,
    level: u32,
    n: u32,
) -> Result<Vec<u32>, DiagFault>
    requires levels { AreFirst from.now into.old }
    requires level_in { level < length into.old.arities }
    requires number { IsSet from.now level n }
    requires table { IsPool from.now }
    requires done { AreFound from.now into.old done.old }
    ensures makes { MakesKids (λ kids. kids.items) level (starts_set into.old.arities from.now.nodes level n) into.old into.new result }
    ensures done { AreFound from.now into.new done.new }
{
    let arity = into.arity(level);
    let mut kids = Vec::new(into.allocator());
    for v in 0..arity {
        let kid = prefixes(from, into, done, level + 1, from.child(n, v))?;
        kids.push(kid)?;
    }
    Ok(kids)
}
