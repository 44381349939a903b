//! Kept sets among the levels of another table.

ghost use Rattle.std.specs.Prelude.{◌≤◌, ◌<◌, ◌+◌, IfOk, IfErr, length, drop, slice_index};
ghost use Rattle.diagram_defs.specs.Diagrams.{IsSet, IsNumberFor, member};
ghost use Rattle.diagram_defs.specs.Parts.{IsPartOfSome};
ghost use Rattle.diagram_defs.specs.Answers.{Makes};
ghost use Rattle.lift_project.specs.Lifts.{shapes_of, AreKeptNodes, IsKept, ArePlaces, lifted_set};
ghost use Rattle.lift_project.specs.Entries.{held_set, IsStep, IsAllowed};
ghost use Rattle.lift_project.specs.Lifted.{AreKidsLifted};

use crate::reached::reached;
use plain_lists::{DiagFault, Kept, Place};
use state_diagrams::Pool;

/// The number of the states of `into` whose values at the places, read back, are in a kept set. There is a place for
/// each kept level; two of them may be at one level, which then has one value for both. `Bound` comes only where `into`
/// is full, and a part of what the kept number stands for has no node: of the set of a number that it leads to, or of
/// the alternatives by which such a set is found.
pub fn lift(kept: &Kept, node: u32, into: &mut Pool, places: &[Place]) -> Result<u32, DiagFault>
    requires places { ArePlaces kept.now into.old.arities places.now }
    requires nodes { AreKeptNodes kept.now }
    requires number { IsKept kept.now 0 node }
    ensures { Makes (IsAllowed into.old.arities (shapes_of kept.now) places.now node) 0 (lifted_set into.old.arities (shapes_of kept.now) places.now node) into.old into.new result }
{
    let alloc = into.allocator();
    let marks = reached(alloc, kept, node)?;
    let mut sets = Vec::from_elem(alloc, 0, marks.len())?;
    for n in 1..marks.len() {
        if marks[n] {
            let level = level_of(kept, n);
            let set = number_set(kept, level, n, into, places, sets.as_slice())?;
            sets[n] = set;
        }
    }
    Ok(sets[node as usize])
}

// The level of a kept number; that of 1 is the number of levels.
fn level_of(kept: &Kept, n: usize) -> u32
    requires low { 1 ≤ n }
    requires high { n < length kept.now.nodes + 2 }
    ensures { IsKept kept.now result n }
{
    if n == 1 {
        return kept.arities.len();
    }
    kept.nodes.as_slice()[n - 2].level
}

// The number of the states of a kept number, where `sets` has those of its children: all states, or any of a node's
// alternatives.
fn number_set(
    kept: &Kept,
    level: u32,
    n: usize,
    into: &mut Pool,
    places: &[Place],
    sets: &[u32],
) -> Result<u32, DiagFault>
    requires places { ArePlaces kept.now into.old.arities places.now }
    requires nodes { AreKeptNodes kept.now }
    requires low { 1 ≤ n }
    requires number { IsKept kept.now level n }
    requires sets { AreKidsLifted into.old (shapes_of kept.now) (drop (level + 1) places.now) n sets.now }
    ensures { Makes (IsAllowed into.old.arities (shapes_of kept.now) (drop level places.now) n) 0 (lifted_set into.old.arities (shapes_of kept.now) (drop level places.now) n) into.old into.new result }
{
    if n == 1 {
        return into.full(0);
    }
    let _count = into.nodes();
    let kids = kept.nodes.as_slice()[n - 2].kids.as_slice();
    let place = &places[level as usize];
    let mut found = 0;
    for v in 0..kids.len() {
        let index = place.values.as_slice()[v];
        let alternative = held(into, place.level, index, sets[kids[v] as usize])?;
        found = into.or(found, alternative)?;
    }
    Ok(found)
}

// The number of the states of a set that have an index at a level.
fn held(into: &mut Pool, level: u32, index: u8, n: u32) -> Result<u32, DiagFault>
    requires level_in { level < length into.old.arities }
    requires index { index < slice_index into.old.arities level }
    requires number { IsSet into.old 0 n }
    ensures { Makes (IsPartOfSome (length into.old.arities) (IsStep into.old.arities level index (member into.old.nodes n))) 0 (held_set into.old.arities level index (member into.old.nodes n)) into.old into.new result }
{
    let _count = into.nodes();
    if into.is_empty(n) {
        return Ok(0);
    }
    let value = into.literal(level, 1 << index)?;
    into.and(value, n)
}
