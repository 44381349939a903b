//! Small sets of states, lifted and projected, with states and numbers worked out by hand.
ghost use Rattle.std.specs.Prelude.{◌≡◌, ◌≤◌, ◌⊎◌, ◌∷◌, [], IfOk};
ghost use Rattle.diagram_defs.specs.Diagrams.{IsSet};
ghost use Rattle.lift_project.specs.Lifts.{AreKeptNodes, IsKept, IsPlace};

use lift_project::{first, lift, project};
use plain_lists::{DiagFault, Kept, KeptNode, List, Memory, Place};
use state_diagrams::Pool;
use std::alloc::Global;
use std::process::Abort;
use std::test::Fail;

/// A level of a table, and its indices for the two values of a kept level.
#[derive(Clone, Copy, Debug)]
struct Spot {
    level: u32,
    values: [u8; 2],
}

const fn at(level: u32, first: u8, second: u8) -> Spot {
    Spot {
        level,
        values: [first, second],
    }
}

/// A table of a level of two or more values and one of two values.
#[tactic(auto, using(crate::proofs::SmallTables::pair_arities))]
fn two_levels(rt: &impl Abort, alloc: Global, arity: u8, bound: u32) -> Result<Pool, Memory>
    requires { bound ≤ 1048576 }
    ensures { IfOk result (λ pool. pool.arities ≡ arity ∷ 2 ∷ []) }
{
    assert!(rt; arity >= 2);
    assert!(rt; arity <= 64);
    Pool::new(alloc, &[u32::from(arity), 2], bound)
}

/// A table of the first of these levels.
#[tactic(auto, using(crate::proofs::SmallTables::one_arity))]
fn one_level(rt: &impl Abort, alloc: Global, arity: u8) -> Result<Pool, Memory>
    ensures { IfOk result (λ pool. pool.arities ≡ arity ∷ []) }
{
    assert!(rt; arity >= 2);
    assert!(rt; arity <= 64);
    Pool::new(alloc, &[u32::from(arity)], 100)
}

/// A place among the levels of a table for a kept level of two values.
fn place(rt: &impl Abort, alloc: Global, pool: &Pool, spot: Spot) -> Result<Place, Memory>
    ensures { IfOk result (IsPlace pool.now.arities 2) }
{
    let _count = pool.nodes();
    let levels = pool.level(1);
    assert!(rt; spot.level < levels);
    let arity = pool.arity(spot.level);
    let [first, second] = spot.values;
    assert!(rt; u32::from(first) < arity);
    assert!(rt; u32::from(second) < arity);
    assert!(rt; first != second);
    Ok(Place {
        level: spot.level,
        values: List::from_slice(alloc, &[first, second])?,
    })
}

/// A kept node of a level of two values.
fn kept_node(alloc: Global, level: u32, first: u32, second: u32) -> Result<KeptNode, Memory>
    ensures { IfOk result (λ node. node ≡ record { level = level; kids = first ∷ second ∷ [] }) }
{
    Ok(KeptNode {
        level,
        kids: List::from_slice(alloc, &[first, second])?,
    })
}

/// A set of states of two levels of two values.
#[derive(Clone, Copy, Debug)]
enum Pairs {
    /// No state.
    None,
    /// (0, 1) and (1, 0).
    Both,
    /// (0, 1) alone.
    One,
}

/// The number of a set among the kept ones.
fn number_of(set: Pairs) -> u32
    ensures { (result ≡ 0) ⊎ ((result ≡ 4) ⊎ (result ≡ 5)) }
{
    match set {
        Pairs::None => 0,
        Pairs::Both => 4,
        Pairs::One => 5,
    }
}

/// The kept sets.
fn kept_pairs(alloc: Global) -> Result<Kept, Memory>
    ensures arities { IfOk result (λ kept. kept.arities ≡ 2 ∷ 2 ∷ []) }
    ensures nodes { IfOk result AreKeptNodes }
    ensures both { IfOk result (λ kept. IsKept kept 0 4) }
    ensures one { IfOk result (λ kept. IsKept kept 0 5) }
{
    let arities = List::from_slice(alloc, &[2, 2])?;
    let mut nodes = List::new(alloc);
    nodes.push(kept_node(alloc, 1, 0, 1)?)?;
    nodes.push(kept_node(alloc, 1, 1, 0)?)?;
    nodes.push(kept_node(alloc, 0, 2, 3)?)?;
    nodes.push(kept_node(alloc, 0, 2, 0)?)?;
    Ok(Kept { arities, nodes })
}

/// The number of such a set in a table, with its two levels at two spots.
#[tactic(auto, using(crate::proofs::SmallTables::places_of_pairs))]
fn lifted(
    rt: &impl Abort,
    alloc: Global,
    pool: &mut Pool,
    set: Pairs,
    first: Spot,
    second: Spot,
) -> Result<u32, DiagFault>
    ensures number { IfOk result (IsSet pool.new 0) }
    ensures arities { pool.new.arities ≡ pool.old.arities }
{
    let kept = kept_pairs(alloc)?;
    let node = number_of(set);
    let first = place(rt, alloc, pool, first)?;
    let second = place(rt, alloc, pool, second)?;
    lift(&kept, node, pool, &[first, second])
}

/// Checks which states of a table of two levels a set has, which is the least, and which values begin them.
fn expect_states(
    rt: &impl Abort,
    alloc: Global,
    pool: &Pool,
    n: u32,
    arity: u8,
    want: &[[u8; 2]],
) -> Result<(), DiagFault>
    requires arities { pool.now.arities ≡ arity ∷ 2 ∷ [] }
    requires number { IsSet pool.now 0 n }
{
    let mut fronts = one_level(rt, alloc, arity)?;
    let begun = project(pool, n, &mut fronts)?;
    for value in 0..arity {
        for other in 0..2 {
            let state = [value, other];
            assert_eq!(rt;
                pool.holds(n, &state),
                want.contains(&state),
                "at {state:?}"
            );
        }
        let begins = want.iter().any(|state| state[0] == value);
        assert_eq!(rt; fronts.holds(begun, &[value]), begins, "of {value}");
    }
    let mut least = [9, 9];
    assert_eq!(rt; first(pool, n, &mut least), !want.is_empty());
    assert_eq!(rt; least, want.first().copied().unwrap_or([9, 9]));
    Ok(())
}

#[test]
fn lifts_pairs(rt: HostRuntime) -> Result<(), Fail> {
    expect_lifts(&rt, rt.alloc()).map_err(named)
}

/// Checks sets of pairs at places of tables, each with its states in their order.
fn expect_lifts(rt: &impl Abort, alloc: Global) -> Result<(), DiagFault> {
    // As it is.
    expect_lifted(
        rt,
        alloc,
        2,
        Pairs::One,
        at(0, 0, 1),
        at(1, 0, 1),
        &[[0, 1]],
    )?;
    expect_lifted(
        rt,
        alloc,
        2,
        Pairs::Both,
        at(0, 0, 1),
        at(1, 0, 1),
        &[[0, 1], [1, 0]],
    )?;
    expect_lifted(rt, alloc, 2, Pairs::None, at(0, 0, 1), at(1, 0, 1), &[])?;
    // The places in the other order.
    expect_lifted(
        rt,
        alloc,
        2,
        Pairs::One,
        at(1, 0, 1),
        at(0, 0, 1),
        &[[1, 0]],
    )?;
    // Other indices, of a level of three values.
    expect_lifted(
        rt,
        alloc,
        3,
        Pairs::One,
        at(0, 2, 0),
        at(1, 0, 1),
        &[[2, 1]],
    )?;
    expect_lifted(
        rt,
        alloc,
        3,
        Pairs::Both,
        at(0, 2, 0),
        at(1, 0, 1),
        &[[0, 0], [2, 1]],
    )?;
    expect_lifted(
        rt,
        alloc,
        3,
        Pairs::Both,
        at(1, 1, 0),
        at(0, 1, 2),
        &[[1, 0], [2, 1]],
    )?;
    // Both at one place, with the same indices and with those of the other value.
    expect_lifted(rt, alloc, 2, Pairs::Both, at(1, 0, 1), at(1, 0, 1), &[])?;
    expect_lifted(
        rt,
        alloc,
        2,
        Pairs::One,
        at(1, 0, 1),
        at(1, 1, 0),
        &[[0, 0], [1, 0]],
    )?;
    expect_lifted(
        rt,
        alloc,
        3,
        Pairs::Both,
        at(0, 0, 2),
        at(0, 1, 0),
        &[[0, 0], [0, 1]],
    )?;
    Ok(())
}

/// Checks a set of pairs in a table of its own.
fn expect_lifted(
    rt: &impl Abort,
    alloc: Global,
    arity: u8,
    set: Pairs,
    first: Spot,
    second: Spot,
    want: &[[u8; 2]],
) -> Result<(), DiagFault> {
    let mut pool = two_levels(rt, alloc, arity, 100)?;
    let n = lifted(rt, alloc, &mut pool, set, first, second)?;
    assert_eq!(rt;
        pool.is_empty(n),
        want.is_empty(),
        "for {set:?} at {first:?}, {second:?}"
    );
    expect_states(rt, alloc, &pool, n, arity, want)
}

#[test]
fn projects_to_no_level(rt: HostRuntime) -> Result<(), Fail> {
    expect_projected(&rt, rt.alloc()).map_err(named)
}

/// Checks that the empty state begins a state.
fn expect_projected(rt: &impl Abort, alloc: Global) -> Result<(), DiagFault> {
    let mut pool = two_levels(rt, alloc, 2, 100)?;
    let both = lifted(rt, alloc, &mut pool, Pairs::Both, at(0, 0, 1), at(1, 0, 1))?;
    let mut none = Pool::new(alloc, &[], 0)?;
    assert_eq!(rt; project(&pool, both, &mut none)?, 1);
    Ok(())
}

#[test]
fn lifts_more_and_fewer_levels(rt: HostRuntime) -> Result<(), Fail> {
    expect_lifted_levels(&rt, rt.alloc()).map_err(named)
}

/// Checks kept sets of no level and of two at the one level of a table.
#[tactic(auto, using(crate::proofs::SmallTables::plain_nodes, crate::proofs::SmallTables::plain_places, crate::proofs::SmallTables::plain_whole))]
fn expect_lifted_levels(rt: &impl Abort, alloc: Global) -> Result<(), DiagFault> {
    let mut pool = one_level(rt, alloc, 2)?;
    let plain = no_levels(alloc);
    assert_eq!(rt; lift(&plain, 1, &mut pool, &[])?, 2);
    assert_eq!(rt; lift(&plain, 0, &mut pool, &[])?, 0);
    let twice = lifted(rt, alloc, &mut pool, Pairs::Both, at(0, 0, 1), at(0, 0, 1))?;
    assert_eq!(rt; twice, 0);
    Ok(())
}

#[test]
fn stays_within_its_bound(rt: HostRuntime) -> Result<(), Fail> {
    let alloc = rt.alloc();
    let mut pool = two_levels(&rt, alloc, 2, 3)?;
    assert_eq!(rt; pool.literal(0, 1), Ok(3));
    let both = lifted(&rt, alloc, &mut pool, Pairs::Both, at(0, 0, 1), at(1, 0, 1));
    assert_eq!(rt; both, Err(DiagFault::Bound { nodes: 3 }));
    assert_eq!(rt; pool.nodes(), 3);
    assert!(rt; pool.holds(3, &[0, 1]));
    assert!(rt; !pool.holds(3, &[1, 0]));
    Ok(())
}

/// A kept set without levels.
fn no_levels(alloc: Global) -> Kept
    ensures arities { result.arities ≡ [] }
    ensures nodes { result.nodes ≡ [] }
{
    Kept {
        arities: List::new(alloc),
        nodes: List::new(alloc),
    }
}

fn named(fault: DiagFault) -> Fail {
    match fault {
        DiagFault::Bound { nodes: _ } => Fail::from("bound"),
        DiagFault::Memory => Fail::from("memory"),
    }
}
