//! The least state that is in a set of one table and in a set of another.

ghost use Rattle.std.specs.Prelude.{◌≡◌, ◌≤◌, ◌<◌, ◌+◌, ◌-◌, ℕ, List, ◌∷◌, None, true, false, IfOk, IsTrue, MatchOption, IsSomeAnd, drop, length, reverse};
ghost use Rattle.list_defs.specs.Orders.{IsLeast};
ghost use Rattle.diagram_defs.specs.Diagrams.{Diagram, IsPool, IsSet, member};
ghost use Rattle.diagram_defs.specs.States.{state_cmp};
ghost use Rattle.state_meets.specs.Common.{is_common, AreDisjoint, AreDead, IsLeastRest, IsMeetingBehind};

use diagram_defs::Local;
use state_diagrams::Pool;
use std::alloc::AllocError;
use std::collections::HashSet;

/// Where a search stands: at a level, with what is left of both sets there.
#[derive(Clone, Copy, Debug, Drop, PartialEq, Eq, Hash)]
struct Meeting {
    level: u32,
    first: u32,
    second: u32,
}

/// The least state in a set of one table whose end is in a set of another from that one's level on; none where there is
/// no such state. Neither table grows.
pub fn first_common(
    first: &Pool,
    node: u32,
    second: &Pool,
    local: Local,
) -> Result<Option<Vec<u8>>, AllocError>
    requires { IsSet first.now 0 node }
    ensures { IfOk result (λ found. MatchOption found
        ((state : List ℕ) → is_common first.now node second.now local state ≡ false)
        (λ state. IsLeast state_cmp (λ other. is_common first.now node second.now local other ≡ true) state.items)) }
{
    let mut dead = HashSet::new(first.allocator());
    let start = Meeting {
        level: 0,
        first: node,
        second: local.number,
    };
    let found = least(first, second, local.level, &mut dead, start)?;
    Ok(in_order(found))
}

/// The same state, where its indices stood from the last one back.
fn in_order(found: Option<Vec<u8>>) -> Option<Vec<u8>>
    ensures { MatchOption found (result ≡ None) (λ back. IsSomeAnd result (λ state. state.items ≡ reverse back.items)) }
{
    let mut state = found?;
    state.reverse();
    Some(state)
}

/// The least rest of both sets, from its end back. What has none is remembered.
#[cycle(least)]
fn least(
    first: &Pool,
    second: &Pool,
    begins: u32,
    dead: &mut HashSet<Meeting>,
    at: Meeting,
) -> Result<Option<Vec<u8>>, AllocError>
    requires level_in { at.level ≤ length first.now.arities }
    requires number { IsSet first.now at.level at.first }
    requires dead { AreDead first.now second.now begins dead.old }
    ensures found { IfOk result (λ found. MatchOption found (AreDisjoint first.now second.now begins at)
        (λ back. IsLeastRest first.now second.now begins at (reverse back.items))) }
    ensures dead { AreDead first.now second.now begins dead.new }
{
    if is_dead(first, second, begins, dead, at) {
        return Ok(None);
    }
    if at.level == first.level(1) {
        return Ok(last(first, second, begins, at));
    }
    let found = least_behind(first, second, begins, dead, at)?;
    if let Some(back) = found {
        return Ok(Some(back));
    }
    bury(dead, at)?;
    Ok(None)
}

/// The least rest behind the least value that has one.
#[cycle(least)]
fn least_behind(
    first: &Pool,
    second: &Pool,
    begins: u32,
    dead: &mut HashSet<Meeting>,
    at: Meeting,
) -> Result<Option<Vec<u8>>, AllocError>
    requires level_in { at.level < length first.now.arities }
    requires number { IsSet first.now at.level at.first }
    requires dead { AreDead first.now second.now begins dead.old }
    ensures found { IfOk result (λ found. MatchOption found (AreDisjoint first.now second.now begins at)
        (λ back. IsLeastRest first.now second.now begins at (reverse back.items))) }
    ensures dead { AreDead first.now second.now begins dead.new }
{
    let arity = first.arity(at.level);
    let _alloc = first.allocator();
    for v in 0..arity {
        let next = behind(first, second, begins, at, v);
        let found = least(first, second, begins, dead, next)?;
        if let Some(back) = found {
            return Ok(Some(with_value(back, v)?));
        }
    }
    Ok(None)
}

/// Whether it is known that no rest is in both sets.
fn is_dead(first: &Pool, second: &Pool, begins: u32, dead: &HashSet<Meeting>, at: Meeting) -> bool
    requires { AreDead first.now second.now begins dead.now }
    ensures { IsTrue result → AreDisjoint first.now second.now begins at }
{
    if at.first == 0 {
        return true;
    }
    if at.second == 0 {
        return true;
    }
    dead.contains(&at)
}

/// Remembers that no rest is in both sets.
fn bury(dead: &mut HashSet<Meeting>, at: Meeting) -> Result<(), AllocError>
    ensures { (first second : Diagram) (begins : ℕ) → AreDead first second begins dead.old →
        AreDisjoint first second begins at → AreDead first second begins dead.new }
{
    dead.insert(at)?;
    Ok(())
}

/// The empty rest, where it is in both sets.
fn last(first: &Pool, second: &Pool, begins: u32, at: Meeting) -> Option<Vec<u8>>
    requires level_in { at.level ≡ length first.now.arities }
    requires number { IsSet first.now at.level at.first }
    ensures { MatchOption result (AreDisjoint first.now second.now begins at)
        (λ back. IsLeastRest first.now second.now begins at (reverse back.items)) }
{
    let alloc = first.allocator();
    if at.first != 1 {
        return None;
    }
    if at.second != 1 {
        return None;
    }
    Some(Vec::new(alloc))
}

/// What is left of both sets behind a value.
fn behind(first: &Pool, second: &Pool, begins: u32, at: Meeting, v: u32) -> Meeting
    requires level_in { at.level < length first.now.arities }
    requires number { IsSet first.now at.level at.first }
    ensures { IsMeetingBehind first.now second.now begins at v result }
{
    let _alloc = first.allocator();
    Meeting {
        level: at.level + 1,
        first: first.child(at.first, v),
        second: second_behind(second, begins, at, v),
    }
}

/// What is left of the second set behind a value. Before its level it stays whole.
fn second_behind(second: &Pool, begins: u32, at: Meeting, v: u32) -> u32
    ensures { (rest : List ℕ) → member second.now.nodes result (drop (begins - (at.level + 1)) rest) ≡ member second.now.nodes at.second (drop (begins - at.level) (v ∷ rest)) }
{
    if at.level < begins {
        return at.second;
    }
    second.child(at.second, v)
}

/// The rest that has a value before it, from its end back.
fn with_value(back: Vec<u8>, v: u32) -> Result<Vec<u8>, AllocError>
    requires { v < 64 }
    ensures { IfOk result (λ longer. reverse longer.items ≡ v ∷ reverse back.items) }
{
    let mut longer = back;
    longer.push(v as u8)?;
    Ok(longer)
}
