//! Several sets that begin at different levels, however many: joined by one walk, or else one after the other.

ghost use Rattle.std.specs.Prelude.{length};
ghost use Rattle.diagram_defs.specs.Locals.{AreLocals, IsLocalFor};
ghost use Rattle.diagram_defs.specs.Parts.{IsPartOf};
ghost use Rattle.diagram_defs.specs.Answers.{IsCause, Yields};
ghost use Rattle.state_meets.specs.Gathered.{gathered_set};
ghost use Rattle.state_meets.specs.Fronts.{IsPartOfFront};

use crate::faults::GatherFault;
use crate::gathers::gather;
use diagram_defs::{Local, Quantifier};
use plain_lists::DiagFault;
use state_diagrams::Pool;

/// How many tuples of numbers one walk over all sets may remember.
const MAX_TUPLES: u32 = 1_048_576;

/// The whole states that are in all of the sets, or in any of them. One walk over all sets finds them; where it would
/// remember too many tuples, the sets are joined one after the other, in their order. `Bound` comes only where the
/// table is full, and a part of what first ones of the sets make, or all, has no node.
pub fn joined(pool: &mut Pool, which: Quantifier, sets: &[Local]) -> Result<Local, DiagFault>
    requires { AreLocals pool.old sets.now }
    ensures { let set = gathered_set pool.old which sets.now in
        let Allowed = IsPartOfFront pool.old which sets.now in
        Yields Allowed pool.old pool.new (IsLocalFor pool.new set) (IsCause pool.new Allowed) result }
{
    match gather(pool, which, sets, MAX_TUPLES) {
        Ok(local) => Ok(local),
        Err(GatherFault::Table(fault)) => Err(fault),
        Err(GatherFault::GivenUp) => joined_in_turn(pool, which, sets),
    }
}

/// The same, one set after the other.
fn joined_in_turn(pool: &mut Pool, which: Quantifier, sets: &[Local]) -> Result<Local, DiagFault>
    requires { AreLocals pool.old sets.now }
    ensures { let set = gathered_set pool.old which sets.now in
        let Allowed = IsPartOfFront pool.old which sets.now in
        Yields Allowed pool.old pool.new (IsLocalFor pool.new set) (IsCause pool.new Allowed) result }
{
    let none = gathered(pool, which, &[])?;
    let mut front = none;
    for set in sets {
        front = gathered(pool, which, &[front, *set])?;
    }
    Ok(front)
}

/// The whole states that are in all of the sets, or in any of them, by one walk that remembers what it will.
fn gathered(pool: &mut Pool, which: Quantifier, sets: &[Local]) -> Result<Local, DiagFault>
    requires { AreLocals pool.old sets.now }
    ensures { let set = gathered_set pool.old which sets.now in
        let Allowed = IsPartOf (length pool.old.arities) 0 set in
        Yields Allowed pool.old pool.new (IsLocalFor pool.new set) (IsCause pool.new Allowed) result }
{
    match gather(pool, which, sets, u32::MAX) {
        Ok(local) => Ok(local),
        Err(GatherFault::Table(fault)) => Err(fault),
        Err(GatherFault::GivenUp) => Err(DiagFault::Memory),
    }
}
