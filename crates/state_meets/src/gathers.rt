//! Several sets that begin at different levels, joined by one walk.

ghost use Rattle.std.specs.Prelude.{length};
ghost use Rattle.diagram_defs.specs.Locals.{AreLocals, IsLocalFor};
ghost use Rattle.diagram_defs.specs.Parts.{IsPartOf};
ghost use Rattle.diagram_defs.specs.Answers.{Yields};
ghost use Rattle.state_meets.specs.Gathered.{gathered_set, IsReason};

use crate::faults::GatherFault;
use crate::plans::{begun_at, plan_of};
use crate::tuples::Tuple;
use crate::walks::walk;
use diagram_defs::{Local, Quantifier};
use smallvec::SmallVec;
use state_diagrams::Pool;
use std::collections::HashMap;

/// The whole states that are in all of the sets, or in any of them, from the least level on at which one of the sets
/// begins. Parts of the result alone are added to the table, and `Bound` comes only where it is full and a part of the
/// result has no node. The walk gives up where it would remember more than `budget` tuples of numbers.
pub fn gather(
    pool: &mut Pool,
    which: Quantifier,
    sets: &[Local],
    budget: u32,
) -> Result<Local, GatherFault>
    requires { AreLocals pool.old sets.now }
    ensures { let set = gathered_set pool.old which sets.now in
        let Allowed = IsPartOf (length pool.old.arities) 0 set in
        Yields Allowed pool.old pool.new (IsLocalFor pool.new set) (IsReason pool.new Allowed) result }
{
    let alloc = pool.allocator();
    let plan = plan_of(pool, which, sets, budget)?;
    let level = plan.before;
    let numbers = SmallVec::from_slice(alloc, begun_at(&plan, level))?;
    let mut memo = HashMap::new(alloc);
    let number = walk(pool, &plan, &mut memo, Tuple { level, numbers })?;
    Ok(Local { level, number })
}
