//! Sets of states by the values at two levels.

ghost use Rattle.std.specs.Prelude.{◌≡◌, ◌<◌, ◌+◌, map, IfOk, IfErr, length};
ghost use Rattle.pw_defs.specs.declared.conditions.Cond.TheVariants.{Apart};
ghost use Rattle.diagram_defs.specs.Diagrams.{AreKidsFor};
ghost use Rattle.diagram_defs.specs.Parts.{GrowsBy, IsPartOf};
ghost use Rattle.diagram_defs.specs.Answers.{IsCause};
ghost use Rattle.state_build.specs.Built.{built_set};
ghost use Rattle.diagram_defs.specs.Locals.{IsLocalFor};
ghost use Rattle.state_build.specs.ValueTests.{pair_set, apart_set};

use crate::levels::{Side, ValueTest, passing};
use crate::locals::nothing;
use diagram_defs::Local;
use pw_defs::{DiagFault, List, Value};
use state_diagrams::Pool;
use std::cmp::Ordering;

/// The whole states at which two supplies are on, and `high` is more than `above` higher than `low`.
pub(crate) fn apart(
    pool: &mut Pool,
    lists: &[List<Value>],
    low: u32,
    high: u32,
    above: u32,
) -> Result<Local, DiagFault>
    requires lists { map length lists.now ≡ pool.old.arities }
    requires low { low < length lists.now }
    requires high { high < length lists.now }
    ensures number { IfOk result (λ local. IsLocalFor pool.new (built_set pool.old.arities lists.now (Apart low high above)) local) }
    ensures grows { GrowsBy (IsPartOf (length pool.old.arities) 0 (built_set pool.old.arities lists.now (Apart low high above))) pool.old pool.new }
    ensures cause { IfErr result (IsCause pool.new (IsPartOf (length pool.old.arities) 0 (built_set pool.old.arities lists.now (Apart low high above)))) }
{
    match low.cmp(&high) {
        Ordering::Less => pairs(pool, lists, low, high, Side::Above, above),
        Ordering::Equal => Ok(nothing(pool)),
        Ordering::Greater => pairs(pool, lists, high, low, Side::Below, above),
    }
}

/// The whole states whose value at the second level is far from that at the first.
fn pairs(
    pool: &mut Pool,
    lists: &[List<Value>],
    first: u32,
    second: u32,
    side: Side,
    by: u32,
) -> Result<Local, DiagFault>
    requires lists { map length lists.now ≡ pool.old.arities }
    requires order { first < second }
    requires level_in { second < length lists.now }
    ensures number { IfOk result (λ local. IsLocalFor pool.new (apart_set pool.old.arities lists.now first second side by) local) }
    ensures grows { GrowsBy (IsPartOf (length pool.old.arities) 0 (apart_set pool.old.arities lists.now first second side by)) pool.old pool.new }
    ensures cause { IfErr result (IsCause pool.new (IsPartOf (length pool.old.arities) 0 (apart_set pool.old.arities lists.now first second side by))) }
{
    let kids = pair_kids(pool, lists, first, second, side, by)?;
    let number = pool.case(first, kids.as_slice())?;
    let level = first;
    Ok(Local { level, number })
}

/// The numbers of what stands behind each value of the first level.
fn pair_kids(
    pool: &mut Pool,
    lists: &[List<Value>],
    first: u32,
    second: u32,
    side: Side,
    by: u32,
) -> Result<Vec<u32>, DiagFault>
    requires lists { map length lists.now ≡ pool.old.arities }
    requires order { first < second }
    requires level_in { second < length lists.now }
    ensures kids { IfOk result (λ kids. AreKidsFor pool.new first (pair_set pool.old.arities lists.now first second side by) kids.items) }
    ensures grows { GrowsBy (IsPartOf (length pool.old.arities) first (pair_set pool.old.arities lists.now first second side by)) pool.old pool.new }
    ensures cause { IfErr result (IsCause pool.new (IsPartOf (length pool.old.arities) first (pair_set pool.old.arities lists.now first second side by))) }
{
    let froms = lists[first as usize].as_slice();
    let values = lists[second as usize].as_slice();
    let mut kids = Vec::new(pool.allocator());
    for from in froms {
        let test = ValueTest::Far {
            side,
            from: *from,
            by,
        };
        let kid = passing(pool, first + 1, second, values, test)?;
        kids.push(kid)?;
    }
    Ok(kids)
}
