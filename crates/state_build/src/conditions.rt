//! The states at which a condition holds.

ghost use Rattle.std.specs.Prelude.{◌≡◌, ◌<◌, true, map, IfOk, IfErr, length};
ghost use Rattle.std.specs.List.{list_all};
ghost use Rattle.pw_defs.specs.declared.conditions.Cond.TheVariants.{Not};
ghost use Rattle.supply_defs.specs.Conditions.{speaks_below};
ghost use Rattle.diagram_defs.specs.Diagrams.{IsNumberFor};
ghost use Rattle.diagram_defs.specs.Parts.{GrowsBy, IsPartOf};
ghost use Rattle.diagram_defs.specs.Answers.{IsCause};
ghost use Rattle.state_build.specs.Built.{built_set, joined_cond};
ghost use Rattle.state_build.specs.Entries.{IsPartOfEntry};
ghost use Rattle.state_build.specs.ValueTests.{value_set};
ghost use Rattle.diagram_defs.specs.Locals.{IsLocalFor};

use crate::levels::{ValueTest, chosen};
use crate::locals::everything;
use crate::pairs::apart;
use diagram_defs::{Local, Quantifier};
use pw_defs::{Cond, DiagFault, List, Value};
use state_diagrams::Pool;
use state_meets::joined;

/// The number of the whole states at which the condition holds, by the values that their indices stand for. There is
/// a list of values for each level, and the condition's supplies are levels. A condition inside is built from the
/// least supply on that it speaks of, and all parts of an `All` or an `Any` are joined at once.
///
/// `Bound` comes only where the table is full and one of these has no node: a part of the condition's set, or of the
/// set of a condition inside it, or of what first ones of the parts of an `All` or an `Any` make.
pub fn build(pool: &mut Pool, lists: &[List<Value>], cond: &Cond) -> Result<u32, DiagFault>
    requires lists { map length lists.now ≡ pool.old.arities }
    requires levels { speaks_below (length lists.now) cond.now ≡ true }
    ensures number { IfOk result (IsNumberFor pool.new 0 (built_set pool.old.arities lists.now cond.now)) }
    ensures grows { GrowsBy (IsPartOfEntry pool.old.arities lists.now cond.now) pool.old pool.new }
    ensures cause { IfErr result (IsCause pool.new (IsPartOfEntry pool.old.arities lists.now cond.now)) }
{
    let local = local_of(pool, lists, cond)?;
    pool.widen(0, local.level, local.number)
}

/// The whole states at which a condition holds, by the values from the least supply on that it speaks of.
#[cycle(local_of)]
pub fn local_of(pool: &mut Pool, lists: &[List<Value>], cond: &Cond) -> Result<Local, DiagFault>
    requires lists { map length lists.now ≡ pool.old.arities }
    requires levels { speaks_below (length lists.now) cond.now ≡ true }
    ensures number { IfOk result (λ local. IsLocalFor pool.new (built_set pool.old.arities lists.now cond.now) local) }
    ensures grows { GrowsBy (IsPartOfEntry pool.old.arities lists.now cond.now) pool.old pool.new }
    ensures cause { IfErr result (IsCause pool.new (IsPartOfEntry pool.old.arities lists.now cond.now)) }
{
    match cond {
        Cond::True => Ok(everything(pool)),
        Cond::Is { supply, value } => value_states(pool, lists, *supply, ValueTest::Is(*value)),
        Cond::On { supply } => value_states(pool, lists, *supply, ValueTest::On),
        Cond::Apart { low, high, above } => apart(pool, lists, *low, *high, *above),
        Cond::Not(part) => negated(pool, lists, part.get()),
        Cond::All(parts) => joined_of(pool, lists, Quantifier::All, parts.as_slice()),
        Cond::Any(parts) => joined_of(pool, lists, Quantifier::Any, parts.as_slice()),
    }
}

/// The whole states at which the value of a supply passes a test.
fn value_states(
    pool: &mut Pool,
    lists: &[List<Value>],
    supply: u32,
    test: ValueTest,
) -> Result<Local, DiagFault>
    requires lists { map length lists.now ≡ pool.old.arities }
    requires level { supply < length lists.now }
    ensures number { IfOk result (λ local. IsLocalFor pool.new (value_set pool.old.arities lists.now supply test) local) }
    ensures grows { GrowsBy (IsPartOf (length pool.old.arities) 0 (value_set pool.old.arities lists.now supply test)) pool.old pool.new }
    ensures cause { IfErr result (IsCause pool.new (IsPartOf (length pool.old.arities) 0 (value_set pool.old.arities lists.now supply test))) }
{
    let values = lists[supply as usize].as_slice();
    let number = chosen(pool, supply, values, test)?;
    let level = supply;
    Ok(Local { level, number })
}

/// The whole states at which a condition doesn't hold.
#[cycle(local_of)]
fn negated(pool: &mut Pool, lists: &[List<Value>], part: &Cond) -> Result<Local, DiagFault>
    requires lists { map length lists.now ≡ pool.old.arities }
    requires levels { speaks_below (length lists.now) part.now ≡ true }
    ensures number { IfOk result (λ local. IsLocalFor pool.new (built_set pool.old.arities lists.now (Not part.now)) local) }
    ensures grows { GrowsBy (IsPartOfEntry pool.old.arities lists.now (Not part.now)) pool.old pool.new }
    ensures cause { IfErr result (IsCause pool.new (IsPartOfEntry pool.old.arities lists.now (Not part.now))) }
{
    let local = local_of(pool, lists, part)?;
    let number = pool.complement(local.level, local.number)?;
    let level = local.level;
    Ok(Local { level, number })
}

/// The whole states at which all of the conditions hold, or any of them. One walk over the sets of all finds them, unless
/// it would grow too large.
#[cycle(local_of)]
fn joined_of(
    pool: &mut Pool,
    lists: &[List<Value>],
    which: Quantifier,
    parts: &[Cond],
) -> Result<Local, DiagFault>
    requires lists { map length lists.now ≡ pool.old.arities }
    requires levels { list_all (speaks_below (length lists.now)) parts.now ≡ true }
    ensures number { IfOk result (λ local. IsLocalFor pool.new (built_set pool.old.arities lists.now (joined_cond which parts.now)) local) }
    ensures grows { GrowsBy (IsPartOfEntry pool.old.arities lists.now (joined_cond which parts.now)) pool.old pool.new }
    ensures cause { IfErr result (IsCause pool.new (IsPartOfEntry pool.old.arities lists.now (joined_cond which parts.now))) }
{
    let mut sets = Vec::new(pool.allocator());
    for part in parts {
        let set = local_of(pool, lists, part)?;
        sets.push(set)?;
    }
    joined(pool, which, sets.as_slice())
}
