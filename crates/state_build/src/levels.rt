//! Sets of rests by the value at one level.

ghost use Rattle.std.specs.Prelude.{◌≡◌, ◌≤◌, ◌<◌, IfOk, IfErr, length, slice_index};
ghost use Rattle.pw_defs.specs.Values.{exceeds};
ghost use Rattle.diagram_defs.specs.Diagrams.{IsNumberFor};
ghost use Rattle.diagram_defs.specs.Parts.{GrowsBy, IsPartOf};
ghost use Rattle.diagram_defs.specs.Answers.{IsCause};
ghost use Rattle.state_build.specs.ValueTests as spec;
ghost use Rattle.state_build.specs.ValueTests.{guarded_set, chosen_set, passing_set};

use pw_defs::{DiagFault, Value};
use state_diagrams::Pool;

/// On which side of a value another one is.
#[derive(Clone, Copy)]
pub(crate) enum Side {
    Above,
    Below,
}

/// A test of the value of one supply.
#[derive(Clone, Copy)]
pub(crate) enum ValueTest {
    Is(Value),
    On,
    /// Both are on, and the value is on that side of `from` by more than `by` microvolts.
    Far { side: Side, from: Value, by: u32 },
}

/// The number of the rests of a level whose value at `at`, which is that level or a later one, passes.
pub(crate) fn passing(
    pool: &mut Pool,
    level: u32,
    at: u32,
    values: &[Value],
    test: ValueTest,
) -> Result<u32, DiagFault>
    requires order { level ≤ at }
    requires level_in { at < length pool.old.arities }
    requires arity { length values.now ≡ slice_index pool.old.arities at }
    ensures number { IfOk result (IsNumberFor pool.new level (passing_set pool.old.arities level at values.now test)) }
    ensures grows { GrowsBy (IsPartOf (length pool.old.arities) level (passing_set pool.old.arities level at values.now test)) pool.old pool.new }
    ensures cause { IfErr result (IsCause pool.new (IsPartOf (length pool.old.arities) level (passing_set pool.old.arities level at values.now test))) }
{
    let n = chosen(pool, at, values, test)?;
    pool.widen(level, at, n)
}

/// The number of the rests of a level whose first value passes.
pub(crate) fn chosen(
    pool: &mut Pool,
    level: u32,
    values: &[Value],
    test: ValueTest,
) -> Result<u32, DiagFault>
    requires level_in { level < length pool.old.arities }
    requires arity { length values.now ≡ slice_index pool.old.arities level }
    ensures number { IfOk result (IsNumberFor pool.new level (chosen_set pool.old.arities level values.now test)) }
    ensures grows { GrowsBy (IsPartOf (length pool.old.arities) level (chosen_set pool.old.arities level values.now test)) pool.old pool.new }
    ensures cause { IfErr result (IsCause pool.new (IsPartOf (length pool.old.arities) level (chosen_set pool.old.arities level values.now test))) }
{
    let mut kids = Vec::new(pool.allocator());
    for value in values {
        let kid = guarded(pool, level + 1, passes(test, *value))?;
        kids.push(kid)?;
    }
    pool.case(level, kids.as_slice())
}

/// The number of all rests of a level, or of none.
fn guarded(pool: &mut Pool, level: u32, some: bool) -> Result<u32, DiagFault>
    requires { level ≤ length pool.old.arities }
    ensures number { IfOk result (IsNumberFor pool.new level (guarded_set pool.old.arities level some)) }
    ensures grows { GrowsBy (IsPartOf (length pool.old.arities) level (guarded_set pool.old.arities level some)) pool.old pool.new }
    ensures cause { IfErr result (IsCause pool.new (IsPartOf (length pool.old.arities) level (guarded_set pool.old.arities level some))) }
{
    let _count = pool.nodes();
    if some { pool.full(level) } else { Ok(0) }
}

fn passes(test: ValueTest, value: Value) -> bool
    ensures { result ≡ spec.passes test value }
{
    match test {
        ValueTest::Is(wanted) => value == wanted,
        ValueTest::On => value != Value::Off,
        ValueTest::Far { side, from, by } => match side {
            Side::Above => is_apart(from, value, by),
            Side::Below => is_apart(value, from, by),
        },
    }
}

/// Whether both are on, and the second is more than `above` higher than the first.
fn is_apart(low: Value, high: Value, above: u32) -> bool
    ensures { result ≡ exceeds low high above }
{
    match (low, high) {
        (Value::On(low), Value::On(high)) => high.saturating_sub(low) > above,
        _ => false,
    }
}
