//! Whether a condition holds in a state.
ghost use Rattle.std.specs.Prelude.{◌≡◌, ◌<◌, true, length};
ghost use Rattle.std.specs.List.{list_all, list_any};
ghost use Rattle.supply_defs.specs.Conditions.{holds, speaks_below};
ghost use Rattle.pw_defs.specs.Values.{exceeds, is_on, same_value};
ghost use Rattle.supply_defs.specs.States.{value_in};

use pw_defs::{Cond, Value};

/// Whether the condition holds in a state, which has a value for each supply that the condition names.
#[cycle(eval)]
#[tactic(auto, using(supply_defs::proofs::Meaning::holding, supply_defs::proofs::Meaning::speaking))]
pub fn eval(cond: &Cond, values: &[Value]) -> bool
    requires { speaks_below (length values.now) cond.now ≡ true }
    ensures { result ≡ holds (value_in values.now) cond.now }
{
    match cond {
        Cond::True => true,
        Cond::Is { supply, value } => is_same(value_at(values, *supply), *value),
        Cond::On { supply } => is_on(value_at(values, *supply)),
        Cond::Apart { low, high, above } => {
            is_apart(value_at(values, *low), value_at(values, *high), *above)
        }
        Cond::Not(part) => !eval(part.get(), values),
        Cond::All(parts) => all_hold(parts.as_slice(), values),
        Cond::Any(parts) => any_holds(parts.as_slice(), values),
    }
}

/// Whether all of the conditions hold.
#[cycle(eval)]
pub fn all_hold(conds: &[Cond], values: &[Value]) -> bool
    requires { list_all (speaks_below (length values.now)) conds.now ≡ true }
    ensures { result ≡ list_all (holds (value_in values.now)) conds.now }
{
    for cond in conds {
        if !eval(cond, values) {
            return false;
        }
    }
    true
}

/// Whether one of the conditions holds.
#[cycle(eval)]
fn any_holds(conds: &[Cond], values: &[Value]) -> bool
    requires { list_all (speaks_below (length values.now)) conds.now ≡ true }
    ensures { result ≡ list_any (holds (value_in values.now)) conds.now }
{
    for cond in conds {
        if eval(cond, values) {
            return true;
        }
    }
    false
}

/// The value of a supply in a state.
fn value_at(values: &[Value], supply: u32) -> Value
    requires { supply < length values.now }
    ensures { result ≡ value_in values.now supply }
{
    values[supply as usize]
}

fn is_same(a: Value, b: Value) -> bool
    ensures { result ≡ same_value a b }
{
    a == b
}

fn is_on(value: Value) -> bool
    ensures { result ≡ is_on value }
{
    value != Value::Off
}

/// Whether both are on, and the second is more than `above` higher than the first.
fn is_apart(low: Value, high: Value, above: u32) -> bool
    ensures { result ≡ exceeds low high above }
{
    match (low, high) {
        (Value::On(low), Value::On(high)) => high.saturating_sub(low) > above,
        _ => false,
    }
}
