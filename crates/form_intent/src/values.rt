//! The values that a supply may have.
ghost use Rattle.std.specs.Prelude.{◌≡◌, true, false, length, nat_le, IfOk, OnOk, MatchOption};
ghost use Rattle.form_intent.specs.Script.{put_value, values_of};

use pw_defs::{List, Memory, Value, compare_values};
use std::alloc::{AllocError, Global};
use std::cmp::Ordering;

/// How many values a supply may have at most.
const MAX_VALUES: usize = 64;

/// The values of a supply on which these are stated, or `None` exactly where there are more than 64.
pub fn values_of(alloc: Global, stated: &[Value]) -> Result<Option<List<Value>>, Memory>
    ensures { IfOk result (λ values. MatchOption values
        (nat_le (length (values_of stated.now)) 64 ≡ false)
        (λ values. (nat_le (length (values_of stated.now)) 64 ≡ true) × (values ≡ values_of stated.now))) }
{
    let mut values = Vec::new(alloc);
    values.push(Value::Off)?;
    if stated.is_empty() {
        values.push(Value::On(0))?;
    }
    for value in stated {
        put_value(*value, &mut values)?;
        if values.len() > MAX_VALUES {
            return Ok(None);
        }
    }
    Ok(List::from_vec(values))
}

/// Puts a value at its place among values that rise, if it is not there.
fn put_value(value: Value, values: &mut Vec<Value>) -> Result<(), AllocError>
    ensures { OnOk result (values.new.items ≡ put_value value values.old.items) }
{
    for (place, other) in values.iter().enumerate() {
        match compare_values(value, *other) {
            Ordering::Less => {
                values.insert(place, value)?;
                return Ok(());
            }
            Ordering::Equal => return Ok(()),
            Ordering::Greater => {}
        }
    }
    values.push(value)?;
    Ok(())
}
