//! What a supply may have: off, or on at a voltage.

ghost use Rattle.std.specs.Prelude.{◌≡◌, ◌≤◌};
ghost use Rattle.pw_defs.specs.Values.{value_cmp, is_on, low_end, high_end, exceeds};

use plain_lists::List;
use std::cmp::Ordering;

/// The value of a supply. `Off` comes before `On`, and `On` by voltage.
#[derive(Clone, Copy, Debug, PartialEq, Eq, PartialOrd, Ord)]
pub enum Value {
    Off,
    /// On, at this many microvolts.
    On(u32),
}

impl Value {
    /// Whether a supply that has the value is on.
    pub fn is_on(self) -> bool
        ensures { result ≡ is_on self }
    {
        matches!(&self, Value::On(_))
    }

    /// The least voltage that a supply with the value can have, in microvolts; `None` where it is off.
    pub fn low_end(self) -> Option<u32>
        ensures { result ≡ low_end self }
    {
        match self {
            Value::Off => None,
            Value::On(volts) => Some(volts),
        }
    }

    /// The greatest voltage that a supply with the value can have, in microvolts; `None` where it is off.
    pub fn high_end(self) -> Option<u32>
        ensures { result ≡ high_end self }
    {
        match self {
            Value::Off => None,
            Value::On(volts) => Some(volts),
        }
    }
}

/// Whether both are on, and `high` can be more than `above` microvolts higher than `low`.
pub fn exceeds(low: Value, high: Value, above: u32) -> bool
    ensures { result ≡ exceeds low high above }
{
    match (low.low_end(), high.high_end()) {
        (Some(low), Some(high)) => (low as u64) + (above as u64) < (high as u64),
        _ => false,
    }
}

/// One value for each supply of an order of supplies.
#[derive(Clone, Debug, Drop)]
pub struct State {
    pub values: List<Value>,
}

/// The order of values: `Off` first, then by voltage. `Ord` is the same.
pub fn compare_values(a: Value, b: Value) -> Ordering
    ensures { result ≡ value_cmp a b }
{
    a.cmp(&b)
}
