//! Conditions on the values of supplies.
ghost use Rattle.std.specs.Prelude.{◌≡◌, IfOk};

use crate::values::Value;
use plain_lists::{List, Memory};
use sqlite_items::Boxed;
use std::alloc::Global;

/// A condition on a state. `Apart` holds where both supplies are on, and `high` is more than `above` microvolts
/// higher than `low`.
#[derive(Drop)]
pub enum Cond {
    True,
    Is { supply: u32, value: Value },
    On { supply: u32 },
    Apart { low: u32, high: u32, above: u32 },
    Not(Boxed<Cond>),
    All(List<Cond>),
    Any(List<Cond>),
}

/// A condition that the lines of a unit state.
#[derive(Drop)]
pub struct UnitCond {
    pub unit: u32,
    pub cond: Cond,
}

/// A condition like another one.
#[cycle(copy)]
pub fn copy_cond(alloc: Global, cond: &Cond) -> Result<Cond, Memory>
    ensures { IfOk result (λ same. same ≡ cond.now) }
{
    match cond {
        Cond::True => Ok(Cond::True),
        Cond::Is { supply, value } => Ok(Cond::Is {
            supply: *supply,
            value: *value,
        }),
        Cond::On { supply } => Ok(Cond::On { supply: *supply }),
        Cond::Apart { low, high, above } => Ok(Cond::Apart {
            low: *low,
            high: *high,
            above: *above,
        }),
        Cond::Not(part) => Ok(Cond::Not(Boxed::new(alloc, copy_cond(alloc, part.get())?)?)),
        Cond::All(parts) => Ok(Cond::All(copy_conds(alloc, parts.as_slice())?)),
        Cond::Any(parts) => Ok(Cond::Any(copy_conds(alloc, parts.as_slice())?)),
    }
}

/// Conditions like others, in their order.
#[cycle(copy)]
pub fn copy_conds(alloc: Global, conds: &[Cond]) -> Result<List<Cond>, Memory>
    ensures { IfOk result (λ same. same ≡ conds.now) }
{
    let mut all = List::new(alloc);
    for cond in conds {
        all.push(copy_cond(alloc, cond)?)?;
    }
    Ok(all)
}
