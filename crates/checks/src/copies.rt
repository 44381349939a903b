//! The values and conditions of an intent, each kind in a row.
ghost use Rattle.std.specs.Prelude.{◌≡◌, IfOk, map};
ghost use Rattle.checks.specs.LineFindings.{lists_of, conds_of, visible_of};

use pw_defs::{Cond, Intent, List, Memory, Name, Value, copy_cond};
use std::alloc::Global;

/// The conditions that legal states meet.
pub(crate) fn conds_of(alloc: Global, intent: &Intent) -> Result<Vec<Cond>, Memory>
    ensures { IfOk result (λ conds. conds.items ≡ conds_of intent.now) }
{
    let mut conds = Vec::new(alloc);
    for stated in intent.conds.as_slice() {
        conds.push(copy_cond(alloc, &stated.cond)?)?;
    }
    Ok(conds)
}

/// The values of each supply.
pub(crate) fn lists_of(alloc: Global, intent: &Intent) -> Result<Vec<List<Value>>, Memory>
    ensures { IfOk result (λ lists. lists.items ≡ lists_of intent.now) }
{
    let mut lists = Vec::new(alloc);
    for root in intent.lists.as_slice() {
        lists.push(List::from_slice(alloc, root.values.as_slice())?)?;
    }
    Ok(lists)
}

/// The names of the visible supplies.
pub(crate) fn visible_of(alloc: Global, intent: &Intent) -> Result<List<Name>, Memory>
    ensures { IfOk result (λ names. names ≡ visible_of intent.now) }
{
    let mut names = List::new(alloc);
    for supply in intent.supplies.as_slice() {
        names.push(supply.name.clone()?)?;
    }
    Ok(names)
}
