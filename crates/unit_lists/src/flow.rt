//! Values go from view to view along links: which values come to each view.
ghost use Rattle.std.specs.Prelude.{◌≡◌, ◌++◌, ◌∷◌, ◌↔◌, [], List, IfOk, OnOk, false, map};
ghost use Rattle.std.specs.Ordering.{is_gt};
ghost use Rattle.list_defs.specs.Members.{IsIn};
ghost use Rattle.list_defs.specs.Orders.{AreAllRising};
ghost use Rattle.pw_defs.specs.declared.values.Value.{Value as AnyValue};
ghost use Rattle.unit_lists.specs.declared.views.View.{View as AnyView};
ghost use Rattle.unit_lists.specs.Flow.{IsFlow, Reaches};

use crate::views::View;
use pw_defs::{Memory, Value};
use std::alloc::Global;
use std::collections::BTreeSet;

/// What belongs to a view, in order.
pub(crate) fn listed<V: Ord + Copy>(
    alloc: Global,
    pairs: &BTreeSet<(View, V)>,
    view: View,
    least: V,
) -> Result<Vec<V>, Memory>
    requires least { (v : V) → is_gt (V.cmp least v) ≡ false }
    ensures { IfOk result (λ found. AreAllRising V.cmp (λ v. IsIn (view, v) pairs.now.keys) found.items) }
{
    let mut found = Vec::new(alloc);
    for pair in pairs.range((view, least)..) {
        if pair.0 != view {
            return Ok(found);
        }
        found.push(pair.1)?;
    }
    Ok(found)
}

/// Puts a value onto the list of what is to be taken up, at several views.
fn put_on(work: &mut Vec<(View, Value)>, views: &[View], value: Value) -> Result<(), Memory>
    ensures { OnOk result (work.new.items ≡ work.old.items ++ map (λ a. (a, value)) views.now) }
{
    for view in views {
        work.push((*view, value))?;
    }
    Ok(())
}

/// Takes a value of a view up, unless it was taken up before: it goes along each link from there.
fn take_up(
    alloc: Global,
    links: &BTreeSet<(View, View)>,
    reached: &mut BTreeSet<(View, Value)>,
    work: &mut Vec<(View, Value)>,
    view: View,
    value: Value,
) -> Result<(), Memory>
    ensures { OnOk result ((begins : List (AnyView × AnyValue)) → IsFlow begins links.now.keys (work.old.items ++ (view, value) ∷ []) reached.old.keys
        → IsFlow begins links.now.keys work.new.items reached.new.keys) }
{
    if !reached.insert((view, value))? {
        return Ok(());
    }
    let first = View { unit: 0, supply: 0 };
    let nexts = listed(alloc, links, view, first)?;
    put_on(work, nexts.as_slice(), value)?;
    Ok(())
}

/// The values that come to each view, from where they begin.
pub(crate) fn reached(
    alloc: Global,
    begins: Vec<(View, Value)>,
    links: &BTreeSet<(View, View)>,
) -> Result<BTreeSet<(View, Value)>, Memory>
    ensures { IfOk result (λ reached. (a : AnyView) (v : AnyValue) → IsIn (a, v) reached.keys ↔ Reaches begins.items links.now.keys a v) }
{
    let mut reached = BTreeSet::new(alloc);
    let mut work = begins;
    for _ in 0..u64::MAX {
        match work.pop() {
            Some((view, value)) => take_up(alloc, links, &mut reached, &mut work, view, value)?,
            None => return Ok(reached),
        }
    }
    Err(Memory)
}
