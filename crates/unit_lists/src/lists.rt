//! The lists of values, from a plan and the values that come to its roots.
ghost use Rattle.std.specs.Prelude.{◌≡◌, ◌↔◌, IfOk, IsTrue, OnOk, Some};
ghost use Rattle.list_defs.specs.Members.{IsIn};
ghost use Rattle.pw_defs.specs.declared.supplies.SupplyKind.TheVariants.{SwitchOut};
ghost use Rattle.supply_defs.specs.Network.{HasFeedersInRange, HasNoFeederRing};
ghost use Rattle.supply_defs.specs.UnitLists.{AreUnitLists};
ghost use Rattle.supply_defs.specs.UnitViews.{kind_at};
ghost use Rattle.unit_lists.specs.Lists.{AreListsOf, BeginsBy};
ghost use Rattle.unit_lists.specs.Ranges.{AreInputsInRange, ArePortsInRange};

use crate::flow::{listed, reached};
use crate::plans::{is_switch_output, plan_of};
use crate::views::View;
use pw_defs::{List, Memory, RootList, Supply, Unit, Value};
use std::alloc::Global;
use std::collections::BTreeSet;

/// Whether a root may be on at 0 V: nothing is given on it, and it is no switch output.
fn may_be_zero(supplies: &List<Supply>, given: &BTreeSet<View>, view: View) -> bool
    ensures { IsTrue result ↔ (¬ IsIn view given.now.keys × ¬ (kind_at supplies.now view.supply ≡ Some SwitchOut)) }
{
    !given.contains(&view) && !is_switch_output(supplies, view.supply)
}

/// Adds what each root may have: it may be off, and where nothing is given on it, it may be on at 0 V.
fn add_own_values(
    supplies: &List<Supply>,
    met: &BTreeSet<View>,
    given: &BTreeSet<View>,
    begins: &mut Vec<(View, Value)>,
) -> Result<(), Memory>
    ensures { OnOk result (BeginsBy supplies.now met.now.keys given.now.keys begins.old.items begins.new.items) }
{
    for view in met {
        begins.push((*view, Value::Off))?;
        if may_be_zero(supplies, given, *view) {
            begins.push((*view, Value::On(0)))?;
        }
    }
    Ok(())
}

/// The lists of some roots, in their order.
fn lists_of(
    alloc: Global,
    seen: &BTreeSet<View>,
    values: &BTreeSet<(View, Value)>,
) -> Result<List<RootList>, Memory>
    ensures { IfOk result (AreListsOf seen.now.keys values.now.keys) }
{
    let mut lists = List::new(alloc);
    for view in seen {
        let found = listed(alloc, values, *view, Value::Off)?;
        let Some(values) = List::from_vec(found) else {
            return Err(Memory);
        };
        lists.push(RootList {
            unit: view.unit,
            root: view.supply,
            values,
        })?;
    }
    Ok(lists)
}

/// The lists of values of a network: by unit, and within a unit by root, one for each root that the unit sees.
///
/// Switches may stand in a ring. A unit whose number is past `units` is taken for one without ports.
pub fn unit_lists(
    alloc: Global,
    supplies: &List<Supply>,
    units: &List<Unit>,
) -> Result<List<RootList>, Memory>
    requires in_range { HasFeedersInRange supplies.now }
    requires ringless { HasNoFeederRing supplies.now }
    requires inputs { AreInputsInRange supplies.now }
    requires ports { ArePortsInRange supplies.now units.now }
    ensures { IfOk result (AreUnitLists supplies.now units.now) }
{
    let mut plan = plan_of(alloc, supplies, units)?;
    add_own_values(supplies, &plan.met, &plan.given, &mut plan.begins)?;
    let values = reached(alloc, plan.begins, &plan.links)?;
    let lists = lists_of(alloc, &plan.seen, &values)?;
    Ok(lists)
}
