//! The roots of supplies as units see them, each found once.
//!
//! All that a walk up the feeders comes to is kept with its root, so that walks take no more steps in all than there are
//! supplies that a unit comes to.
ghost use Rattle.std.specs.Prelude.{◌≡◌, ◌<◌, IfOk, OnOk, length};
ghost use Rattle.supply_defs.specs.UnitViews.{is_in_port, kind_at};
ghost use Rattle.supply_net.specs.Feeders.{AreFeeders};
ghost use Rattle.unit_lists.specs.Roots.{AddsEnds, AreRoots, IsRootBy, KeepsRoot};

use crate::views::View;
use pw_defs::{List, Memory, Supply, SupplyKind, Unit};
use std::alloc::Global;
use std::collections::BTreeMap;

/// The root of a supply in a unit: that of the first one up its feeders whose root is kept, or the last one.
fn root_up(supplies: &List<Supply>, roots: &BTreeMap<View, u32>, view: View) -> u32
    requires feeders { AreFeeders supplies.now }
    requires there { view.supply < length supplies.now }
    ensures { IsRootBy supplies.now roots.now view result }
{
    let items = supplies.as_slice();
    let mut at = view.supply;
    for step in 0..supplies.len() {
        let here = View {
            unit: view.unit,
            supply: at,
        };
        if let Some(root) = roots.get(&here) {
            return *root;
        }
        match items[at as usize].feeder {
            Some(feeder) => at = feeder,
            None => return at,
        }
    }
    at
}

/// Keeps the root of a supply, for all up its feeders of which none is kept.
fn keep_root(
    supplies: &List<Supply>,
    roots: &mut BTreeMap<View, u32>,
    view: View,
    root: u32,
) -> Result<(), Memory>
    requires feeders { AreFeeders supplies.now }
    requires there { view.supply < length supplies.now }
    ensures { OnOk result (KeepsRoot supplies.now roots.old roots.new view root) }
{
    let items = supplies.as_slice();
    let mut at = view.supply;
    for step in 0..supplies.len() {
        let here = View {
            unit: view.unit,
            supply: at,
        };
        if roots.contains_key(&here) {
            return Ok(());
        }
        roots.insert(here, root)?;
        match items[at as usize].feeder {
            Some(feeder) => at = feeder,
            None => return Ok(()),
        }
    }
    Ok(())
}

/// The root of a supply as a unit sees it.
pub(crate) fn find_root(
    supplies: &List<Supply>,
    roots: &mut BTreeMap<View, u32>,
    view: View,
) -> Result<u32, Memory>
    requires feeders { AreFeeders supplies.now }
    requires there { view.supply < length supplies.now }
    ensures root { IfOk result (IsRootBy supplies.now roots.old view) }
    ensures roots { IfOk result (KeepsRoot supplies.now roots.old roots.new view) }
{
    let root = root_up(supplies, roots, view);
    keep_root(supplies, roots, view, root)?;
    Ok(root)
}

/// Whether a supply is an `in` port of its unit, or an interface supply of the model that stands for it.
fn is_in_port(supplies: &List<Supply>, port: u32) -> bool
    ensures { result ≡ is_in_port (kind_at supplies.now port) }
{
    match supplies.get(port) {
        Some(supply) => matches!(supply.kind, SupplyKind::InPort | SupplyKind::Kept),
        None => false,
    }
}

/// Keeps the `in` ports among a unit's ports as their own roots.
fn add_ends(
    supplies: &List<Supply>,
    roots: &mut BTreeMap<View, u32>,
    unit: u32,
    ports: &[u32],
) -> Result<(), Memory>
    ensures { OnOk result (AddsEnds supplies.now roots.old roots.new unit ports.now) }
{
    for port in ports {
        if !is_in_port(supplies, *port) {
            continue;
        }
        let end = View {
            unit,
            supply: *port,
        };
        roots.insert(end, *port)?;
    }
    Ok(())
}

/// The ends of all units' views, which are their own roots.
pub(crate) fn roots_of_ends(
    alloc: Global,
    supplies: &List<Supply>,
    units: &List<Unit>,
) -> Result<BTreeMap<View, u32>, Memory>
    ensures { IfOk result (AreRoots supplies.now units.now) }
{
    let mut roots = BTreeMap::new(alloc);
    let items = units.as_slice();
    for unit in 0..units.len() {
        let ports = items[unit as usize].ports.as_slice();
        add_ends(supplies, &mut roots, unit, ports)?;
    }
    Ok(roots)
}
