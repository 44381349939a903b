//! What a network says of roots as units see them, gathered from its supplies and units one by one.
ghost use Rattle.std.specs.Prelude.{◌≡◌, ◌<◌, ◌↔◌, ℕ, List, Some, IfOk, OnOk, IsTrue, length, slice_get};
ghost use Rattle.list_defs.specs.Members.{IsIn};
ghost use Rattle.pw_defs.specs.declared.intent.Unit.{Unit as AnyUnit};
ghost use Rattle.pw_defs.specs.declared.supplies.Said.{Said as AnySaid};
ghost use Rattle.pw_defs.specs.declared.supplies.Supply.{Supply as AnySupply};
ghost use Rattle.pw_defs.specs.declared.supplies.SupplyKind.TheVariants.{SwitchOut};
ghost use Rattle.supply_defs.specs.UnitLists.{IsSeen};
ghost use Rattle.supply_defs.specs.UnitViews.{kind_at};
ghost use Rattle.supply_defs.specs.Values.{IsMentioned, IsNamedInput, IsPortWithin, IsSwitchOutput};
ghost use Rattle.supply_net.specs.Feeders.{AreFeeders};
ghost use Rattle.unit_lists.specs.Kept.{Gains};
ghost use Rattle.unit_lists.specs.Plans.{Always, IsInputPlanned, IsPortPlanned, IsSaidPlanned, IsSeenPlanned, IsSupplyPlanned, IsUnitPlanned, IsWholePlan, Meets, Plans};
ghost use Rattle.unit_lists.specs.Ranges.{AreInputsInRange, ArePortsInRange};

use crate::roots::{find_root, roots_of_ends};
use crate::views::View;
use pw_defs::{List, Memory, Said, Supply, SupplyKind, Unit, Value};
use std::alloc::Global;
use std::collections::{BTreeMap, BTreeSet};

/// What is known of roots as units see them.
#[derive(Drop)]
pub(crate) struct Plan {
    /// The roots of supplies that were found.
    pub(crate) roots: BTreeMap<View, u32>,
    /// Those that their unit sees.
    pub(crate) seen: BTreeSet<View>,
    /// All that were come to.
    pub(crate) met: BTreeSet<View>,
    /// Those on which something is given.
    pub(crate) given: BTreeSet<View>,
    /// The values that lines mention on them.
    pub(crate) begins: Vec<(View, Value)>,
    /// Pairs of which the second has all values of the first.
    pub(crate) links: BTreeSet<(View, View)>,
}

/// Adds a root to a set.
fn add_view(views: &mut BTreeSet<View>, view: View) -> Result<(), Memory>
    ensures { OnOk result (Gains views.old.keys views.new.keys view) }
{
    views.insert(view)?;
    Ok(())
}

/// Adds a link.
fn add_link(links: &mut BTreeSet<(View, View)>, from: View, to: View) -> Result<(), Memory>
    ensures { OnOk result (Gains links.old.keys links.new.keys (from, to)) }
{
    links.insert((from, to))?;
    Ok(())
}

/// The root of a supply as a unit sees it, seen in the same unit.
fn meet(plan: &mut Plan, supplies: &List<Supply>, view: View) -> Result<View, Memory>
    requires feeders { AreFeeders supplies.now }
    requires there { view.supply < length supplies.now }
    ensures { IfOk result (Meets supplies.now plan.old plan.new view) }
{
    let supply = find_root(supplies, &mut plan.roots, view)?;
    let root = View {
        unit: view.unit,
        supply,
    };
    add_view(&mut plan.met, root)?;
    Ok(root)
}

/// Adds the root of a supply that a unit sees.
fn plan_seen(plan: &mut Plan, supplies: &List<Supply>, view: View) -> Result<(), Memory>
    requires feeders { AreFeeders supplies.now }
    requires there { view.supply < length supplies.now }
    ensures { OnOk result (Plans supplies.now plan.old plan.new (λ units. IsSeen supplies.now units view.unit view.supply)
        (λ units. IsSeenPlanned supplies.now units plan.new view.unit view.supply)) }
{
    let root = meet(plan, supplies, view)?;
    add_view(&mut plan.seen, root)?;
    Ok(())
}

/// Adds a value that a line mentions on a supply.
fn plan_said(
    plan: &mut Plan,
    supplies: &List<Supply>,
    supply: u32,
    said: Said,
) -> Result<(), Memory>
    requires feeders { AreFeeders supplies.now }
    requires there { supply < length supplies.now }
    ensures { OnOk result (Plans supplies.now plan.old plan.new (λ units. IsMentioned supplies.now said.unit supply said.value)
        (λ units. IsSaidPlanned supplies.now units plan.new supply said)) }
{
    let view = View {
        unit: said.unit,
        supply,
    };
    let root = meet(plan, supplies, view)?;
    add_view(&mut plan.given, root)?;
    plan.begins.push((root, said.value))?;
    Ok(())
}

/// Adds a link from the root of an input to the output of its switch.
fn plan_input(
    plan: &mut Plan,
    supplies: &List<Supply>,
    output: View,
    input: u32,
) -> Result<(), Memory>
    requires feeders { AreFeeders supplies.now }
    requires there { input < length supplies.now }
    ensures { OnOk result (Plans supplies.now plan.old plan.new (λ units. IsSwitchOutput supplies.now output.unit output.supply × IsNamedInput supplies.now output.supply input)
        (λ units. IsInputPlanned supplies.now units plan.new output.unit output.supply input)) }
{
    let view = View {
        unit: output.unit,
        supply: input,
    };
    let root = meet(plan, supplies, view)?;
    add_link(&mut plan.links, root, output)?;
    Ok(())
}

/// Adds a link from the root of a macro's port, as the macro sees it, to its root as the unit sees it that the macro
/// stands in.
fn plan_port(
    plan: &mut Plan,
    supplies: &List<Supply>,
    unit: u32,
    inner: u32,
    port: u32,
) -> Result<(), Memory>
    requires feeders { AreFeeders supplies.now }
    requires there { port < length supplies.now }
    ensures { OnOk result (Plans supplies.now plan.old plan.new (λ units. IsPortWithin units unit inner port)
        (λ units. IsPortPlanned supplies.now units plan.new unit inner port)) }
{
    let outside = View { unit, supply: port };
    let inside = View {
        unit: inner,
        supply: port,
    };
    let root = meet(plan, supplies, outside)?;
    let inner_root = meet(plan, supplies, inside)?;
    add_view(&mut plan.seen, root)?;
    add_view(&mut plan.given, root)?;
    add_link(&mut plan.links, inner_root, root)?;
    Ok(())
}

/// Adds the values that lines mention on a supply.
fn plan_saids(
    plan: &mut Plan,
    supplies: &List<Supply>,
    supply: u32,
    saids: &[Said],
) -> Result<(), Memory>
    requires feeders { AreFeeders supplies.now }
    requires there { supply < length supplies.now }
    ensures { OnOk result (Plans supplies.now plan.old plan.new (λ units. (said : AnySaid) → IsIn said saids.now → IsMentioned supplies.now said.unit supply said.value)
        (λ units. (said : AnySaid) → IsIn said saids.now → IsSaidPlanned supplies.now units plan.new supply said)) }
{
    for said in saids {
        plan_said(plan, supplies, supply, *said)?;
    }
    Ok(())
}

/// Adds links from the roots of inputs to the output of their switch.
fn plan_inputs(
    plan: &mut Plan,
    supplies: &List<Supply>,
    output: View,
    inputs: &[u32],
) -> Result<(), Memory>
    requires feeders { AreFeeders supplies.now }
    requires there { (input : ℕ) → IsIn input inputs.now → input < length supplies.now }
    ensures { OnOk result (Plans supplies.now plan.old plan.new
        (λ units. (input : ℕ) → IsIn input inputs.now → IsSwitchOutput supplies.now output.unit output.supply × IsNamedInput supplies.now output.supply input)
        (λ units. (input : ℕ) → IsIn input inputs.now → IsInputPlanned supplies.now units plan.new output.unit output.supply input)) }
{
    for input in inputs {
        plan_input(plan, supplies, output, *input)?;
    }
    Ok(())
}

/// Adds links from a macro's ports.
fn plan_ports(
    plan: &mut Plan,
    supplies: &List<Supply>,
    unit: u32,
    inner: u32,
    ports: &[u32],
) -> Result<(), Memory>
    requires feeders { AreFeeders supplies.now }
    requires there { (port : ℕ) → IsIn port ports.now → port < length supplies.now }
    ensures { OnOk result (Plans supplies.now plan.old plan.new (λ units. (port : ℕ) → IsIn port ports.now → IsPortWithin units unit inner port)
        (λ units. (port : ℕ) → IsIn port ports.now → IsPortPlanned supplies.now units plan.new unit inner port)) }
{
    for port in ports {
        plan_port(plan, supplies, unit, inner, *port)?;
    }
    Ok(())
}

/// Whether a supply is the output of a switch.
pub(crate) fn is_switch_output(supplies: &List<Supply>, number: u32) -> bool
    ensures { IsTrue result ↔ (kind_at supplies.now number ≡ Some SwitchOut) }
{
    match supplies.get(number) {
        Some(supply) => matches!(supply.kind, SupplyKind::SwitchOut),
        None => false,
    }
}

/// Adds what is said of a supply, and what its switch gives it.
fn plan_supply(plan: &mut Plan, supplies: &List<Supply>, number: u32) -> Result<(), Memory>
    requires feeders { AreFeeders supplies.now }
    requires inputs { AreInputsInRange supplies.now }
    requires there { number < length supplies.now }
    ensures { OnOk result (Plans supplies.now plan.old plan.new Always
        (λ units. (s : AnySupply) → slice_get supplies.now number ≡ Some s → IsSupplyPlanned supplies.now units plan.new number s)) }
{
    let supply = &supplies.as_slice()[number as usize];
    let own = View {
        unit: supply.unit,
        supply: number,
    };
    plan_seen(plan, supplies, own)?;
    plan_saids(plan, supplies, number, supply.said.as_slice())?;
    if !is_switch_output(supplies, number) {
        return Ok(());
    }
    plan_inputs(plan, supplies, own, supply.inputs.as_slice())?;
    Ok(())
}

/// Adds links from the ports of a unit, where it stands in another one.
fn plan_unit(
    plan: &mut Plan,
    supplies: &List<Supply>,
    inner: u32,
    unit: &Unit,
) -> Result<(), Memory>
    requires feeders { AreFeeders supplies.now }
    requires there { (port : ℕ) → IsIn port unit.now.ports → port < length supplies.now }
    ensures { OnOk result (Plans supplies.now plan.old plan.new (λ units. slice_get units inner ≡ Some unit.now)
        (λ units. IsUnitPlanned supplies.now units plan.new inner unit.now)) }
{
    let Some(outer) = unit.outer else {
        return Ok(());
    };
    plan_ports(plan, supplies, outer, inner, unit.ports.as_slice())?;
    Ok(())
}

/// Adds what is said of all supplies.
fn plan_supplies(plan: &mut Plan, supplies: &List<Supply>) -> Result<(), Memory>
    requires feeders { AreFeeders supplies.now }
    requires inputs { AreInputsInRange supplies.now }
    ensures { OnOk result (Plans supplies.now plan.old plan.new Always
        (λ units. (n : ℕ) (s : AnySupply) → slice_get supplies.now n ≡ Some s → IsSupplyPlanned supplies.now units plan.new n s)) }
{
    for number in 0..supplies.len() {
        plan_supply(plan, supplies, number)?;
    }
    Ok(())
}

/// Adds the links from the ports of all units.
fn plan_units(plan: &mut Plan, supplies: &List<Supply>, units: &List<Unit>) -> Result<(), Memory>
    requires feeders { AreFeeders supplies.now }
    requires ports { ArePortsInRange supplies.now units.now }
    ensures { OnOk result (Plans supplies.now plan.old plan.new (λ all. all ≡ units.now)
        (λ all. (n : ℕ) (u : AnyUnit) → slice_get units.now n ≡ Some u → IsUnitPlanned supplies.now all plan.new n u)) }
{
    let items = units.as_slice();
    for inner in 0..units.len() {
        plan_unit(plan, supplies, inner, &items[inner as usize])?;
    }
    Ok(())
}

/// What a network says of roots as units see them.
pub(crate) fn plan_of(
    alloc: Global,
    supplies: &List<Supply>,
    units: &List<Unit>,
) -> Result<Plan, Memory>
    requires feeders { AreFeeders supplies.now }
    requires inputs { AreInputsInRange supplies.now }
    requires ports { ArePortsInRange supplies.now units.now }
    ensures { IfOk result (IsWholePlan supplies.now units.now) }
{
    let roots = roots_of_ends(alloc, supplies, units)?;
    let mut plan = Plan {
        roots,
        seen: BTreeSet::new(alloc),
        met: BTreeSet::new(alloc),
        given: BTreeSet::new(alloc),
        begins: Vec::new(alloc),
        links: BTreeSet::new(alloc),
    };
    plan_supplies(&mut plan, supplies)?;
    plan_units(&mut plan, supplies, units)?;
    Ok(plan)
}
