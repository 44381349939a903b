//! Whether a legal state shows what is watched on a chain, and the finding that it makes.
ghost use Rattle.std.specs.Prelude.{◌≡◌, map, option_and_then, slice_get, IfOk};
ghost use Rattle.std.specs.Option.{option_copied};
ghost use Rattle.supply_defs.specs.Conditions.{holds};
ghost use Rattle.pw_defs.specs.Values.{is_on};
ghost use Rattle.supply_defs.specs.States.{value_in};
ghost use Rattle.checks.specs.LineWatches.{set_on, isolation_missing, set_of};
ghost use Rattle.checks.specs.LineFindings.{bit_name};
ghost use Rattle.checks.specs.Ends.{ends_of};
ghost use Rattle.checks.specs.Judging.{shown_by, missing_on, findings_of};
ghost use Rattle.checks.specs.Seen.{sides_of, IsFirstShown, AreFirstShown};

use crate::chain_ends::ChainEnds;
use pw_defs::{Design, Finding, Intent, Kind, List, Memory, Name, State, SupplySet, Value};
use std::alloc::Global;
use std::collections::HashMap;

/// The sets of a chain's driver and receiver.
#[derive(Clone, Copy, PartialEq, Eq, Hash)]
pub(crate) struct Sides {
    pub driver: SupplySet,
    pub receiver: SupplySet,
}

/// Whether a supply is on in a state.
fn is_on(state: &[Value], supply: u32) -> bool
    ensures { result ≡ is_on (value_in state.now supply) }
{
    match state.get(supply as usize) {
        Some(Value::On(_)) => true,
        Some(Value::Off) | None => false,
    }
}

/// Whether a set is on: its power, and its ground if it has one.
#[tactic(auto, using(supply_defs::proofs::Meaning::holding))]
fn set_is_on(state: &[Value], set: SupplySet) -> bool
    ensures { result ≡ holds (value_in state.now) (set_on set) }
{
    match set.ground {
        Some(supply) => is_on(state, set.power) && is_on(state, supply),
        None => is_on(state, set.power),
    }
}

/// Whether isolation is missing in a state between these sets.
#[tactic(auto, using(supply_defs::proofs::Meaning::holding))]
fn shows(state: &[Value], sides: Sides) -> bool
    ensures { result ≡ holds (value_in state.now) (isolation_missing sides.driver sides.receiver) }
{
    !set_is_on(state, sides.driver) && set_is_on(state, sides.receiver)
}

/// The place of the first of the states in which isolation is missing between these sets.
fn first_shown(states: &[State], sides: Sides) -> Option<usize>
    ensures { IsFirstShown states.now sides result }
{
    for (place, state) in states.iter().enumerate() {
        if shows(state.values.as_slice(), sides) {
            return Some(place);
        }
    }
    None
}

/// The same, which goes through the states only where these sets weren't seen before.
fn first_shown_once(
    states: &[State],
    sides: Sides,
    seen: &mut HashMap<Sides, Option<usize>>,
) -> Result<Option<usize>, Memory>
    requires { AreFirstShown states.now seen.old }
    ensures place { IfOk result (IsFirstShown states.now sides) }
    ensures seen { AreFirstShown states.now seen.new }
{
    if let Some(place) = seen.get(&sides) {
        return Ok(*place);
    }
    let place = first_shown(states, sides);
    seen.insert(sides, place)?;
    Ok(place)
}

/// The set of a leaf cell, or of a port of the top.
fn set_of(intent: &Intent, inst: u32) -> Option<SupplySet>
    ensures { result ≡ set_of intent.now inst }
{
    let domain = intent.domain_of.get(inst)?;
    let domain = intent.domains.get(*domain)?;
    Some(domain.primary)
}

/// The name of a bit.
fn bit_name(alloc: Global, design: &Design, bit: u32) -> Result<Name, Memory>
    ensures { IfOk result (λ name. name ≡ bit_name design.now bit) }
{
    match design.bits.get(bit) {
        Some(bit) => Ok(bit.name.clone()?),
        None => Ok(Name::from_slice(alloc, &[])?),
    }
}

/// The sets of a chain's ends.
fn sides_of(intent: &Intent, ends: &ChainEnds) -> Option<Sides>
    ensures { result ≡ sides_of intent.now (ends_of ends.now) }
{
    let driver = set_of(intent, ends.driver.inst)?;
    let receiver = set_of(intent, ends.receiver.inst)?;
    Some(Sides { driver, receiver })
}

/// The first of the states that shows what is watched on a chain.
fn shown_by<'a>(
    intent: &Intent,
    states: &'a [State],
    ends: &ChainEnds,
    seen: &mut HashMap<Sides, Option<usize>>,
) -> Result<Option<&'a State>, Memory>
    requires { AreFirstShown states.now seen.old }
    ensures state { IfOk result (λ state. option_copied state ≡ shown_by intent.now states.now (ends_of ends.now)) }
    ensures seen { AreFirstShown states.now seen.new }
{
    match sides_of(intent, ends) {
        Some(sides) => {
            let place = first_shown_once(states, sides, seen)?;
            Ok(state_at(states, place))
        }
        None => Ok(None),
    }
}

/// The state at a place, if there is one.
fn state_at(states: &[State], place: Option<usize>) -> Option<&State>
    ensures { option_copied result ≡ option_and_then (slice_get states.now) place }
{
    states.get(place?)
}

/// The finding that isolation is missing on a chain, as a state shows.
fn missing_on(
    alloc: Global,
    design: &Design,
    ends: &ChainEnds,
    state: &State,
) -> Result<Finding, Memory>
    ensures { IfOk result (λ finding. finding ≡ missing_on design.now (ends_of ends.now) state.now) }
{
    Ok(Finding {
        kind: Kind::IsoMissing,
        receiver: bit_name(alloc, design, ends.receiver_bit)?,
        driver: bit_name(alloc, design, ends.driver_bit)?,
        forced: false,
        witness: Some(State {
            values: List::from_slice(alloc, state.values.as_slice())?,
        }),
    })
}

/// The findings of the chains, in their order.
pub(crate) fn findings_of(
    alloc: Global,
    design: &Design,
    intent: &Intent,
    states: &[State],
    chains: &[ChainEnds],
) -> Result<Vec<Finding>, Memory>
    ensures { IfOk result (λ found. found.items ≡ findings_of design.now intent.now states.now (map ends_of chains.now)) }
{
    let mut found = Vec::new(alloc);
    let mut seen = HashMap::new(alloc);
    for ends in chains {
        if let Some(state) = shown_by(intent, states, ends, &mut seen)? {
            found.push(missing_on(alloc, design, ends, state)?)?;
        }
    }
    Ok(found)
}
