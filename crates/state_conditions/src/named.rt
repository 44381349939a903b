//! The states that an expression may name, found by the names of their objects and their own.
ghost use Rattle.std.specs.Prelude.{◌≡◌, ◌∷◌, ◌++◌, [], List, length, IfOk};
ghost use Rattle.pw_defs.specs.declared.terms.NamedState.{NamedState as State};
ghost use Rattle.state_conditions.specs.Keys.{key_of, AreFound, first_in, own_key};

use name_index::NameIndex;
use pw_defs::{List, Memory, NamedState};
use std::alloc::Global;

/// The different pairs of an object and a state, as keys, and for each the number of the first state that has it.
#[derive(Drop)]
pub(crate) struct Found {
    pub(crate) keys: NameIndex,
    pub(crate) firsts: Vec<u32>,
}

/// The name of an object and that of a state in one. The length of the first is put in front, so that no two pairs have
/// one key.
#[tactic(auto, unfolding(crate::specs::Keys::key_of))]
fn key(alloc: Global, object: &[u8], state: &[u8]) -> Result<Vec<u8>, Memory>
    ensures { IfOk result (λ key. key.items ≡ key_of object.now state.now) }
{
    let length = object.len() as u64;
    let mut key = Vec::from_slice(alloc, &length.to_be_bytes())?;
    key.extend_from_slice(object)?;
    key.extend_from_slice(state)?;
    Ok(key)
}

/// Adds one more state, unless an earlier one has its key.
fn add(alloc: Global, found: &mut Found, number: u32, state: &NamedState) -> Result<(), Memory>
    ensures { IfOk result (λ _. (states : List State) → number ≡ length states → AreFound states found.old → AreFound (states ++ state.now ∷ []) found.new) }
{
    let key = key(alloc, state.object.as_slice(), state.state.as_slice())?;
    let place = found.keys.number(key.as_slice())?;
    if place as usize == found.firsts.len() {
        found.firsts.push(number)?;
    }
    Ok(())
}

/// The states by their keys.
pub(crate) fn found_in(alloc: Global, states: &List<NamedState>) -> Result<Found, Memory>
    ensures { IfOk result (λ found. AreFound states.now found) }
{
    let mut found = Found {
        keys: NameIndex::new(alloc),
        firsts: Vec::new(alloc),
    };
    for number in 0..states.len() {
        let state = states.get(number).ok_or(Memory)?;
        add(alloc, &mut found, number, state)?;
    }
    Ok(found)
}

/// The number of the first state with these names.
pub(crate) fn first(
    alloc: Global,
    found: &Found,
    object: &[u8],
    state: &[u8],
) -> Result<Option<u32>, Memory>
    ensures { IfOk result (λ number. number ≡ first_in found.now (key_of object.now state.now)) }
{
    let key = key(alloc, object, state)?;
    match found.keys.find(key.as_slice()) {
        Some(place) => Ok(found.firsts.get(place as usize).copied()),
        None => Ok(None),
    }
}
