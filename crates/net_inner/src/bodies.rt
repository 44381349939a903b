//! The names of the bits of a body.
ghost use Rattle.std.specs.Prelude.{◌≡◌, ◌≤◌, ◌++◌, ◌∷◌, [], ℕ, false, List, IfOk, MatchBool, MatchOption, map, slice_get};
ghost use Rattle.design_defs.specs.Hierarchy.{Sources, HasBody};
ghost use Rattle.design_defs.specs.Ranges.{bit_name, width};
ghost use Rattle.list_defs.specs.Members.{all_differ, same_name};
ghost use Rattle.net_places.specs.Nets.{OwnNet, bits_of_net};
ghost use Rattle.net_places.specs.Plans.{names_in};
ghost use Rattle.net_inner.specs.Inside.{HasPlans, local_name, names_of_bits, nets_in};
ghost use Rattle.net_inner.specs.Naming.{AddsNames};
ghost use Rattle.net_inner.specs.Pairs.{names_from};

use name_index::NameIndex;
use net_bits::{Placed, put_local_name};
use net_places::NetRow;
use pw_defs::{Body, Bytes, Memory};
use std::alloc::Global;

/// How many bits a net has.
fn width(range: Option<(u32, u32)>) -> u64
    ensures is { result ≡ width range }
    ensures few { result ≤ 4294967296 }
{
    match range {
        Some((left, right)) => u64::from(left.abs_diff(right)) + 1,
        None => 1,
    }
}

/// Adds the name of a bit of a net: whether it wasn't there yet.
fn add_bit(
    alloc: Global,
    placed: &Placed,
    body: Body,
    net: NetRow,
    place: u32,
    index: &mut NameIndex,
) -> Result<bool, Memory>
    ensures { IfOk result (λ new. (s : Sources) → HasPlans s placed.now → (name : List ℕ)
        → slice_get (names_in placed.now.modules.now.symbols s body) net.name ≡ Some name → AddsNames (bit_name name net.range place ∷ []) index.old index.new new) }
{
    let mut name = Bytes::new(alloc);
    put_local_name(placed, body, net.name, net.range, place, &mut name)?;
    let new = index.add(name.as_slice())?;
    Ok(new)
}

/// Adds the names of the bits of a net: whether none of them was there.
fn add_net(
    alloc: Global,
    placed: &Placed,
    body: Body,
    net: NetRow,
    index: &mut NameIndex,
) -> Result<bool, Memory>
    ensures { IfOk result (λ new. (s : Sources) → HasPlans s placed.now → (name : List ℕ)
        → slice_get (names_in placed.now.modules.now.symbols s body) net.name ≡ Some name → AddsNames (names_from name net.range) index.old index.new new) }
{
    for place in 0..width(net.range) {
        if !add_bit(alloc, placed, body, net, place as u32, index)? {
            return Ok(false);
        }
    }
    Ok(true)
}

/// Adds a net of a body by its number.
fn add_net_at(
    alloc: Global,
    placed: &Placed,
    body: Body,
    net: u32,
    index: &mut NameIndex,
) -> Result<bool, Memory>
    ensures { IfOk result (λ new. (s : Sources) → HasPlans s placed.now → HasBody s body
        → (n : OwnNet) → slice_get (nets_in s placed.now body) net ≡ Some n → AddsNames (map (local_name s body) (bits_of_net n)) index.old index.new new) }
{
    let Some(row) = placed.plans.net(body, net) else {
        return Err(Memory);
    };
    let new = add_net(alloc, placed, body, row, index)?;
    Ok(new)
}

/// The index of the names of the bits of a body, in the order of their numbers, `None` where two have one name.
pub(crate) fn index_of(
    alloc: Global,
    placed: &Placed,
    body: Body,
) -> Result<Option<NameIndex>, Memory>
    ensures { IfOk result (λ index. (s : Sources) → HasPlans s placed.now → HasBody s body
        → MatchOption index (all_differ same_name (names_of_bits s placed.now body) ≡ false) (λ i. i ≡ names_of_bits s placed.now body)) }
{
    let mut index = NameIndex::new(alloc);
    for net in 0..placed.plans.nets(body) {
        if !add_net_at(alloc, placed, body, net, &mut index)? {
            return Ok(None);
        }
    }
    Ok(Some(index))
}
