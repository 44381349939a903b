//! The bits of the instances, and the links that connect them.
ghost use Rattle.std.specs.Prelude.{◌≡◌, ◌+◌, ◌<◌, ◌≤◌, ◌++◌, true, false, ℕ, length, sum_by, slice_get, slice_index, IfOk, IfSome, OnOk, MatchOption, MatchBool, IsTrue};
ghost use Rattle.std.specs.List.{AllByRecursion};
ghost use Rattle.form_design.specs.Hierarchy.{size, starts_from, link_of, links_under, links_with, drives, bit_at, bits_at, own_bits, linked_bits};
ghost use Rattle.form_design.specs.Fits.{is_free, feeds_once};

use crate::hierarchy::{Held, joined};
use crate::names::Names;
use pw_defs::{Bit, Body, Dir, Feeder, Memory, PortBit};
use std::alloc::Global;

/// At most this many bits are looked at.
const MAX_BITS: u64 = 8_000_000;

/// The number of the first bit of each instance, which is `None` where there are more bits than the limit.
pub(crate) fn starts(
    alloc: Global,
    names: &Names,
    helds: &[Held],
) -> Result<Option<Vec<u64>>, Memory>
    ensures { IfOk result (λ r. MatchOption r
        (8000000 < sum_by (size names.now) helds.now)
        (λ starts. (starts.items ≡ starts_from names.now 0 helds.now) × (sum_by (size names.now) helds.now ≤ 8000000))) }
{
    let mut starts = Vec::new(alloc);
    let mut total: u64 = 0;
    for held in helds {
        starts.push(total)?;
        total += u64::from(names.bit_count(held.body));
        if total > MAX_BITS {
            return Ok(None);
        }
    }
    Ok(Some(starts))
}

/// A link of a connection, as the numbers of the bit that is fed and the bit that feeds it.
fn link_of(
    names: &Names,
    starts: &[u64],
    inst: usize,
    parent: u32,
    body: Body,
    join: (u32, u32),
) -> (u64, u64)
    requires inst_in { inst < length starts.now }
    requires parent_in { parent < length starts.now }
    requires few { (k : ℕ) → slice_index starts.now k ≤ 8000000 }
    ensures { result ≡ link_of names.now starts.now inst parent body join }
{
    let inner = starts[inst] + u64::from(join.0);
    let outer = starts[parent as usize] + u64::from(join.1);
    match names.dir(body, join.0) {
        Some(Dir::Input) => (inner, outer),
        _ => (outer, inner),
    }
}

/// Adds the links of an instance.
fn add_links(
    names: &Names,
    starts: &[u64],
    inst: usize,
    held: &Held,
    out: &mut Vec<(u64, u64)>,
) -> Result<(), Memory>
    requires inst_in { inst < length starts.now }
    requires parent_in { IfSome held.now.parent (λ parent. parent < length starts.now) }
    requires few { (k : ℕ) → slice_index starts.now k ≤ 8000000 }
    ensures { OnOk result (out.new.items ≡ out.old.items ++ links_under names.now starts.now (inst, held.now) held.now.parent) }
{
    if let Some(parent) = held.parent {
        for join in held.joins.as_slice() {
            out.push(link_of(names, starts, inst, parent, held.body, *join))?;
        }
    }
    Ok(())
}

/// All links.
pub(crate) fn links(
    alloc: Global,
    names: &Names,
    starts: &[u64],
    helds: &[Held],
) -> Result<Vec<(u64, u64)>, Memory>
    requires long { length starts.now ≡ length helds.now }
    requires parents { AllByRecursion (λ held. IfSome held.parent (λ parent. parent < length starts.now)) helds.now }
    requires few { (k : ℕ) → slice_index starts.now k ≤ 8000000 }
    ensures { IfOk result (λ links. links.items ≡ links_with names.now starts.now helds.now) }
{
    let mut links = Vec::new(alloc);
    for (inst, held) in helds.iter().enumerate() {
        add_links(names, starts, inst, held, &mut links)?;
    }
    Ok(links)
}

/// Whether a bit is a driver: an output pin of a cell, or an input of the top.
fn drives(names: &Names, inst: u32, body: Body, place: u32) -> bool
    ensures { result ≡ drives names.now inst body place }
{
    match body {
        Body::Cell(_) => names.dir(body, place) == Some(Dir::Output),
        Body::Module(_) => inst == 0 && names.dir(body, place) == Some(Dir::Input),
        Body::Model(_) => false,
    }
}

/// A bit of an instance, from its place and name, before any link.
fn bit_at(
    alloc: Global,
    names: &Names,
    inst: u32,
    held: &Held,
    place: u32,
    name: &[u8],
) -> Result<Bit, Memory>
    ensures { IfOk result (λ bit. bit ≡ bit_at names.now (inst, held.now) (place, name.now)) }
{
    let port = PortBit {
        inst,
        port: place,
        place: 0,
    };
    let feeder = if drives(names, inst, held.body, place) {
        Feeder::Driver(port)
    } else {
        Feeder::Nothing
    };
    let is_port = place < names.port_count(held.body);
    Ok(Bit {
        name: joined(alloc, held.path.as_slice(), name)?,
        owner: inst,
        port: if is_port { Some(port) } else { None },
        feeder,
    })
}

/// Adds the bits of an instance.
#[tactic(auto, using(crate::proofs::Wires::drop_at))]
fn add_bits(
    alloc: Global,
    names: &Names,
    inst: u32,
    held: &Held,
    out: &mut Vec<Bit>,
) -> Result<(), Memory>
    ensures { OnOk result (out.new.items ≡ out.old.items ++ bits_at names.now (inst, held.now)) }
{
    let Some(bit_names) = names.bit_names(held.body) else {
        return Ok(());
    };
    for place in 0..bit_names.len() {
        let name = bit_names.name(place);
        out.push(bit_at(alloc, names, inst, held, place, name)?)?;
    }
    Ok(())
}

/// All bits before any link.
pub(crate) fn own_bits(alloc: Global, names: &Names, helds: &[Held]) -> Result<Vec<Bit>, Memory>
    requires { length helds.now ≤ 1000000 }
    ensures { IfOk result (λ bits. bits.items ≡ own_bits names.now helds.now) }
{
    let mut bits = Vec::new(alloc);
    for (inst, held) in helds.iter().enumerate() {
        add_bits(alloc, names, inst as u32, held, &mut bits)?;
    }
    Ok(bits)
}

/// Whether there is such a bit, and nothing feeds it.
fn is_free(bits: &[Bit], at: u64) -> bool
    ensures free { result ≡ is_free (slice_get bits.now at) }
    ensures there { IsTrue result → at < length bits.now }
{
    match bits.get(at as usize) {
        Some(bit) => bit.feeder == Feeder::Nothing,
        None => false,
    }
}

/// Connects the bits by links, and says whether these feed each of the bits once at most.
pub(crate) fn connect(bits: &mut Vec<Bit>, links: &[(u64, u64)]) -> bool
    requires { AllByRecursion (λ link. link.1 < 4294967296) links.now }
    ensures { MatchBool result
        ((feeds_once links.now bits.old.items ≡ true) × (bits.new.items ≡ linked_bits links.now bits.old.items))
        (feeds_once links.now bits.old.items ≡ false) }
{
    for link in links {
        if !is_free(bits.as_slice(), link.0) {
            return false;
        }
        let at = link.0 as usize;
        let bit = &mut bits[at];
        bit.feeder = Feeder::Bit(link.1 as u32);
    }
    true
}
