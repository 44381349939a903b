//! Bits in the order of their joined names, each with its rank, as `AreNameRanks` says.
ghost use Rattle.std.specs.Prelude.{◌≡◌, ◌+◌, ◌<◌, ℕ, List, IfOk, OnOk, Some, length, slice_get};
ghost use Rattle.design_defs.specs.Bits.{IsSpot, Spot, spot_cmp};
ghost use Rattle.design_defs.specs.Hierarchy.{Sources};
ghost use Rattle.list_defs.specs.Orders.{AreAllRising, IsPutInOrder};
ghost use Rattle.net_bits.specs.Placed.{ArePlaced};
ghost use Rattle.net_loops.specs.Ranks.{AreNameRanks, AreRankedSo, AreSpelled, IsNextRank, spelled_cmp};
ghost use Rattle.net_loops.specs.declared.ranks.Spelled.{Spelled as Item};
ghost use Rattle.std.specs.List.Sorted.{IsSorted};

use net_bits::{Placed, put_bit_name};
use net_rings::Ranked;
use pw_defs::{Bytes, Memory};
use std::alloc::Global;
use std::cmp::Ordering;

/// A bit with its joined name.
#[derive(Drop)]
pub(crate) struct Spelled {
    pub(crate) bit: u32,
    pub(crate) name: Bytes,
}

/// The names of bits.
fn names_of(alloc: Global, placed: &Placed, bits: &[u32]) -> Result<Vec<Spelled>, Memory>
    ensures { IfOk result (λ all. AreSpelled placed.now bits.now all.items) }
{
    let mut all = Vec::new(alloc);
    for bit in bits {
        let mut name = Bytes::new(alloc);
        put_bit_name(alloc, placed, *bit, &mut name)?;
        all.push(Spelled { bit: *bit, name })?;
    }
    Ok(all)
}

/// How two bits stand, by their names.
fn compare(left: &Spelled, right: &Spelled) -> Ordering
    ensures { result ≡ spelled_cmp left.now right.now }
{
    left.name.as_slice().cmp(right.name.as_slice())
}

/// Puts bits in the order of their names.
fn sort(all: &mut Vec<Spelled>) -> Result<(), Memory>
    ensures { OnOk result (IsPutInOrder spelled_cmp all.old.items all.new.items) }
{
    all.sort_by(|left, right| compare(left, right))?;
    Ok(())
}

/// The rank of a name behind another: the same for the same name, and else the next.
fn rank_behind(name: &[u8], next: &[u8], rank: u32) -> Result<u32, Memory>
    ensures { IfOk result (λ more. IsNextRank name.now next.now rank more) }
{
    match name.cmp(next) {
        Ordering::Equal => Ok(rank),
        Ordering::Less | Ordering::Greater => {
            let more = rank.checked_add(1).ok_or(Memory)?;
            Ok(more)
        }
    }
}

/// The rank of the next bit, behind the one before it. That of the first is given.
fn next_rank(all: &[Spelled], at: usize, rank: u32) -> Result<u32, Memory>
    requires { at < length all.now }
    ensures { IfOk result (λ next. (a b : Item) → (before : ℕ) → before + 1 ≡ at → slice_get all.now before ≡ Some a → slice_get all.now at ≡ Some b → IsNextRank a.name b.name rank next) }
{
    if at == 0 {
        return Ok(rank);
    }
    let next = rank_behind(all[at - 1].name.as_slice(), all[at].name.as_slice(), rank)?;
    Ok(next)
}

/// The ranks of bits in order.
fn order_of(alloc: Global, all: &[Spelled]) -> Result<Vec<Ranked>, Memory>
    ensures { IfOk result (λ order. IsSorted spelled_cmp all.now → AreRankedSo all.now order.items) }
{
    let mut order = Vec::new(alloc);
    let mut rank = 0;
    for at in 0..all.len() {
        rank = next_rank(all, at, rank)?;
        order.push(Ranked {
            bit: all[at].bit,
            rank,
        })?;
    }
    Ok(order)
}

/// Bits in the order of their names, each with its rank: equal names have equal ranks.
pub(crate) fn ranks_of(alloc: Global, placed: &Placed, bits: &[u32]) -> Result<Vec<Ranked>, Memory>
    ensures { IfOk result (λ order. (s : Sources) → ArePlaced s placed.now → (spots : List Spot) → AreAllRising spot_cmp (IsSpot s) spots
        → AreNameRanks s spots bits.now order.items) }
{
    let mut all = names_of(alloc, placed, bits)?;
    sort(&mut all)?;
    let order = order_of(alloc, all.as_slice())?;
    Ok(order)
}
