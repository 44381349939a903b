//! The first ring of bits that feed one another: its least bits are found (`AreLeastBits`), and then the first line that
//! feeds one of them (`IsLoopAnswer`).
ghost use Rattle.std.specs.Prelude.{◌≡◌, true, List, IfOk, Some, option_map, set, slice_get};
ghost use Rattle.list_defs.specs.Orders.{AreAllRising};
ghost use Rattle.design_defs.specs.Bits.{IsSpot, Spot, spot_cmp};
ghost use Rattle.design_defs.specs.DesignFaults.{FaultKind, HasNoneBefore};
ghost use Rattle.design_rows.specs.declared.tables.Feed.{Feed as PlainFeed};
ghost use Rattle.design_defs.specs.Hierarchy.{Sources};
ghost use Rattle.design_defs.specs.Inputs.{AreReadSources};
ghost use Rattle.net_bits.specs.Placed.{ArePlaced};
ghost use Rattle.net_feeds.specs.Feeds.{AreFedSo};
ghost use Rattle.net_feeds.specs.LinkNumbers.{AreAllLocal};
ghost use Rattle.net_inner.specs.Inside.{AreInnerSources};
ghost use Rattle.net_links.specs.declared.rows.LinkRow.{LinkRow};
ghost use Rattle.net_loops.specs.Least.{AreLeastBits, AreMarked, AreMarkedRanks, IsFaultAt, IsLeastAnswer, IsLoopAnswer, with_rank};
ghost use Rattle.net_loops.specs.Ready.{AreReady};

use crate::graphs::graph_of;
use crate::lines::{Candidate, first_line};
use crate::ranks::ranks_of;
use design_rows::Feed;
use net_bits::{Placed, put_bit_name};
use net_inner::{Inner, inner_of};
use net_links::Links;
use net_rings::{Ranked, core_of, ring_minima};
use pw_defs::{AtModule, Body, Bytes, Memory, Name};
use std::alloc::Global;

/// Marks a bit.
fn mark_bit(marks: &mut Vec<bool>, bit: u32)
    ensures { marks.new.items ≡ set marks.old.items bit true }
{
    if (bit as usize) < marks.len() {
        marks[bit as usize] = true;
    }
}

/// Marks bits.
fn mark_bits(alloc: Global, bits: &[u32], count: usize) -> Result<Vec<bool>, Memory>
    ensures { IfOk result (λ marks. AreMarked bits.now count marks.items) }
{
    let mut marks = vec![in alloc; false; count]?;
    for bit in bits {
        mark_bit(&mut marks, *bit);
    }
    Ok(marks)
}

/// Gives a bit its rank.
fn put_rank(ranks: &mut Vec<Option<u32>>, item: Ranked)
    ensures { ranks.new.items ≡ set ranks.old.items item.bit (Some item.rank) }
{
    if (item.bit as usize) < ranks.len() {
        ranks[item.bit as usize] = Some(item.rank);
    }
}

/// Gives a bit its rank if it is marked.
fn rank_if(marks: &[bool], item: Ranked, ranks: &mut Vec<Option<u32>>)
    ensures { ranks.new.items ≡ with_rank (slice_get marks.now item.bit) item ranks.old.items }
{
    match marks.get(item.bit as usize).copied() {
        Some(true) => put_rank(ranks, item),
        Some(false) | None => {}
    }
}

/// The ranks of the bits that are marked.
fn marked_ranks(alloc: Global, order: &[Ranked], marks: &[bool]) -> Result<Vec<Option<u32>>, Memory>
    ensures { IfOk result (λ ranks. AreMarkedRanks order.now marks.now ranks.items) }
{
    let mut ranks = vec![in alloc; None; marks.len()]?;
    for item in order {
        rank_if(marks, *item, &mut ranks);
    }
    Ok(ranks)
}

/// The line of a module and the name of the bit that it feeds.
fn fault_at(alloc: Global, placed: &Placed, inst: u32, first: Candidate) -> Result<AtModule, Memory>
    ensures { IfOk result (λ at. IsFaultAt placed.now inst first at) }
{
    let Some(row) = placed.instances.rows.get(inst) else {
        return Err(Memory);
    };
    let Body::Module(module) = row.body else {
        return Err(Memory);
    };
    let mut name = Bytes::new(alloc);
    put_bit_name(alloc, placed, first.bit, &mut name)?;
    let name = Name::from_slice(alloc, name.as_slice())?;
    Ok(AtModule {
        module,
        line: first.line,
        name,
    })
}

/// The least bits of all rings, each marked with its rank.
fn least_bits(
    alloc: Global,
    placed: &Placed,
    inner: &Inner,
    feeds: &[Feed],
) -> Result<Option<Vec<Option<u32>>>, Memory>
    ensures { IfOk result (λ found. (s : Sources) → (spots : List Spot) → (links : List (List LinkRow)) → AreReady s placed.now links spots feeds.now → AreInnerSources s placed.now inner.now
        → IsLeastAnswer s spots (option_map (λ marks. marks.items) found)) }
{
    let graph = graph_of(alloc, placed.instances, inner, feeds)?;
    let core = core_of(alloc, graph)?;
    let bits = core.bits(alloc)?;
    if bits.as_slice().is_empty() {
        return Ok(None);
    }
    let order = ranks_of(alloc, placed, bits.as_slice())?;
    let minima = ring_minima(alloc, core, order.as_slice())?;
    let marks = mark_bits(alloc, minima.as_slice(), feeds.len())?;
    let ranks = marked_ranks(alloc, order.as_slice(), marks.as_slice())?;
    Ok(Some(ranks))
}

/// The fault of the first line that feeds a bit with a mark.
fn marked_fault(
    alloc: Global,
    placed: &Placed,
    links: &Links,
    inner: &Inner,
    marks: &[Option<u32>],
) -> Result<Option<AtModule>, Memory>
    ensures { IfOk result (λ found. (s : Sources) → (spots : List Spot) → (feeds : List PlainFeed) → AreReady s placed.now links.now spots feeds
        → AreInnerSources s placed.now inner.now → AreLeastBits s spots marks.now → IsLoopAnswer s found) }
{
    match first_line(alloc, placed, links, inner, marks)? {
        Some((inst, first)) => {
            let at = fault_at(alloc, placed, inst, first)?;
            Ok(Some(at))
        }
        None => Ok(None),
    }
}

/// The first line that feeds the least bit, by its joined name, of a ring of bits that feed one another. `None`: there is no
/// ring.
///
/// Where taking bits away that feed nothing leaves none, nothing more is done. Else time goes with the bits that are left,
/// times the logarithm of their number, and with all links.
///
/// `Err`: memory ran out, or there are no numbers for so many bits.
pub fn loop_fault(
    alloc: Global,
    placed: &Placed,
    links: &Links,
    feeds: &[Feed],
) -> Result<Option<AtModule>, Memory>
    ensures { IfOk result (λ found. (s : Sources) → ArePlaced s placed.now → AreReadSources s → AreAllLocal s links.now → (spots : List Spot)
        → AreAllRising spot_cmp (IsSpot s) spots → AreFedSo s spots feeds.now → HasNoneBefore FaultKind.wire_loop s → IsLoopAnswer s found) }
{
    let inner = inner_of(alloc, placed)?;
    match least_bits(alloc, placed, &inner, feeds)? {
        Some(marks) => {
            let found = marked_fault(alloc, placed, links, &inner, marks.as_slice())?;
            Ok(found)
        }
        None => Ok(None),
    }
}
