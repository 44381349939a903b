//! What links feed the bits of a design with, where no bit is fed twice and none feeds itself.
ghost use Rattle.std.specs.Prelude.{◌≡◌, ◌+◌, ◌≤◌, IfErr, IfOk, List};
ghost use Rattle.std.specs.List.{sum_by};
ghost use Rattle.list_defs.specs.Orders.{AreAllRising};
ghost use Rattle.design_defs.specs.Bits.{IsSpot, Spot, spot_cmp};
ghost use Rattle.design_defs.specs.DesignFaults.{FaultKind, IsFaultless, HasNoneBefore};
ghost use Rattle.design_defs.specs.Hierarchy.{Sources};
ghost use Rattle.design_defs.specs.Inputs.{AreReadSources};
ghost use Rattle.net_bits.specs.Placed.{ArePlaced};
ghost use Rattle.net_design.specs.Stages.{AreWired, HaveFewBits};
ghost use Rattle.net_feeds.specs.Feeds.{AreFedSo};
ghost use Rattle.net_feeds.specs.LinkNumbers.{AreAllLocal};
ghost use Rattle.net_hierarchy.specs.Firstness.{IsCause};
ghost use Rattle.net_hierarchy.specs.Graph.{types_of};
ghost use Rattle.net_instances.specs.Instances.{own_bits};

use design_rows::Feed;
use net_bits::Placed;
use net_feeds::feeds_of;
use net_links::{Links, links_of};
use net_loops::loop_fault;
use pw_defs::{Body, DesignFault, List, Memory};
use std::alloc::Global;

/// A sum of numbers of bits.
fn sum_of(first: u32, own: u64) -> Result<u32, Memory>
    ensures { IfOk result (λ sum. sum ≡ first + own) }
{
    if own > u64::from(u32::MAX - first) {
        return Err(Memory);
    }
    Ok(first + own as u32)
}

/// How many bits there are in all: those before the last instance, and its own.
fn count_bits(placed: &Placed) -> Result<u32, Memory>
    ensures fits { IfOk result (λ count. count ≤ 4294967295) }
    ensures count { IfOk result (λ count. (s : Sources) → (there : ArePlaced s placed.now) → sum_by (own_bits there.bits) placed.now.instances.now.rows ≡ count) }
{
    let rows = placed.instances.rows.as_slice();
    let len = rows.len();
    if len == 0 {
        return Err(Memory);
    }
    let row = rows[len - 1];
    let count = sum_of(row.first_bit, placed.plans.bits(row.body))?;
    Ok(count)
}

/// The links of all modules that have instances.
fn all_links(
    alloc: Global,
    placed: &Placed,
    types: &List<List<Option<Body>>>,
) -> Result<Links, Memory>
    ensures { IfOk result (λ links. (s : Sources) → ArePlaced s placed.now → AreReadSources s → types.now ≡ types_of s → AreWired s → HaveFewBits s
        → AreAllLocal s links) }
{
    let links = links_of(
        alloc,
        placed.modules,
        types,
        placed.plans,
        placed.cells,
        placed.models,
    )?;
    Ok(links)
}

/// What links feed each bit with.
///
/// Errors: the first link to a bit that is fed already, else the first line that feeds the least bit of a ring of bits that
/// feed one another; or want of memory.
pub(crate) fn wire(
    alloc: Global,
    placed: &Placed,
    types: &List<List<Option<Body>>>,
) -> Result<Vec<Feed>, DesignFault>
    ensures feeds { IfOk result (λ feeds. (s : Sources) → ArePlaced s placed.now → AreReadSources s → types.now ≡ types_of s → AreWired s
        → HasNoneBefore FaultKind.multi_driven s → (spots : List Spot) → AreAllRising spot_cmp (IsSpot s) spots → AreFedSo s spots feeds.items × IsFaultless s) }
    ensures cause { IfErr result (λ fault. (s : Sources) → ArePlaced s placed.now → AreReadSources s → types.now ≡ types_of s → AreWired s
        → HasNoneBefore FaultKind.multi_driven s → (spots : List Spot) → AreAllRising spot_cmp (IsSpot s) spots → IsCause s fault) }
{
    let bits = count_bits(placed)?;
    let links = all_links(alloc, placed, types)?;
    let feeds = feeds_of(alloc, placed, &links, bits)?;
    match loop_fault(alloc, placed, &links, feeds.as_slice())? {
        Some(at) => Err(DesignFault::N10(at)),
        None => Ok(feeds),
    }
}
