//! What feeds each bit, or the first link to a bit that is fed already.
ghost use Rattle.std.specs.Prelude.{◌≡◌, List, IfOk, IfErr, length};
ghost use Rattle.design_defs.specs.Bits.{IsSpot, Spot, spot_cmp};
ghost use Rattle.design_defs.specs.DesignFaults.{FaultKind, HasFirstFault, HasNoneBefore};
ghost use Rattle.design_defs.specs.Hierarchy.{Sources};
ghost use Rattle.design_defs.specs.Inputs.{AreReadSources};
ghost use Rattle.list_defs.specs.Orders.{AreAllRising};
ghost use Rattle.pw_defs.specs.declared.faults.DesignFault.TheVariants.{N8};
ghost use Rattle.net_bits.specs.Placed.{ArePlaced};
ghost use Rattle.net_feeds.specs.Feeds.{AreFedSo};
ghost use Rattle.net_feeds.specs.LinkNumbers.{AreAllLocal, links_before};
ghost use Rattle.net_feeds.specs.Marked.{AreFed};
ghost use Rattle.net_feeds.specs.TopInputs.{AreTopMarks};
ghost use Rattle.net_hierarchy.specs.Firstness.{IsCause};
ghost use Rattle.net_hierarchy.specs.Graph.{AreInstsApart};
ghost use Rattle.net_hierarchy.specs.Ordered.{HasNoneOf};

use crate::instances::module_of;
use crate::links::links_at;
use crate::marks::{Marks, feed_first, first_marks};
use crate::names::least_name;
use crate::seconds::seconds_of;
use crate::tops::top_marks;
use design_rows::Feed;
use net_bits::Placed;
use net_links::Links;
use pw_defs::{AtModule, DesignFault, Memory};
use std::alloc::Global;

/// The marks before an instance: the input bits of the top, and all bits that earlier instances feed.
fn marks_before(
    alloc: Global,
    placed: &Placed,
    links: &Links,
    given: &[bool],
    inst: u32,
) -> Result<Marks, Memory>
    ensures { IfOk result (λ marks. AreFed given.now (links_before links.now placed.now.instances.now inst) marks) }
{
    let mut marks = first_marks(alloc, given)?;
    match feed_first(alloc, placed.instances, links, inst, &mut marks)? {
        Some(_) => Err(Memory),
        None => Ok(marks),
    }
}

/// The first fault of an instance that has a link to a bit with a mark.
fn fault_in(
    alloc: Global,
    placed: &Placed,
    links: &Links,
    given: &[bool],
    inst: u32,
) -> Result<AtModule, Memory>
    ensures { IfOk result (λ at. (s : Sources) → ArePlaced s placed.now → AreReadSources s → AreInstsApart s → AreAllLocal s links.now → (spots : List Spot)
        → AreAllRising spot_cmp (IsSpot s) spots → AreTopMarks s spots given.now → HasNoneBefore FaultKind.multi_driven s → HasFirstFault s (N8 at)) }
{
    let marks = marks_before(alloc, placed, links, given, inst)?;
    let mut here = Vec::new(alloc);
    links_at(placed.instances, links, inst, &mut here)?;
    let found = seconds_of(alloc, marks.taken.as_slice(), here.as_slice())?;
    let name = least_name(alloc, placed, found.bits.as_slice())?;
    let module = module_of(placed.instances, inst)?;
    Ok(AtModule {
        module,
        line: found.line,
        name,
    })
}

/// What each bit of a design is fed with by the links of all instances, by the numbers of all bits, of which there are so
/// many.
///
/// Time and memory go with the links and the bits. Errors: the first link to a bit that another one feeds already, or that
/// is an input bit of the top; or want of memory.
pub fn feeds_of(
    alloc: Global,
    placed: &Placed,
    links: &Links,
    bits: u32,
) -> Result<Vec<Feed>, DesignFault>
    ensures feeds { IfOk result (λ feeds. (s : Sources) → ArePlaced s placed.now → AreReadSources s → AreInstsApart s → AreAllLocal s links.now → (spots : List Spot)
        → AreAllRising spot_cmp (IsSpot s) spots → length spots ≡ bits → AreFedSo s spots feeds.items) }
    ensures none { IfOk result (λ _. (s : Sources) → ArePlaced s placed.now → AreReadSources s → AreInstsApart s → AreAllLocal s links.now → (spots : List Spot)
        → AreAllRising spot_cmp (IsSpot s) spots → length spots ≡ bits → HasNoneOf s FaultKind.multi_driven) }
    ensures cause { IfErr result (λ fault. (s : Sources) → ArePlaced s placed.now → AreReadSources s → AreInstsApart s → AreAllLocal s links.now → (spots : List Spot)
        → AreAllRising spot_cmp (IsSpot s) spots → length spots ≡ bits → HasNoneBefore FaultKind.multi_driven s → IsCause s fault) }
{
    let given = top_marks(alloc, placed, bits)?;
    let mut marks = first_marks(alloc, given.as_slice())?;
    match feed_first(
        alloc,
        placed.instances,
        links,
        placed.instances.rows.len(),
        &mut marks,
    )? {
        Some(inst) => {
            let at = fault_in(alloc, placed, links, given.as_slice(), inst)?;
            Err(DesignFault::N8(at))
        }
        None => {
            let Marks { feeds, .. } = marks;
            Ok(feeds)
        }
    }
}
