//! The least bits of rings, by an order of the bits.
ghost use Rattle.std.specs.Prelude.{◌≡◌, ◌+◌, ◌<◌, ◌≤◌, ◌++◌, ◌∷◌, ◌↔◌, ◌⊎◌, ℕ, [], List, IfOk, OnOk, Some, length, slice_get};
ghost use Rattle.list_defs.specs.Members.{IsIn};
ghost use Rattle.list_defs.specs.Rings.{IsReached};
ghost use Rattle.net_rings.specs.Fed.{AreRows, IsFedByThere, IsThere};
ghost use Rattle.net_rings.specs.Least.{AreAllRanked, AreRanked, IsLeastOfRing, IsPlaceOf, bits_to};
ghost use Rattle.net_rings.specs.declared.minima.Ranked.{Ranked};
ghost use Rattle.net_rings.specs.Peeled.{AreCounted, IsCore};
ghost use Rattle.net_rings.specs.Search.{AreBelow};

use crate::cores::{Core, peel, take};
use crate::graphs::{Rows, is_there};
use crate::searches::comes_back;
use std::alloc::{AllocError, Global};

/// A bit with its rank in an order.
#[derive(Clone, Copy)]
pub struct Ranked {
    pub bit: u32,
    pub rank: u32,
}

/// Takes a bit away, and then those that feed nothing any more.
fn take_out(alloc: Global, core: &mut Core, bit: u32) -> Result<(), AllocError>
    requires rows { AreRows core.old.rows }
    requires counted { AreCounted core.old.rows.sources.items core.old.rows.bits.items core.old.uses.items }
    ensures rows { OnOk result (AreRows core.new.rows) }
    ensures counted { OnOk result (AreCounted core.new.rows.sources.items core.new.rows.bits.items core.new.uses.items) }
    ensures taken { OnOk result ((sources : List (List ℕ)) → (taken : List ℕ) → IsCore sources taken core.old → IsCore sources (taken ++ bit ∷ []) core.new) }
{
    if !is_there(&core.rows, bit) {
        return Ok(());
    }
    let mut freed = Vec::new(alloc);
    take(core, bit, &mut freed)?;
    peel(core, &mut freed)?;
    Ok(())
}

/// Takes out the bits of an order, from a place on, that are ranked below a rank. Answers the place of the first one that
/// isn't.
fn take_below(
    alloc: Global,
    core: &mut Core,
    order: &[Ranked],
    from: usize,
    rank: u32,
) -> Result<usize, AllocError>
    requires rows { AreRows core.old.rows }
    requires counted { AreCounted core.old.rows.sources.items core.old.rows.bits.items core.old.uses.items }
    requires from { from ≤ length order.now }
    ensures rows { OnOk result (AreRows core.new.rows) }
    ensures counted { OnOk result (AreCounted core.new.rows.sources.items core.new.rows.bits.items core.new.uses.items) }
    ensures within { IfOk result (λ place. place ≤ length order.now) }
    ensures taken { IfOk result (λ place. (sources : List (List ℕ)) → IsCore sources (bits_to order.now from) core.old → IsCore sources (bits_to order.now place) core.new) }
    ensures place { IfOk result (λ place. AreRanked order.now → ((i : ℕ) → (a : Ranked) → i < from → slice_get order.now i ≡ Some a → a.rank < rank) → IsPlaceOf order.now rank place) }
{
    for place in from..order.len() {
        let item = order[place];
        if item.rank >= rank {
            return Ok(place);
        }
        take_out(alloc, core, item.bit)?;
    }
    Ok(order.len())
}

/// Keeps a bit where it comes back to itself by bits that are there.
fn keep_on_ring(
    alloc: Global,
    rows: &Rows,
    marks: &mut Vec<u32>,
    mark: u32,
    bit: u32,
    found: &mut Vec<u32>,
) -> Result<(), AllocError>
    requires rows { AreRows rows.now }
    requires below { AreBelow mark marks.old.items }
    ensures below { AreBelow (mark + 1) marks.new.items }
    ensures kept { OnOk result ((n : ℕ) → IsIn n found.old.items → IsIn n found.new.items) }
    ensures only { OnOk result ((n : ℕ) → IsIn n found.new.items → IsIn n found.old.items ⊎ ((n ≡ bit) × IsReached (IsFedByThere rows.now) bit bit)) }
    ensures each { OnOk result (IsReached (IsFedByThere rows.now) bit bit → IsIn bit found.new.items) }
{
    if !comes_back(alloc, rows, marks.as_mut_slice(), mark, bit)? {
        return Ok(());
    }
    found.push(bit)?;
    Ok(())
}

/// The least bits of all rings, among bits in order.
pub fn ring_minima(alloc: Global, core: Core, order: &[Ranked]) -> Result<Vec<u32>, AllocError>
    requires rows { AreRows core.rows }
    requires counted { AreCounted core.rows.sources.items core.rows.bits.items core.uses.items }
    ensures { IfOk result (λ found. (sources : List (List ℕ)) → IsCore sources [] core → AreRanked order.now → AreAllRanked sources order.now
        → (n : ℕ) → IsIn n found.items ↔ IsLeastOfRing sources order.now n) }
{
    if order.len() > 4294967294 {
        return Err(AllocError);
    }
    let mut core = core;
    let mut marks = vec![in alloc; 0; core.rows.bits.len()]?;
    let mut found = Vec::new(alloc);
    let mut taken = 0;
    for place in 0..order.len() {
        let item = order[place];
        taken = take_below(alloc, &mut core, order, taken, item.rank)?;
        let mark = place as u32 + 1;
        keep_on_ring(alloc, &core.rows, &mut marks, mark, item.bit, &mut found)?;
    }
    Ok(found)
}
