//! Whether a bit comes back to itself, through bits that are there.
ghost use Rattle.std.specs.Prelude.{◌≡◌, ◌+◌, ◌++◌, ◌∷◌, [], ◌↔◌, ◌⊎◌, false, ℕ, List, IfOk, IsTrue, Some, slice_get};
ghost use Rattle.list_defs.specs.Rings.{IsReached};
ghost use Rattle.net_rings.specs.Fed.{AreRows, IsFedBy, IsFedByThere, sources_of};
ghost use Rattle.net_rings.specs.Search.{AreBelow, IsLooked, IsLookedAt, IsLooking, IsSearch};

use crate::graphs::{Rows, is_there, sources_at};
use std::alloc::{AllocError, Global};

/// Marks a bit: whether it wasn't marked yet.
fn mark_bit(marks: &mut [u32], mark: u32, bit: u32) -> bool
    requires below { AreBelow (mark + 1) marks.old }
    ensures below { AreBelow (mark + 1) marks.new }
    ensures new { IsTrue result → (n : ℕ) → slice_get marks.new n ≡ Some mark → (n ≡ bit) ⊎ (slice_get marks.old n ≡ Some mark) }
    ensures known { result ≡ false → (marks.new ≡ marks.old) × (slice_get marks.old bit ≡ Some mark) }
{
    if bit as usize >= marks.len() {
        return true;
    }
    if marks[bit as usize] == mark {
        return false;
    }
    marks[bit as usize] = mark;
    true
}

/// Looks at a source of the bit that a search is at: whether it is there and the first bit of the search. Else it is
/// marked and put into the row, where it is there and isn't marked yet.
fn look_at(
    rows: &Rows,
    marks: &mut [u32],
    row: &mut Vec<u32>,
    mark: u32,
    from: u32,
    source: u32,
) -> Result<bool, AllocError>
    requires below { AreBelow (mark + 1) marks.old }
    ensures below { AreBelow (mark + 1) marks.new }
    ensures at { IfOk result (λ back. (bit done : ℕ) → (seen : List ℕ) → IsFedBy (sources_of rows.now) bit source → IsLooking rows.now from mark bit marks.old row.old.items seen done
        → IsLookedAt rows.now from mark bit marks.new row.new.items (seen ++ source ∷ []) done back) }
{
    if !is_there(rows, source) {
        return Ok(false);
    }
    if source == from {
        return Ok(true);
    }
    if mark_bit(marks, mark, source) {
        row.push(source)?;
    }
    Ok(false)
}

/// Looks at all sources of the bit that a search is at: whether the first bit is among them.
fn look(
    rows: &Rows,
    marks: &mut [u32],
    row: &mut Vec<u32>,
    mark: u32,
    from: u32,
    bit: u32,
) -> Result<bool, AllocError>
    requires rows { AreRows rows.now }
    requires below { AreBelow (mark + 1) marks.old }
    ensures below { AreBelow (mark + 1) marks.new }
    ensures looked { IfOk result (λ back. (done : ℕ) → IsSearch rows.now from mark marks.old row.old.items done → slice_get row.old.items done ≡ Some bit
        → IsLooked rows.now from mark marks.new row.new.items (done + 1) back) }
{
    for source in sources_at(rows, bit) {
        if look_at(rows, marks, row, mark, from, *source)? {
            return Ok(true);
        }
    }
    Ok(false)
}

/// Whether a bit comes back to itself by bits that are there. What the search comes to is marked by a number that is
/// above all marks.
pub(crate) fn comes_back(
    alloc: Global,
    rows: &Rows,
    marks: &mut [u32],
    mark: u32,
    from: u32,
) -> Result<bool, AllocError>
    requires rows { AreRows rows.now }
    requires below { AreBelow mark marks.old }
    ensures below { AreBelow (mark + 1) marks.new }
    ensures back { IfOk result (λ back. IsTrue back ↔ IsReached (IsFedByThere rows.now) from from) }
{
    let mut row = Vec::new(alloc);
    row.push(from)?;
    for done in 0..usize::MAX {
        if done >= row.len() {
            return Ok(false);
        }
        let bit = row.as_slice()[done];
        if look(rows, marks, &mut row, mark, from, bit)? {
            return Ok(true);
        }
    }
    Err(AllocError)
}
