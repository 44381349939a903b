//! What is left of bits where those are taken away, time and again, that feed nothing that is left.
ghost use Rattle.std.specs.Prelude.{◌≡◌, ◌+◌, ◌<◌, ◌≤◌, ◌++◌, ◌∷◌, ◌↔◌, ℕ, [], List, IfOk, IsTrue, OnOk, get_or, length, nat_eq};
ghost use Rattle.std.specs.List.{count_by};
ghost use Rattle.list_defs.specs.Members.{IsIn};
ghost use Rattle.list_defs.specs.Rings.{IsReached};
ghost use Rattle.net_rings.specs.Fed.{AreRows, IsFedBy, IsThere};
ghost use Rattle.net_rings.specs.Peeled.{AreCounted, IsCore, IsWithout};

use crate::graphs::{BitGraph, BitRow, Rows, is_there, sources_at};
use std::alloc::{AllocError, Global};

/// The bits that are left, and how often each of all bits feeds one of those; it may be less often than is counted.
#[derive(Drop)]
pub struct Core {
    pub(crate) rows: Rows,
    pub(crate) uses: Vec<u32>,
}

/// Counts the sources of a bit.
fn add_uses(uses: &mut Vec<u32>, sources: &[u32]) -> Result<(), AllocError>
    ensures length { length uses.new.items ≡ length uses.old.items }
    ensures added { OnOk result ((n : ℕ) → n < length uses.old.items → get_or uses.old.items n 0 + count_by (nat_eq n) sources.now ≤ get_or uses.new.items n 0) }
{
    for source in sources {
        let at = *source as usize;
        if at < uses.len() {
            let Some(count) = uses[at].checked_add(1) else {
                return Err(AllocError);
            };
            uses[at] = count;
        }
    }
    Ok(())
}

/// How often each bit feeds one.
fn uses_of(alloc: Global, rows: &Rows) -> Result<Vec<u32>, AllocError>
    requires { AreRows rows.now }
    ensures { IfOk result (λ uses. AreCounted rows.now.sources.items rows.now.bits.items uses.items) }
{
    let count = rows.bits.len();
    let mut uses = vec![in alloc; 0; count]?;
    for bit in 0..count {
        add_uses(&mut uses, sources_at(rows, bit as u32))?;
    }
    Ok(uses)
}

/// Takes the sources of a bit off the counts, and keeps those of which no use is left.
fn drop_uses(uses: &mut Vec<u32>, sources: &[u32], freed: &mut Vec<u32>) -> Result<(), AllocError>
    ensures length { length uses.new.items ≡ length uses.old.items }
    ensures dropped { OnOk result ((n : ℕ) → n < length uses.old.items → get_or uses.old.items n 0 ≤ get_or uses.new.items n 0 + count_by (nat_eq n) sources.now) }
{
    for source in sources {
        let at = *source as usize;
        if at < uses.len() {
            uses[at] = uses[at].saturating_sub(1);
            if uses[at] == 0 {
                freed.push(*source)?;
            }
        }
    }
    Ok(())
}

/// Takes a bit away that is there, and keeps those that feed nothing any more.
pub(crate) fn take(core: &mut Core, bit: u32, freed: &mut Vec<u32>) -> Result<(), AllocError>
    requires rows { AreRows core.old.rows }
    requires there { IsThere core.old.rows.bits.items bit }
    requires counted { AreCounted core.old.rows.sources.items core.old.rows.bits.items core.old.uses.items }
    ensures { OnOk result (IsWithout core.old core.new bit) }
{
    drop_uses(&mut core.uses, sources_at(&core.rows, bit), freed)?;
    let row = core.rows.bits.as_slice()[bit as usize];
    core.rows.bits[bit as usize] = BitRow {
        first: row.first,
        end: row.end,
        there: false,
    };
    Ok(())
}

/// Whether a bit is there and feeds nothing.
fn is_unused(core: &Core, bit: u32) -> bool
    ensures there { IsTrue result → IsThere core.now.rows.bits.items bit }
    ensures unused { IsTrue result → bit < length core.now.uses.items → get_or core.now.uses.items bit 0 ≡ 0 }
{
    match core.uses.get(bit as usize) {
        Some(count) => *count == 0 && is_there(&core.rows, bit),
        None => false,
    }
}

/// Takes a bit away if it feeds nothing.
fn peel_one(core: &mut Core, bit: u32, freed: &mut Vec<u32>) -> Result<(), AllocError>
    requires rows { AreRows core.old.rows }
    requires counted { AreCounted core.old.rows.sources.items core.old.rows.bits.items core.old.uses.items }
    ensures rows { OnOk result (AreRows core.new.rows) }
    ensures counted { OnOk result (AreCounted core.new.rows.sources.items core.new.rows.bits.items core.new.uses.items) }
    ensures kept { OnOk result ((sources : List (List ℕ)) → (taken : List ℕ) → IsCore sources taken core.old → IsCore sources taken core.new) }
{
    if !is_unused(core, bit) {
        return Ok(());
    }
    take(core, bit, freed)?;
    Ok(())
}

/// Takes bits away that feed nothing, among some and then among those that feed one that was taken away.
pub(crate) fn peel(core: &mut Core, freed: &mut Vec<u32>) -> Result<(), AllocError>
    requires rows { AreRows core.old.rows }
    requires counted { AreCounted core.old.rows.sources.items core.old.rows.bits.items core.old.uses.items }
    ensures rows { OnOk result (AreRows core.new.rows) }
    ensures counted { OnOk result (AreCounted core.new.rows.sources.items core.new.rows.bits.items core.new.uses.items) }
    ensures kept { OnOk result ((sources : List (List ℕ)) → (taken : List ℕ) → IsCore sources taken core.old → IsCore sources taken core.new) }
{
    for _ in 0..u64::MAX {
        let Some(bit) = freed.pop() else {
            return Ok(());
        };
        peel_one(core, bit, freed)?;
    }
    Err(AllocError)
}

/// All bits that no source is counted for.
fn unused_bits(alloc: Global, uses: &[u32]) -> Result<Vec<u32>, AllocError>
    requires { length uses.now ≤ 4294967295 }
{
    let mut unused = Vec::new(alloc);
    for (bit, count) in uses.iter().enumerate() {
        if *count == 0 {
            unused.push(bit as u32)?;
        }
    }
    Ok(unused)
}

/// What is left of bits where those are taken away, time and again, that feed nothing that is left.
pub fn core_of(alloc: Global, graph: BitGraph) -> Result<Core, AllocError>
    ensures { IfOk result (λ core. IsCore graph [] core) }
{
    let rows = graph.into_rows();
    let uses = uses_of(alloc, &rows)?;
    let mut unused = unused_bits(alloc, uses.as_slice())?;
    let mut core = Core { rows, uses };
    peel(&mut core, &mut unused)?;
    Ok(core)
}

impl Core {
    /// The bits that are left. All bits on rings are among them.
    pub fn bits(&self, alloc: Global) -> Result<Vec<u32>, AllocError>
        requires { AreRows self.now.rows }
        ensures there { IfOk result (λ bits. (n : ℕ) → IsIn n bits.items ↔ IsThere self.now.rows.bits.items n) }
        ensures rings { IfOk result (λ bits. (sources : List (List ℕ)) → IsCore sources [] self.now → (n : ℕ) → IsReached (IsFedBy sources) n n → IsIn n bits.items) }
    {
        let mut bits = Vec::new(alloc);
        for bit in 0..self.rows.bits.len() {
            if is_there(&self.rows, bit as u32) {
                bits.push(bit as u32)?;
            }
        }
        Ok(bits)
    }
}
