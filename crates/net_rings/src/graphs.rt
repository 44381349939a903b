//! Bits with what feeds each, in rows.
ghost use Rattle.std.specs.Prelude.{◌≡◌, ◌++◌, ◌∷◌, ◌↔◌, [], IsTrue, OnOk, get_or};
ghost use Rattle.net_rings.specs.Fed.{AreRows, AreThere, IsThere, sources_of};

use std::alloc::{AllocError, Global};
use std::marker::Model;

/// A bit: its sources are those from `first` to `end`.
#[derive(Clone, Copy)]
pub(crate) struct BitRow {
    pub(crate) first: u32,
    pub(crate) end: u32,
    pub(crate) there: bool,
}

/// All bits and all sources.
#[derive(Drop)]
pub(crate) struct Rows {
    pub(crate) bits: Vec<BitRow>,
    pub(crate) sources: Vec<u32>,
}

/// Bits by their numbers, seen as what feeds each.
#[derive(Drop)]
pub struct BitGraph {
    rows: Rows,
}

impl Model for BitGraph {
    ghost use Rattle.std.specs.Prelude.{ℕ, List};
    ghost use Rattle.net_rings.specs.Fed.{AreRows, AreThere, IsThere, sources_of};

    ghost Value = { List (List ℕ) };

    ghost view = { λ g. sources_of g.rows };

    ghost invariant = { λ g. AreRows g.rows × AreThere g.rows.bits.items };
}

impl BitGraph {
    /// No bits.
    pub fn new(alloc: Global) -> BitGraph
        ensures { result ≡ [] }
    {
        BitGraph {
            rows: Rows {
                bits: Vec::new(alloc),
                sources: Vec::new(alloc),
            },
        }
    }

    /// Adds a bit behind the others, with what feeds it.
    pub fn add_bit(&mut self, sources: &[u32]) -> Result<(), AllocError>
        ensures ok { OnOk result (self.new ≡ self.old ++ sources.now ∷ []) }
    {
        add_row(&mut self.rows, sources)
    }

    /// The bits in rows.
    pub(crate) fn into_rows(self) -> Rows
        ensures rows { AreRows result }
        ensures there { AreThere result.bits.items }
        ensures same { sources_of result ≡ self }
    {
        let BitGraph { rows } = self;
        rows
    }
}

/// Adds a bit behind the others, with what feeds it.
fn add_row(rows: &mut Rows, sources: &[u32]) -> Result<(), AllocError>
    requires rows { AreRows rows.old }
    requires there { AreThere rows.old.bits.items }
    ensures rows { AreRows rows.new }
    ensures there { AreThere rows.new.bits.items }
    ensures ok { OnOk result (sources_of rows.new ≡ sources_of rows.old ++ sources.now ∷ []) }
{
    let first = rows.sources.len();
    if sources.len() > 4294967295 - first || rows.bits.len() >= 4294967295 {
        return Err(AllocError);
    }
    rows.bits.reserve(1)?;
    rows.sources.extend_from_slice(sources)?;
    rows.bits.push_reserved(BitRow {
        first: first as u32,
        end: rows.sources.len() as u32,
        there: true,
    });
    Ok(())
}

/// Whether a bit is there.
pub(crate) fn is_there(rows: &Rows, bit: u32) -> bool
    ensures { IsTrue result ↔ IsThere rows.now.bits.items bit }
{
    match rows.bits.get(bit as usize) {
        Some(row) => row.there,
        None => false,
    }
}

/// What feeds a bit, nothing where there is no such bit.
pub(crate) fn sources_at(rows: &Rows, bit: u32) -> &[u32]
    requires { AreRows rows.now }
    ensures { result.now ≡ get_or (sources_of rows.now) bit [] }
{
    match rows.bits.get(bit as usize) {
        Some(row) => &rows.sources[row.first as usize..row.end as usize],
        None => &[],
    }
}
