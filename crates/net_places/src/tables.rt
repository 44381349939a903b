//! The rows of the nets of many bodies in one table.
ghost use Rattle.std.specs.Prelude.{◌≡◌, ◌+◌, ◌<◌, ◌≤◌, ◌++◌, ◌∷◌, [], List, OnOk, IfOk, IfSome, Some, length, slice_get, slice_index_or};
ghost use Rattle.net_places.specs.declared.rows.NetRow.{NetRow as Row};
ghost use Rattle.design_defs.specs.Ranges.{width};
ghost use Rattle.net_places.specs.Tables.{bits_in, placed_from};

use crate::rows::{NamedRow, NetRow};
use pw_defs::{List, Memory};
use std::alloc::Global;
use std::marker::Model;

/// Where the rows of a body are, and how many bits they have.
#[derive(Clone, Copy)]
pub struct BodyRow {
    pub first: u32,
    pub end: u32,
    pub bits: u64,
}

/// The rows of the nets of some bodies, seen as their list.
#[derive(Drop)]
pub struct Table {
    nets: List<NetRow>,
    bodies: List<BodyRow>,
}

impl Model for Table {
    ghost use Rattle.std.specs.Prelude.{List, map};
    ghost use Rattle.std.specs.List.{All};
    ghost use Rattle.net_places.specs.declared.rows.NetRow.{NetRow as Row};
    ghost use Rattle.net_places.specs.Tables.{part, IsPart};

    ghost Value = { List (List Row) };

    ghost view = { λ t. map (part t.nets) t.bodies };

    ghost invariant = { λ t. All (IsPart t.nets) t.bodies };
}

/// How many bits a net has.
pub fn width(range: Option<(u32, u32)>) -> u64
    ensures { result ≡ width range }
{
    match range {
        Some((left, right)) => {
            u64::from(left.saturating_sub(right)) + u64::from(right.saturating_sub(left)) + 1
        }
        None => 1,
    }
}

/// A sum of numbers of bits.
fn sum_of(bits: u64, more: u64) -> Result<u64, Memory>
    ensures { IfOk result (λ sum. sum ≡ bits + more) }
{
    bits.checked_add(more).ok_or(Memory)
}

/// A net, by its number among those from one on.
fn net_behind(nets: &List<NetRow>, first: u32, net: u32) -> NetRow
    requires { first + net < length nets.now }
    ensures { slice_get nets.now (first + net) ≡ Some result }
{
    nets.as_slice()[first as usize + net as usize]
}

/// Puts rows behind others, each with the number of its first bit, and says how many bits they have.
fn put_rows(rows: &[NamedRow], nets: &mut List<NetRow>) -> Result<u64, Memory>
    ensures rows { IfOk result (λ _. nets.new ≡ nets.old ++ placed_from 0 rows.now) }
    ensures bits { IfOk result (λ bits. bits ≡ bits_in (placed_from 0 rows.now)) }
    ensures longer { (more : List Row) × (nets.new ≡ nets.old ++ more) }
{
    let mut bits: u64 = 0;
    for named in rows {
        nets.push(NetRow {
            name: named.row.name,
            range: named.row.range,
            port: named.row.port,
            first: bits,
        })?;
        bits = sum_of(bits, width(named.row.range))?;
    }
    Ok(bits)
}

impl Table {
    /// A table of no bodies.
    pub fn new(alloc: Global) -> Table
        ensures { result ≡ [] }
    {
        Table {
            nets: List::new(alloc),
            bodies: List::new(alloc),
        }
    }

    /// Adds a body with its rows, each with the number of its first bit.
    pub fn add(&mut self, rows: &[NamedRow]) -> Result<(), Memory>
        ensures { OnOk result (self.new ≡ self.old ++ placed_from 0 rows.now ∷ []) }
    {
        let first = self.nets.len();
        let bits = put_rows(rows, &mut self.nets)?;
        let end = self.nets.len();
        self.bodies.push(BodyRow { first, end, bits })?;
        Ok(())
    }

    /// How many bodies there are.
    pub fn len(&self) -> u32
        ensures { result ≡ length self.now }
    {
        self.bodies.len()
    }

    /// How many nets a body has.
    pub fn nets(&self, body: u32) -> u32
        ensures { result ≡ length (slice_index_or self.now body []) }
    {
        match self.bodies.get(body) {
            Some(row) => row.end - row.first,
            None => 0,
        }
    }

    /// How many bits a body has.
    pub fn bits(&self, body: u32) -> u64
        ensures { result ≡ bits_in (slice_index_or self.now body []) }
    {
        match self.bodies.get(body) {
            Some(row) => row.bits,
            None => 0,
        }
    }

    /// A net of a body, by its number among the nets in the order of their names.
    pub fn net(&self, body: u32, net: u32) -> Option<NetRow>
        ensures net { result ≡ slice_get (slice_index_or self.now body []) net }
        ensures bits { IfSome result (λ _. bits_in (slice_index_or self.now body []) ≤ 18446744073709551615) }
    {
        match self.bodies.get(body) {
            Some(row) => {
                let row = *row;
                if net < row.end - row.first {
                    Some(net_behind(&self.nets, row.first, net))
                } else {
                    None
                }
            }
            None => None,
        }
    }
}
