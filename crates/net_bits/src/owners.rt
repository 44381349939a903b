//! The instance and the net that a bit is of, found by where their bits begin.
ghost use Rattle.std.specs.Prelude.{◌≡◌, ◌-◌, ◌<◌, ◌≤◌, ℕ, false, List, Some, IfSome, IsTrue, length, slice_get};
ghost use Rattle.design_defs.specs.Bits.{IsSpot, Spot, spot_cmp};
ghost use Rattle.design_defs.specs.Hierarchy.{Sources};
ghost use Rattle.list_defs.specs.Orders.{AreAllRising};
ghost use Rattle.net_instances.specs.declared.numbering.InstanceRow.{InstanceRow as Instance};
ghost use Rattle.net_places.specs.Plans.{rows_at};
ghost use Rattle.net_places.specs.declared.rows.NetRow.{NetRow as Net};
ghost use Rattle.net_bits.specs.Placed.{ArePlaced};
ghost use Rattle.net_bits.specs.Standing.{IsBegun, IsLastBegun, IsPlaceOf};

use crate::placed::Placed;
use net_instances::InstanceRow;
use net_places::{NetRow, Plans};
use pw_defs::{Body, List};

/// Where a bit stands: the number of the instance that owns it, what this is an instance of, the name and the range of the
/// net, and the place in it.
///
/// The name is a symbol in a module, and the number of the pin or port in a cell or a model.
#[derive(Clone, Copy)]
pub struct BitPlace {
    pub owner: u32,
    pub body: Body,
    pub name: u32,
    pub range: Option<(u32, u32)>,
    pub place: u32,
}

/// How many instances begin at or before a bit.
fn begun(rows: &[InstanceRow], bit: u32) -> usize
    ensures within { result ≤ length rows.now }
    ensures begun { IsBegun (λ (row : Instance). row.first_bit) rows.now bit result }
{
    let mut low = 0;
    let mut high = rows.len();
    while low < high {
        let middle = low + (high - low) / 2;
        if rows[middle].first_bit <= bit {
            low = middle + 1;
        } else {
            high = middle;
        }
    }
    low
}

/// The last instance that begins at or before a bit, with its number.
fn owner_of(rows: &List<InstanceRow>, bit: u32) -> Option<(u32, InstanceRow)>
    ensures { IfSome result (λ o. IsLastBegun (λ (row : Instance). row.first_bit) rows.now bit o.0 o.1) }
{
    let rows = rows.as_slice();
    let last = begun(rows, bit).checked_sub(1)?;
    Some((last as u32, rows[last]))
}

/// Whether a net of a body begins at or before a bit.
fn begins_by(plans: &Plans, body: Body, net: u32, bit: u32) -> bool
    ensures by { IsTrue result → (row : Net) → slice_get (rows_at plans.now body) net ≡ Some row → row.first ≤ bit }
    ensures behind { result ≡ false → (row : Net) → slice_get (rows_at plans.now body) net ≡ Some row → bit < row.first }
{
    match plans.net(body, net) {
        Some(row) => row.first <= u64::from(bit),
        None => false,
    }
}

/// How many nets of a body begin at or before a bit.
fn nets_begun(plans: &Plans, body: Body, bit: u32) -> u32
    ensures { IsBegun (λ (row : Net). row.first) (rows_at plans.now body) bit result }
{
    let mut low = 0;
    let mut high = plans.nets(body);
    while low < high {
        let middle = low + (high - low) / 2;
        if begins_by(plans, body, middle, bit) {
            low = middle + 1;
        } else {
            high = middle;
        }
    }
    low
}

/// The last net of a body that begins at or before a bit.
fn net_of(plans: &Plans, body: Body, bit: u32) -> Option<NetRow>
    ensures { IfSome result (λ row. (place : ℕ) × IsLastBegun (λ (r : Net). r.first) (rows_at plans.now body) bit place row) }
{
    let last = nets_begun(plans, body, bit).checked_sub(1)?;
    plans.net(body, last)
}

/// How far a bit is behind the first one of its net.
fn place_in(bit: u32, first: u64) -> u32
    ensures { result ≡ bit - first }
{
    u64::from(bit).saturating_sub(first) as u32
}

/// Where the bit of a number stands.
pub fn place_of_bit(placed: &Placed, bit: u32) -> Option<BitPlace>
    ensures { IfSome result (λ at. (s : Sources) → (there : ArePlaced s placed.now) → (spots : List Spot) → AreAllRising spot_cmp (IsSpot s) spots
        → (x : Spot) → slice_get spots bit ≡ Some x → IsPlaceOf s placed.now.modules.now.symbols (there.instances.ways) x at) }
{
    let (owner, row) = owner_of(&placed.instances.rows, bit)?;
    let local = bit.saturating_sub(row.first_bit);
    let net = net_of(placed.plans, row.body, local)?;
    Some(BitPlace {
        owner,
        body: row.body,
        name: net.name,
        range: net.range,
        place: place_in(local, net.first),
    })
}
