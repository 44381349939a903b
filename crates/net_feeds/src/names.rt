//! The least name of some bits.
ghost use Rattle.std.specs.Prelude.{◌≡◌, List, IfOk, take};
ghost use Rattle.design_defs.specs.Bits.{IsSpot, Spot, spot_cmp};
ghost use Rattle.design_defs.specs.Hierarchy.{Sources};
ghost use Rattle.list_defs.specs.Orders.{AreAllRising};
ghost use Rattle.net_bits.specs.Placed.{ArePlaced};
ghost use Rattle.net_feeds.specs.LeastNames.{IsLeastName, IsLesser, IsNameOf};

use net_bits::{Placed, put_bit_name};
use pw_defs::{Bytes, Memory, Name};
use std::alloc::Global;
use std::cmp::Ordering;

/// The name of a bit.
fn name_of(alloc: Global, placed: &Placed, bit: u32) -> Result<Name, Memory>
    ensures { IfOk result (λ name. (s : Sources) → ArePlaced s placed.now → (spots : List Spot) → AreAllRising spot_cmp (IsSpot s) spots → IsNameOf s spots bit name) }
{
    let mut text = Bytes::new(alloc);
    put_bit_name(alloc, placed, bit, &mut text)?;
    let name = Name::from_vec(text.into_vec()).ok_or(Memory)?;
    Ok(name)
}

/// The lesser of two names.
fn lesser(best: Option<Name>, next: Name) -> Name
    ensures { IsLesser best next result }
{
    match best {
        Some(best) => match next.cmp(&best) {
            Ordering::Less => next,
            Ordering::Equal | Ordering::Greater => best,
        },
        None => next,
    }
}

/// The least name of some bits.
pub(crate) fn least_name(alloc: Global, placed: &Placed, bits: &[u32]) -> Result<Name, Memory>
    ensures { IfOk result (λ name. (s : Sources) → ArePlaced s placed.now → (spots : List Spot) → AreAllRising spot_cmp (IsSpot s) spots → IsLeastName s spots bits.now name) }
{
    let mut least = None;
    for bit in bits {
        let name = name_of(alloc, placed, *bit)?;
        least = Some(lesser(least, name));
    }
    match least {
        Some(name) => Ok(name),
        None => Err(Memory),
    }
}
