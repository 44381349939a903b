//! Whether a design without recursion is too large.
ghost use Rattle.std.specs.Prelude.{◌≡◌, ℕ, Some, IfOk, IsTrue, ◌↔◌};
ghost use Rattle.design_defs.specs.DesignFaults.{IsTooLarge};
ghost use Rattle.design_defs.specs.Hierarchy.{Sources, module_named};
ghost use Rattle.net_hierarchy.specs.Graph.{AreInstsApart, IsOrder, types_of};
ghost use Rattle.net_sizes.specs.Sizes.{AreCounted, AreOwnSpots, one_each};
ghost use Rattle.net_sizes.specs.Under.{Own};

use crate::depths::{depths_of, is_deeper};
use crate::sizes::{Counts, has_more, sizes_of};
use pw_defs::{Body, List, Memory};
use std::alloc::Global;

/// Whether there are more than 1,000,000 instances or 8,000,000 bits, or an instance is inside more than 100.
///
/// `ones` has one for each module, cell and model, and `bits` the number of bits that each owns.
pub fn is_too_large(
    alloc: Global,
    types: &List<List<Option<Body>>>,
    order: &[u32],
    top: u32,
    ones: &Counts,
    bits: &Counts,
) -> Result<bool, Memory>
    ensures { IfOk result (λ large. (s : Sources) → (own : Own) → types.now ≡ types_of s → module_named s s.top ≡ Some top → AreInstsApart s
        → IsOrder (types_of s) top order.now → AreCounted s one_each ones.now 1000001 → AreCounted s own bits.now 8000001 → AreOwnSpots s own
        → IsTrue large ↔ IsTooLarge s) }
{
    let instances = sizes_of(alloc, types, order, ones, 1000001)?;
    if has_more(instances.as_slice(), top, 1000000) {
        return Ok(true);
    }
    let depths = depths_of(alloc, types, order, 101)?;
    if is_deeper(depths.as_slice(), top, 100) {
        return Ok(true);
    }
    let sizes = sizes_of(alloc, types, order, bits, 8000001)?;
    let large = has_more(sizes.as_slice(), top, 8000000);
    Ok(large)
}
