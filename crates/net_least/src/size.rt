//! A design that is too large, as an answer.
ghost use Rattle.std.specs.Prelude.{◌≡◌, ℕ, Some, IfOk, IfErr, codes};
ghost use Rattle.design_defs.specs.DesignFaults.{FaultKind, HasNoneBefore};
ghost use Rattle.design_defs.specs.Hierarchy.{Sources, module_named};
ghost use Rattle.net_hierarchy.specs.Firstness.{IsCause};
ghost use Rattle.net_hierarchy.specs.Graph.{AreInstsApart, IsOrder, types_of};
ghost use Rattle.net_sizes.specs.Sizes.{AreCounted, AreOwnSpots, one_each};
ghost use Rattle.net_sizes.specs.Under.{Own};

use net_sizes::{Counts, is_too_large};
use pw_defs::{AtModule, Body, DesignFault, List, Memory, Name};
use std::alloc::Global;

/// The place of what is refused at no line and has no name.
fn at_nothing(alloc: Global) -> Result<AtModule, Memory>
    ensures { IfOk result (λ at. at ≡ record { «module» = 0; line = 0; name = codes "-" }) }
{
    Ok(AtModule {
        module: 0,
        line: 0,
        name: Name::from_slice(alloc, b"-")?,
    })
}

/// The fault of a design that is too large, by the modules below the top in order and what each of them has by itself.
///
/// `ones` has one for each module, cell and model, and `bits` the number of bits that each owns. Errors: the fault, or
/// want of memory.
pub fn size_fault(
    alloc: Global,
    types: &List<List<Option<Body>>>,
    order: &[u32],
    top: u32,
    ones: &Counts,
    bits: &Counts,
) -> Result<(), DesignFault>
    ensures none { IfOk result (λ _. (s : Sources) → (own : Own) → types.now ≡ types_of s → module_named s s.top ≡ Some top → AreInstsApart s
        → IsOrder (types_of s) top order.now → AreCounted s one_each ones.now 1000001 → AreCounted s own bits.now 8000001 → AreOwnSpots s own
        → HasNoneBefore FaultKind.size s → HasNoneBefore FaultKind.unknown_port s) }
    ensures cause { IfErr result (λ fault. (s : Sources) → (own : Own) → types.now ≡ types_of s → module_named s s.top ≡ Some top → AreInstsApart s
        → IsOrder (types_of s) top order.now → AreCounted s one_each ones.now 1000001 → AreCounted s own bits.now 8000001 → AreOwnSpots s own
        → HasNoneBefore FaultKind.size s → IsCause s fault) }
{
    if is_too_large(alloc, types, order, top, ones, bits)? {
        let at = at_nothing(alloc)?;
        return Err(DesignFault::X1(at));
    }
    Ok(())
}
