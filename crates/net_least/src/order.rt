//! The order of the modules below a top, or the first fault of the hierarchy by itself.
ghost use Rattle.std.specs.Prelude.{◌≡◌, IfOk, IfErr, Some};
ghost use Rattle.design_defs.specs.DesignFaults.{FaultKind, HasNoneBefore};
ghost use Rattle.design_defs.specs.Hierarchy.{Sources, module_named, AreNamedInsts};
ghost use Rattle.net_hierarchy.specs.Firstness.{IsCause};
ghost use Rattle.net_hierarchy.specs.Graph.{AreInstsApart, IsOrder, types_of};

use crate::recursion::recursion_fault;
use crate::unknown::unknown_fault;
use module_rows::Modules;
use net_hierarchy::{Sorted, sorted_modules};
use pw_defs::{Body, DesignFault, List};
use std::alloc::Global;

/// The modules below the top, each behind those that it holds.
///
/// Errors: the first instance of a module that it is inside, else the first of a type that isn't there, or want of memory.
/// `Memory` also stands for a recursion where, on the way down to it, the name of an instance goes on from that of one beside
/// it behind a slash: which way is less isn't decided there.
pub fn ordered_modules(
    alloc: Global,
    modules: &Modules,
    types: &List<List<Option<Body>>>,
    top: u32,
) -> Result<Vec<u32>, DesignFault>
    ensures order { IfOk result (λ order. (s : Sources) → AreInstsApart s → AreNamedInsts s → s.modules ≡ modules.now.modules → types.now ≡ types_of s
        → module_named s s.top ≡ Some top → HasNoneBefore FaultKind.recursion s → IsOrder (types_of s) top order.items × HasNoneBefore FaultKind.size s) }
    ensures cause { IfErr result (λ fault. (s : Sources) → AreInstsApart s → AreNamedInsts s → s.modules ≡ modules.now.modules → types.now ≡ types_of s
        → module_named s s.top ≡ Some top → HasNoneBefore FaultKind.recursion s → IsCause s fault) }
{
    match sorted_modules(alloc, types, top)? {
        Sorted::Recursive => Err(recursion_fault(alloc, modules, types, top)),
        Sorted::Unknown(order) => {
            unknown_fault(alloc, modules, types, order.as_slice(), top)?;
            Ok(order)
        }
        Sorted::Modules(order) => Ok(order),
    }
}
