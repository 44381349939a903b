//! The order of the modules below a top, and whether there is recursion or an unknown type among them.
ghost use Rattle.std.specs.Prelude.{◌≡◌, ◌↔◌, ℕ, IsTrue, IfOk, Some, None};
ghost use Rattle.design_defs.specs.Hierarchy.{Sources, module_named};
ghost use Rattle.list_defs.specs.Members.{IsIn};
ghost use Rattle.net_hierarchy.specs.Graph.{AreInstsApart, HasUnknown, types_of};
ghost use Rattle.net_hierarchy.specs.Ordered.{IsSorted};

use crate::search;
use pw_defs::{Body, List, Memory};
use std::alloc::Global;

/// What the modules below a top are like.
#[derive(Drop)]
pub enum Sorted {
    /// An instance is of a module that it is inside.
    Recursive,
    /// There is no recursion, and an instance is of a type that isn't there. The numbers are those of all modules below the
    /// top, each behind those that it holds.
    Unknown(Vec<u32>),
    /// Neither, with the same numbers.
    Modules(Vec<u32>),
}

/// Whether an instance of a row has no type.
fn lacks_type(row: &[Option<Body>]) -> bool
    ensures { IsTrue result ↔ IsIn None row.now }
{
    for item in row {
        if item.is_none() {
            return true;
        }
    }
    false
}

/// Whether a module of the order has an instance whose type isn't there.
fn has_unknown(types: &List<List<Option<Body>>>, order: &[u32]) -> bool
    ensures { IsTrue result ↔ HasUnknown types.now order.now }
{
    for number in order {
        match types.get(*number) {
            Some(row) => {
                if lacks_type(row.as_slice()) {
                    return true;
                }
            }
            None => {}
        }
    }
    false
}

/// Puts the modules below the top in order, by the types of their instances and the number of the top.
///
/// A search through the modules, each once: instances aren't expanded.
pub fn sorted_modules(
    alloc: Global,
    types: &List<List<Option<Body>>>,
    top: u32,
) -> Result<Sorted, Memory>
    ensures { IfOk result (λ sorted. (s : Sources) → types.now ≡ types_of s → module_named s s.top ≡ Some top → AreInstsApart s → IsSorted s top sorted) }
{
    match search::order_of(alloc, types, top)? {
        Some(order) => {
            if has_unknown(types, order.as_slice()) {
                return Ok(Sorted::Unknown(order));
            }
            Ok(Sorted::Modules(order))
        }
        None => Ok(Sorted::Recursive),
    }
}
