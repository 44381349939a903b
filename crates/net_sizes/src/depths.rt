//! How deep the hierarchy is below each module.
ghost use Rattle.std.specs.Prelude.{◌≡◌, ◌+◌, ℕ, Some, IfOk, IsTrue, ◌↔◌};
ghost use Rattle.design_defs.specs.Hierarchy.{Sources, module_named};
ghost use Rattle.net_sizes.specs.Depths.{AreDeep, HasDeeper, IsDeep, IsDeepest, depth_in};
ghost use Rattle.net_hierarchy.specs.Graph.{AreInstsApart, IsOrder, types_of};
ghost use Rattle.net_sizes.specs.Sizes.{row_in};

use crate::sizes::{number_at, set_number};
use pw_defs::{Body, List, Memory};
use std::alloc::Global;

/// How deep the hierarchy is at an instance, the instance among it; no more than `most`.
fn depth_at(depths: &[u64], item: Option<Body>, most: u64) -> u64
    ensures { result ≡ depth_in depths.now most item }
{
    match item {
        Some(body) => match body {
            Body::Module(number) => number_at(depths, number).saturating_add(1).min(most),
            Body::Cell(_) | Body::Model(_) => most.min(1),
        },
        None => 0,
    }
}

/// The depth at the deepest instance of a row.
fn deepest(depths: &[u64], row: &[Option<Body>], most: u64) -> u64
    ensures { IsDeepest (depth_in depths.now most) row.now result }
{
    let mut depth = 0;
    for item in row {
        depth = depth_at(depths, *item, most).max(depth);
    }
    depth
}

/// The depth below a module.
fn depth_of(types: &List<List<Option<Body>>>, depths: &[u64], number: u32, most: u64) -> u64
    ensures { IsDeepest (depth_in depths.now most) (row_in types.now number) result }
{
    match types.get(number) {
        Some(row) => deepest(depths, row.as_slice(), most),
        None => 0,
    }
}

/// How deep the hierarchy is below each of the modules in the order, by their numbers; no more than `most`.
pub fn depths_of(
    alloc: Global,
    types: &List<List<Option<Body>>>,
    order: &[u32],
    most: u64,
) -> Result<Vec<u64>, Memory>
    ensures { IfOk result (λ depths. (s : Sources) → (top : ℕ) → types.now ≡ types_of s → module_named s s.top ≡ Some top → AreInstsApart s
        → IsOrder (types_of s) top order.now → AreDeep s most depths.items order.now) }
{
    let mut depths = vec![in alloc; 0; types.len() as usize]?;
    for number in order {
        let depth = depth_of(types, depths.as_slice(), *number, most);
        set_number(&mut depths, *number, depth);
    }
    Ok(depths)
}

/// Whether an instance is inside more than a limit of others, by depths up to one more than that.
pub fn is_deeper(depths: &[u64], top: u32, limit: u64) -> bool
    ensures { (s : Sources) → module_named s s.top ≡ Some top → IsDeep s (limit + 1) depths.now top → IsTrue result ↔ HasDeeper s limit }
{
    limit < number_at(depths, top)
}
