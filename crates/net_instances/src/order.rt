//! The instances in order: a walk goes through them in the order of their names, and the order is compared once.
ghost use Rattle.std.specs.Prelude.{◌≡◌, ◌<◌, ℕ, Some, map, length, slice_get, IfOk, IfSome, IsTrue};
ghost use Rattle.std.specs.List.{All};
ghost use Rattle.design_defs.specs.Hierarchy.{way_cmp};
ghost use Rattle.list_defs.specs.Orders.{IsRising};
ghost use Rattle.net_instances.specs.Orders.{ArePlaces, IsInOrder};
ghost use Rattle.net_instances.specs.Ways.{AreAllNamed, way_in};

use crate::texts::compare;
use crate::tree::{Tree, TreeRow};
use crate::walk::walk_of;
use module_rows::Modules;
use pw_defs::{Body, List, Memory};
use std::alloc::Global;
use std::cmp::Ordering;

/// Whether each of these instances comes before the next one.
fn is_rising(modules: &Modules, rows: &[TreeRow], order: &[u32]) -> bool
    ensures { IsTrue result → All (λ n. n < length rows.now) order.now → AreAllNamed modules.now.symbols rows.now
        → IsRising way_cmp (map (way_in modules.now.symbols rows.now) order.now) }
{
    for at in 1..order.len() {
        match compare(modules, rows, order[at - 1], order[at]) {
            Ordering::Less => {}
            Ordering::Equal | Ordering::Greater => return false,
        }
    }
    true
}

/// Whether each of some numbers is less than a count.
fn are_within(order: &[u32], count: u32) -> bool
    ensures { IsTrue result → All (λ n. n < count) order.now }
{
    for n in order {
        if *n >= count {
            return false;
        }
    }
    true
}

/// The places of numbers in an order. A number that doesn't stand there has the place 0.
fn places_in(alloc: Global, order: &[u32], count: u32) -> Result<Vec<u32>, Memory>
    ensures { IfOk result (λ places. length places.items ≡ count) }
{
    let mut places = vec![in alloc; 0; count as usize]?;
    let mut place = 0u32;
    for n in order {
        if (*n as usize) < places.len() {
            places[*n as usize] = place;
        }
        place = place.saturating_add(1);
    }
    Ok(places)
}

/// Whether each number stands in the order at its place.
fn are_placed(order: &[u32], places: &[u32]) -> bool
    ensures { IsTrue result → ArePlaces order.now places.now (length places.now) }
{
    for n in 0..places.len() {
        match order.get(places[n] as usize) {
            Some(there) => {
                if *there as usize != n {
                    return false;
                }
            }
            None => return false,
        }
    }
    true
}

/// The instances in order, by their numbers among the rows, and the place of each in the order.
#[derive(Drop)]
pub(crate) struct Order {
    pub(crate) numbers: Vec<u32>,
    pub(crate) places: Vec<u32>,
}

/// The order, where these are all instances in order.
fn checked(
    alloc: Global,
    modules: &Modules,
    rows: &List<TreeRow>,
    numbers: Vec<u32>,
) -> Result<Option<Order>, Memory>
    ensures { IfOk result (λ found. IfSome found (λ order. IsInOrder modules.now.symbols rows.now order.numbers.items order.places.items)) }
{
    let places = places_in(alloc, numbers.as_slice(), rows.len())?;
    if !are_within(numbers.as_slice(), rows.len()) {
        return Ok(None);
    }
    if !are_placed(numbers.as_slice(), places.as_slice()) {
        return Ok(None);
    }
    if !is_rising(modules, rows.as_slice(), numbers.as_slice()) {
        return Ok(None);
    }
    Ok(Some(Order { numbers, places }))
}

/// All instances, sorted by comparing them.
fn sorted(alloc: Global, modules: &Modules, rows: &List<TreeRow>) -> Result<Vec<u32>, Memory> {
    let mut numbers = Vec::with_capacity(alloc, rows.len() as usize)?;
    for n in 0..rows.len() {
        numbers.push(n)?;
    }
    numbers.sort_by(|left, right| compare(modules, rows.as_slice(), *left, *right))?;
    Ok(numbers)
}

/// Puts all instances in order. The walk meets them in order but where a name with a slash in it says otherwise, and only
/// then they are sorted. What is answered has been looked at as a whole: numbers that are not all instances in order would
/// be answered as want of memory.
pub(crate) fn order_of(
    alloc: Global,
    modules: &Modules,
    types: &List<List<Option<Body>>>,
    tree: &Tree,
) -> Result<Order, Memory>
    ensures { IfOk result (λ order. IsInOrder modules.now.symbols tree.now.rows order.numbers.items order.places.items) }
{
    let walked = walk_of(alloc, modules, types, tree)?;
    match checked(alloc, modules, &tree.rows, walked)? {
        Some(order) => return Ok(order),
        None => {}
    }
    let sorted = sorted(alloc, modules, &tree.rows)?;
    let order = checked(alloc, modules, &tree.rows, sorted)?.ok_or(Memory)?;
    Ok(order)
}
