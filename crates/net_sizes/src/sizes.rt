//! How much there is below each module, added up from below, without going to each instance.
ghost use Rattle.std.specs.Prelude.{◌≡◌, ◌+◌, ℕ, Some, min, map, sum, slice_index, set, IfOk, IsTrue, ◌↔◌};
ghost use Rattle.design_defs.specs.Bits.{IsSpot};
ghost use Rattle.list_defs.specs.Members.{HasMoreThan};
ghost use Rattle.design_defs.specs.Hierarchy.{IsInstance, Sources, module_named};
ghost use Rattle.net_hierarchy.specs.Graph.{AreInstsApart, IsOrder, types_of};
ghost use Rattle.net_sizes.specs.Sizes.{AreCounted, AreOwnSpots, AreSized, IsSized, one_each, part_in, row_in};
ghost use Rattle.net_sizes.specs.Under.{Own};

use pw_defs::{Body, List, Memory};
use std::alloc::Global;

/// How much modules, cells and models have by themselves, by their numbers.
#[derive(Drop)]
pub struct Counts {
    pub modules: Vec<u64>,
    pub cells: Vec<u64>,
    pub models: Vec<u64>,
}

/// A number of a list, or 0 past its end.
pub(crate) fn number_at(numbers: &[u64], at: u32) -> u64
    ensures { result ≡ slice_index numbers.now at }
{
    match numbers.get(at as usize) {
        Some(number) => *number,
        None => 0,
    }
}

/// How much there is at an instance, by its type and what was added up for the modules so far.
fn part_at(counts: &Counts, totals: &[u64], item: Option<Body>) -> u64
    ensures { result ≡ part_in counts.now totals.now item }
{
    match item {
        Some(body) => match body {
            Body::Module(number) => number_at(totals, number),
            Body::Cell(number) => number_at(counts.cells.as_slice(), number),
            Body::Model(number) => number_at(counts.models.as_slice(), number),
        },
        None => 0,
    }
}

/// A sum of what is at some instances, begun with a number; no more than `most`.
fn sum_of(counts: &Counts, totals: &[u64], row: &[Option<Body>], first: u64, most: u64) -> u64
    ensures { result ≡ min most (first + sum (map (part_in counts.now totals.now) row.now)) }
{
    let mut total = first.min(most);
    for item in row {
        total = total
            .saturating_add(part_at(counts, totals, *item))
            .min(most);
    }
    total
}

/// How much there is below a module, by what was added up for those that it holds; no more than `most`.
fn total_of(
    types: &List<List<Option<Body>>>,
    counts: &Counts,
    totals: &[u64],
    number: u32,
    most: u64,
) -> u64
    ensures { result ≡ min most (slice_index counts.now.modules.items number + sum (map (part_in counts.now totals.now) (row_in types.now number))) }
{
    let own = number_at(counts.modules.as_slice(), number);
    match types.get(number) {
        Some(row) => sum_of(counts, totals, row.as_slice(), own, most),
        None => own.min(most),
    }
}

/// Sets a number of a list, where there is a place for it.
pub(crate) fn set_number(numbers: &mut Vec<u64>, at: u32, number: u64)
    ensures { numbers.new.items ≡ set numbers.old.items at number }
{
    if (at as usize) < numbers.len() {
        numbers[at as usize] = number;
    }
}

/// How much there is below each of the modules in the order, by their numbers; no more than `most`.
///
/// Each module is added up once, from the types of its instances.
pub fn sizes_of(
    alloc: Global,
    types: &List<List<Option<Body>>>,
    order: &[u32],
    counts: &Counts,
    most: u64,
) -> Result<Vec<u64>, Memory>
    ensures { IfOk result (λ sizes. (s : Sources) → (own : Own) → (top : ℕ) → types.now ≡ types_of s → module_named s s.top ≡ Some top → AreInstsApart s
        → IsOrder (types_of s) top order.now → AreCounted s own counts.now most → AreSized s own most sizes.items order.now) }
{
    let mut totals = vec![in alloc; 0; types.len() as usize]?;
    for number in order {
        let total = total_of(types, counts, totals.as_slice(), *number, most);
        set_number(&mut totals, *number, total);
    }
    Ok(totals)
}

/// Whether there is more than a limit below the top, by sizes that were added up to one more than that.
pub fn has_more(sizes: &[u64], top: u32, limit: u64) -> bool
    ensures instances { (s : Sources) → module_named s s.top ≡ Some top → IsSized s one_each (limit + 1) sizes.now top
        → IsTrue result ↔ HasMoreThan limit (IsInstance s) }
    ensures bits { (s : Sources) → (own : Own) → module_named s s.top ≡ Some top → IsSized s own (limit + 1) sizes.now top → AreOwnSpots s own
        → IsTrue result ↔ HasMoreThan limit (IsSpot s) }
{
    limit < number_at(sizes, top)
}
