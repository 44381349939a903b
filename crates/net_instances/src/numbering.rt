//! The instances of a design by their numbers, in the order of their paths.
ghost use Rattle.std.specs.Prelude.{◌≡◌, ◌+◌, ℕ, Some, IfOk, IfSome, slice_get};
ghost use Rattle.design_defs.specs.Hierarchy.{Sources, module_named, AreNamedInsts};
ghost use Rattle.net_hierarchy.specs.Graph.{AreInstsApart, types_of};
ghost use Rattle.net_sizes.specs.Sizes.{count_in};
ghost use Rattle.net_instances.specs.Instances.{AreInstances, AreRowsOf, child_in, row_in};

use crate::order::{Order, order_of};
use crate::tree::{Tree, tree_of};
use module_rows::Modules;
use net_sizes::Counts;
use pw_defs::{Body, List, Memory};
use std::alloc::Global;

/// An instance: the number of what it is inside, the number of its line there, the symbol of its name, what it is an
/// instance of, the number of its first bit, and where the numbers of the instances inside it begin among those of all.
/// The first three are 0 for the top.
#[derive(Clone, Copy)]
pub struct InstanceRow {
    pub parent: u32,
    pub inst: u32,
    pub name: u32,
    pub body: Body,
    pub first_bit: u32,
    pub first_child: u32,
}

/// All instances in order. Those inside one of them have the numbers that stand in `children` from `first_child` on, in the
/// order of the lines of its module.
#[derive(Drop)]
pub struct Instances {
    pub rows: List<InstanceRow>,
    pub children: List<u32>,
}

impl Instances {
    /// The number of the instance that a line makes inside another, by the number of that line in the module of the other.
    pub fn child(&self, holder: u32, inst: u32) -> Option<u32>
        ensures { result ≡ child_in self.now.rows self.now.children holder inst }
    {
        let row = self.rows.get(holder)?;
        let place = row.first_child as usize + inst as usize;
        self.children.as_slice().get(place).copied()
    }
}

/// How many bits a body owns.
fn bits_of(bits: &Counts, body: Body) -> u64
    ensures { result ≡ count_in bits.now body }
{
    let (numbers, at) = match body {
        Body::Module(number) => (&bits.modules, number),
        Body::Cell(number) => (&bits.cells, number),
        Body::Model(number) => (&bits.models, number),
    };
    match numbers.get(at as usize) {
        Some(number) => *number,
        None => 0,
    }
}

/// A sum, where it can be the number of a bit.
fn sum_of(first: u32, more: u64) -> Option<u32>
    ensures { IfSome result (λ sum. sum ≡ first + more) }
{
    if more > 4294967295 {
        return None;
    }
    first.checked_add(more as u32)
}

/// The place of a number.
fn place_of(places: &[u32], n: u32) -> Option<u32>
    ensures { result ≡ slice_get places.now n }
{
    places.get(n as usize).copied()
}

/// The instance that has a number among the rows of the tree, with this as its first bit.
fn row_of(tree: &Tree, places: &[u32], n: u32, first_bit: u32) -> Option<InstanceRow>
    ensures { result ≡ row_in tree.now.rows tree.now.firsts places.now n first_bit }
{
    let old = tree.rows.get(n)?;
    let first_child = tree.firsts.get(n)?;
    let parent = place_of(places, old.parent)?;
    Some(InstanceRow {
        parent,
        inst: old.inst,
        name: old.name,
        body: old.body,
        first_bit,
        first_child: *first_child,
    })
}

/// The instances in this order, with their bits one behind another.
fn rows_of(
    alloc: Global,
    tree: &Tree,
    order: &[u32],
    places: &[u32],
    bits: &Counts,
) -> Result<List<InstanceRow>, Memory>
    ensures { IfOk result (λ rows. AreRowsOf tree.now.rows tree.now.firsts order.now places.now bits.now rows) }
{
    let mut rows = List::new(alloc);
    let mut next_bit = 0;
    for n in order {
        let row = row_of(tree, places, *n, next_bit).ok_or(Memory)?;
        next_bit = sum_of(next_bit, bits_of(bits, row.body)).ok_or(Memory)?;
        rows.push(row)?;
    }
    Ok(rows)
}

/// All instances of a design whose top has this number, by the types of the lines of each module and how many bits each
/// body owns.
///
/// Time goes with the instances, and with the lines of modules times the logarithm of their number. The instances are
/// sorted as a whole only where one has a name with a slash in it that stands between another's and what is inside that.
pub fn instances_of(
    alloc: Global,
    modules: &Modules,
    types: &List<List<Option<Body>>>,
    bits: &Counts,
    top: u32,
) -> Result<Instances, Memory>
    ensures { IfOk result (λ made. (s : Sources) → s.modules ≡ modules.now.modules → types.now ≡ types_of s → module_named s s.top ≡ Some top → AreInstsApart s
        → AreNamedInsts s → AreInstances s modules.now bits.now made) }
{
    let tree = tree_of(alloc, modules, types, top)?;
    let Order { numbers, places } = order_of(alloc, modules, types, &tree)?;
    let rows = rows_of(alloc, &tree, numbers.as_slice(), places.as_slice(), bits)?;
    let children = List::from_vec(places).ok_or(Memory)?;
    Ok(Instances { rows, children })
}
