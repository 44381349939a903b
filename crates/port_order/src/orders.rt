//! The order of all ports and pins, and what is found in it.
ghost use Rattle.std.specs.Prelude.{◌≡◌, ◌≤◌, true, false, length, slice_get, IfOk};
ghost use Rattle.std.specs.List.{IsAllAdjacentAnswer, position};
ghost use Rattle.std.specs.List.Sorted.{IsPartitionPoint, IsPermutation};
ghost use Rattle.std.specs.Option.{option_and_then};
ghost use Rattle.std.specs.Ordering.{is_lt};
ghost use Rattle.list_defs.specs.Orders.{IsRising};
ghost use Rattle.design_defs.specs.Ports.{ports_among};
ghost use Rattle.port_order.specs.PortNames.{has_name};
ghost use Rattle.port_order.specs.PortOrders.{IsPortOrder, key_cmp, key_of, port_cmp};

use crate::keys::{PortNumber, is_before, key_order, number_order};
use crate::listing;
use pw_defs::{Body, Cells, List, Model as SoftMacro, Module};
use std::alloc::{AllocError, Global};
use std::cmp::Ordering;
use std::marker::Model;

/// The numbers of all ports and pins, in order by what they are of, by name and by number: 12 bytes for each.
#[derive(Drop)]
pub struct PortOrder {
    numbers: Vec<PortNumber>,
}

impl Model for PortOrder {
    ghost use Rattle.std.specs.Prelude.{List};
    ghost use Rattle.port_order.specs.declared.keys.PortNumber.{PortNumber as AnyPort};

    ghost Value = { List AnyPort };

    ghost view = { λ order. order.numbers.items };
}

impl PortOrder {
    /// The ports of these modules, cells and models in order. An error says that memory ended.
    pub fn new(
        alloc: Global,
        modules: &List<Module>,
        cells: &Cells,
        models: &List<SoftMacro>,
    ) -> Result<PortOrder, AllocError>
        ensures { IfOk result (λ order. IsPortOrder modules.now cells.now models.now order) }
    {
        let mut numbers = listing::all_ports(alloc, modules, cells, models)?;
        sort(modules, cells, models, &mut numbers);
        if !are_rising(modules, cells, models, numbers.as_slice()) {
            return Err(AllocError);
        }
        Ok(PortOrder { numbers })
    }

    /// The first port or pin of a body that has this name, in the order of those modules, cells and models.
    pub fn find(
        &self,
        modules: &List<Module>,
        cells: &Cells,
        models: &List<SoftMacro>,
        body: Body,
        name: &[u8],
    ) -> Option<u32>
        requires { IsPortOrder modules.now cells.now models.now self.now }
        ensures { result ≡ option_and_then (position (has_name name.now)) (ports_among modules.now cells.now models.now body) }
    {
        let numbers = self.numbers.as_slice();
        let place = first_place(numbers, modules, cells, models, body, name);
        let number = number_at(numbers, place)?;
        match key_order(modules, cells, models, number, body, name) {
            Ordering::Equal => Some(number.port),
            _ => None,
        }
    }
}

/// How many ports come before those that are of this body and have this name.
fn first_place(
    numbers: &[PortNumber],
    modules: &List<Module>,
    cells: &Cells,
    models: &List<SoftMacro>,
    body: Body,
    name: &[u8],
) -> usize
    requires { IsRising (port_cmp modules.now cells.now models.now) numbers.now }
    ensures point { IsPartitionPoint
        (λ n. is_lt (key_cmp (key_of modules.now cells.now models.now n) (body, name.now)) ≡ true)
        (λ n. is_lt (key_cmp (key_of modules.now cells.now models.now n) (body, name.now)) ≡ false)
        numbers.now result }
    ensures within { result ≤ length numbers.now }
{
    numbers.partition_point(|number| is_before(modules, cells, models, *number, body, name))
}

fn number_at(numbers: &[PortNumber], place: usize) -> Option<PortNumber>
    ensures { result ≡ slice_get numbers.now place }
{
    numbers.get(place).copied()
}

fn sort(
    modules: &List<Module>,
    cells: &Cells,
    models: &List<SoftMacro>,
    numbers: &mut Vec<PortNumber>,
)
    ensures { IsPermutation numbers.old.items numbers.new.items }
{
    numbers.sort_unstable_by(|one, other| number_order(modules, cells, models, *one, *other))
}

/// Whether each port of a list comes before the next.
fn are_rising(
    modules: &List<Module>,
    cells: &Cells,
    models: &List<SoftMacro>,
    numbers: &[PortNumber],
) -> bool
    ensures { IsAllAdjacentAnswer (λ one other rises. rises ≡ is_lt (port_cmp modules.now cells.now models.now one other)) numbers.now result }
{
    numbers.is_sorted_by(|one, other| number_order(modules, cells, models, *one, *other).is_lt())
}
