//! Marks of the input bits of the top, which are fed from outside.
ghost use Rattle.std.specs.Prelude.{◌≡◌, ◌↔◌, List, IfOk, IsTrue, length};
ghost use Rattle.pw_defs.specs.declared.cells.Dir.TheVariants.{Input};
ghost use Rattle.pw_defs.specs.declared.design.Body.TheVariants.{Module as ModuleBody};
ghost use Rattle.design_defs.specs.Bits.{IsSpot, Spot, spot_cmp};
ghost use Rattle.design_defs.specs.Hierarchy.{Sources};
ghost use Rattle.design_defs.specs.Inputs.{AreReadSources};
ghost use Rattle.list_defs.specs.Orders.{AreAllRising};
ghost use Rattle.net_bits.specs.Placed.{ArePlaced};
ghost use Rattle.net_places.specs.Plans.{rows_at};
ghost use Rattle.net_feeds.specs.TopInputs.{AreMarkedAlso, AreTopMarks, IsInputBit, IsInputBitOf, IsInputPort, IsWithin};

use crate::instances::module_of;
use module_rows::Modules;
use net_bits::Placed;
use net_places::{Plans, width};
use pw_defs::{Body, Dir, Memory};
use std::alloc::Global;

/// Whether a direction is that of an input.
fn is_input(dir: Dir) -> bool
    ensures { IsTrue result ↔ (dir ≡ Input) }
{
    match dir {
        Dir::Input => true,
        Dir::Output => false,
    }
}

/// Whether a module has an input of this number among its ports.
fn is_input_port(modules: &Modules, holder: u32, port: Option<u32>) -> bool
    ensures { IsTrue result ↔ IsInputPort modules.now holder port }
{
    if holder >= modules.len() {
        return false;
    }
    match port {
        Some(port) => {
            if port >= modules.module(holder).ports {
                return false;
            }
            is_input(modules.port(holder, port).dir)
        }
        None => false,
    }
}

/// Marks so many bits from one on.
fn mark_bits(marks: &mut Vec<bool>, first: u64, count: u64)
    ensures { AreMarkedAlso (IsWithin first count) marks.old.items marks.new.items }
{
    let end = first.saturating_add(count).min(marks.len() as u64);
    for bit in first..end {
        marks[bit as usize] = true;
    }
}

/// Marks the bits of a net of a module, where it is an input.
fn mark_net(modules: &Modules, plans: &Plans, holder: u32, net: u32, marks: &mut Vec<bool>)
    ensures { AreMarkedAlso (IsInputBit modules.now plans.now holder net) marks.old.items marks.new.items }
{
    match plans.net(Body::Module(holder), net) {
        Some(row) => {
            if is_input_port(modules, holder, row.port) {
                mark_bits(marks, row.first, width(row.range));
            }
        }
        None => {}
    }
}

/// Marks the bits of the inputs of a module.
fn mark_nets(modules: &Modules, plans: &Plans, holder: u32, marks: &mut Vec<bool>)
    ensures { AreMarkedAlso (IsInputBitOf modules.now plans.now holder (length (rows_at plans.now (ModuleBody holder)))) marks.old.items marks.new.items }
{
    for net in 0..plans.nets(Body::Module(holder)) {
        mark_net(modules, plans, holder, net, marks);
    }
}

/// Marks of so many bits, for the input bits of the top.
pub(crate) fn top_marks(alloc: Global, placed: &Placed, bits: u32) -> Result<Vec<bool>, Memory>
    ensures { IfOk result (λ marks. (s : Sources) → ArePlaced s placed.now → AreReadSources s → (spots : List Spot) → AreAllRising spot_cmp (IsSpot s) spots
        → length spots ≡ bits → AreTopMarks s spots marks.items) }
{
    let holder = module_of(placed.instances, 0)?;
    let mut marks = vec![in alloc; false; bits as usize]?;
    mark_nets(placed.modules, placed.plans, holder, &mut marks);
    Ok(marks)
}
