//! The names of bits by their numbers.
ghost use Rattle.std.specs.Prelude.{◌≡◌, ℕ, ◌++◌, List, OnOk, Some, option_map, slice_get};
ghost use Rattle.design_defs.specs.Bits.{HasSpotName, IsSpot, Spot, spot_cmp};
ghost use Rattle.design_defs.specs.Hierarchy.{Sources};
ghost use Rattle.design_defs.specs.Ranges.{bit_name};
ghost use Rattle.list_defs.specs.Orders.{AreAllRising};
ghost use Rattle.net_places.specs.Plans.{IsOf, names_in};
ghost use Rattle.net_bits.specs.Placed.{ArePlaced};

use crate::owners::place_of_bit;
use crate::paths::{put_path, put_slash};
use crate::placed::Placed;
use module_rows::Modules;
use pw_defs::{Body, Bytes, Cells, List, Memory, Model};
use std::alloc::Global;

/// The spelling of the name of a net: of a symbol, a pin or a port.
fn spelling<'a>(
    modules: &'a Modules,
    cells: &'a Cells,
    models: &'a List<Model>,
    body: Body,
    name: u32,
) -> Option<&'a [u8]>
    ensures { (s : Sources) → IsOf modules.now cells.now models.now s → option_map (λ n. n.now) result ≡ slice_get (names_in modules.now.symbols s body) name }
{
    match body {
        Body::Module(_) => {
            if name < modules.symbols() {
                Some(modules.spelling(name))
            } else {
                None
            }
        }
        Body::Cell(cell) => Some(cells.cells.get(cell)?.pins.get(name)?.name.as_slice()),
        Body::Model(model) => Some(models.get(model)?.ports.get(name)?.name.as_slice()),
    }
}

/// Appends the name of a bit of a body, without the path of an instance: the name of the net, and of a vector the index in
/// brackets. The name of the net is a symbol in a module, and the number of the pin or port in a cell or a model.
pub fn put_local_name(
    placed: &Placed,
    body: Body,
    name: u32,
    range: Option<(u32, u32)>,
    place: u32,
    out: &mut Bytes,
) -> Result<(), Memory>
    ensures { OnOk result ((s : Sources) → IsOf placed.now.modules.now placed.now.cells.now placed.now.models.now s → (net : List ℕ)
        → slice_get (names_in placed.now.modules.now.symbols s body) name ≡ Some net → out.new ≡ out.old ++ bit_name net range place) }
{
    let net = spelling(placed.modules, placed.cells, placed.models, body, name).ok_or(Memory)?;
    bit_texts::put_bit_name(net, range, u64::from(place), out)?;
    Ok(())
}

/// Appends the name of a bit, by its number among all bits of the design: the path of its instance, a slash, and its name
/// there. In the top its name there stands alone.
pub fn put_bit_name(alloc: Global, placed: &Placed, bit: u32, out: &mut Bytes) -> Result<(), Memory>
    ensures { OnOk result ((s : Sources) → ArePlaced s placed.now → (spots : List Spot) → AreAllRising spot_cmp (IsSpot s) spots
        → (x : Spot) → slice_get spots bit ≡ Some x → (name : List ℕ) → HasSpotName s x name → out.new ≡ out.old ++ name) }
{
    let Some(at) = place_of_bit(placed, bit) else {
        return Err(Memory);
    };
    let from = out.len();
    put_path(alloc, placed.modules, placed.instances, at.owner, out)?;
    put_slash(from, out)?;
    put_local_name(placed, at.body, at.name, at.range, at.place, out)?;
    Ok(())
}
