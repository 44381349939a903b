//! At which port bits a walk begins.
ghost use Rattle.std.specs.Prelude.{◌≡◌, ℕ, ◌<◌, length, slice_get, option_map};
ghost use Rattle.std.specs.Option.{option_copied};
ghost use Rattle.design_defs.specs.Ports.{begins, begins_in, receives_in, dir_in, is_input, is_output, is_pin, is_through};
ghost use Rattle.design_defs.specs.Walks.{start_at};

use design_rows::Design;
use pw_defs::{Body, Cell, Dir, PortBit};

/// The port bit at which a walk begins, if one begins at the bit that is this port bit.
pub fn start_of(design: &Design, port: Option<PortBit>) -> Option<PortBit>
    ensures { (number : ℕ) → start_at design.now number port ≡ option_map (λ to. (number, to)) result }
{
    port.filter(|to| begins(design, *to))
}

/// Whether a walk begins at a port bit.
fn begins(design: &Design, place: PortBit) -> bool
    ensures { result ≡ begins design.now place }
{
    if place.inst < design.len_insts() {
        begins_in(design, design.body(place.inst), place)
    } else {
        false
    }
}

/// Whether a walk begins at a port bit, by what its instance is an instance of: at a receiver, and at an input bit of
/// what a model stands for.
fn begins_in(design: &Design, body: Body, place: PortBit) -> bool
    ensures { result ≡ begins_in design.now body place }
{
    match body {
        Body::Module(_) | Body::Cell(_) => receives_in(design, body, place),
        Body::Model(_) => is_input(dir_in(design, body, place.port)),
    }
}

/// Whether a port bit is a receiver: an output bit of the top, or an input pin of a leaf cell that is no through pin.
fn receives_in(design: &Design, body: Body, place: PortBit) -> bool
    ensures { result ≡ receives_in design.now body place }
{
    let dir = dir_in(design, body, place.port);
    match body {
        Body::Module(_) => place.inst == 0 && is_output(dir),
        Body::Cell(cell) => is_input(dir)
            && !is_through(place.port, design.cells().cells.get(cell)),
        Body::Model(_) => false,
    }
}

/// The direction of a port or pin.
fn dir_in(design: &Design, body: Body, port: u32) -> Option<Dir>
    ensures { result ≡ dir_in design.now body port }
{
    match body {
        Body::Module(module) => Some(design.modules().get(module)?.ports.get(port)?.dir),
        Body::Cell(cell) => Some(design.cells().cells.get(cell)?.pins.get(port)?.dir),
        Body::Model(model) => Some(design.models().get(model)?.ports.get(port)?.dir),
    }
}

fn is_input(dir: Option<Dir>) -> bool
    ensures { result ≡ is_input dir }
{
    dir == Some(Dir::Input)
}

fn is_output(dir: Option<Dir>) -> bool
    ensures { result ≡ is_output dir }
{
    dir == Some(Dir::Output)
}

/// Whether the pin is the through pin of an isolation cell or level shifter.
fn is_through(pin: u32, cell: Option<&Cell>) -> bool
    ensures { result ≡ is_through pin (option_copied cell.entry) }
{
    match cell {
        Some(cell) => (cell.iso || cell.shift) && cell.through == Some(pin),
        None => false,
    }
}
