//! How ports stand to one another: by what they are of, then by name, then by number.
ghost use Rattle.std.specs.Prelude.{◌≡◌, slice_get};
ghost use Rattle.std.specs.Option.{option_map};
ghost use Rattle.std.specs.Ordering.{is_lt};
ghost use Rattle.port_order.specs.PortOrders.{body_cmp, body_key, key_cmp, key_of, name_of, port_cmp, port_in};
ghost use Rattle.design_defs.specs.Ports.{port_of_pin};

use pw_defs::{Body, Cells, List, Model, Module, Pin, Port};
use std::cmp::Ordering;

/// A port or pin: what it is of, and its number there.
#[derive(Clone, Copy)]
pub struct PortNumber {
    pub body: Body,
    pub port: u32,
}

/// How two ports stand to one another.
pub fn number_order(
    modules: &List<Module>,
    cells: &Cells,
    models: &List<Model>,
    one: PortNumber,
    other: PortNumber,
) -> Ordering
    ensures { result ≡ port_cmp modules.now cells.now models.now one other }
{
    let name = port_name(modules, cells, models, other);
    match key_order(modules, cells, models, one, other.body, name) {
        Ordering::Equal => one.port.cmp(&other.port),
        unlike => unlike,
    }
}

/// How a port stands to those that are of this body and have this name.
pub fn key_order(
    modules: &List<Module>,
    cells: &Cells,
    models: &List<Model>,
    number: PortNumber,
    body: Body,
    name: &[u8],
) -> Ordering
    ensures { result ≡ key_cmp (key_of modules.now cells.now models.now number) (body, name.now) }
{
    match body_order(number.body, body) {
        Ordering::Equal => port_name(modules, cells, models, number).cmp(name),
        unlike => unlike,
    }
}

/// Whether a port comes before those that are of this body and have this name.
pub fn is_before(
    modules: &List<Module>,
    cells: &Cells,
    models: &List<Model>,
    number: PortNumber,
    body: Body,
    name: &[u8],
) -> bool
    ensures { result ≡ is_lt (key_cmp (key_of modules.now cells.now models.now number) (body, name.now)) }
{
    key_order(modules, cells, models, number, body, name).is_lt()
}

/// How two bodies stand to one another: by kind, then by number.
fn body_order(one: Body, other: Body) -> Ordering
    ensures { result ≡ body_cmp one other }
{
    rank(one).cmp(&rank(other))
}

fn rank(body: Body) -> (u8, u32)
    ensures { result ≡ body_key body }
{
    match body {
        Body::Module(n) => (0, n),
        Body::Cell(n) => (1, n),
        Body::Model(n) => (2, n),
    }
}

/// The name of a port, which is empty where there is none of this number.
fn port_name<'a>(
    modules: &'a List<Module>,
    cells: &'a Cells,
    models: &'a List<Model>,
    number: PortNumber,
) -> &'a [u8]
    ensures { result.now ≡ name_of (port_in modules.now cells.now models.now number) }
{
    match number.body {
        Body::Module(n) => match modules.get(n) {
            Some(module) => name_of_port(&module.ports, number.port),
            None => b"",
        },
        Body::Cell(n) => match cells.cells.get(n) {
            Some(cell) => name_of_pin(&cell.pins, number.port),
            None => b"",
        },
        Body::Model(n) => match models.get(n) {
            Some(model) => name_of_port(&model.ports, number.port),
            None => b"",
        },
    }
}

fn name_of_port(ports: &List<Port>, n: u32) -> &[u8]
    ensures { result.now ≡ name_of (slice_get ports.now n) }
{
    match ports.get(n) {
        Some(port) => port.name.as_slice(),
        None => b"",
    }
}

fn name_of_pin(pins: &List<Pin>, n: u32) -> &[u8]
    ensures { result.now ≡ name_of (option_map port_of_pin (slice_get pins.now n)) }
{
    match pins.get(n) {
        Some(pin) => pin.name.as_slice(),
        None => b"",
    }
}
