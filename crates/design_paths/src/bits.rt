//! The bits of vector ports by their names.
ghost use Rattle.std.specs.Prelude.{◌≡◌, ◌<◌, Some, length, take, MatchOption};
ghost use Rattle.std.specs.Option.{option_and_then};
ghost use Rattle.std.specs.List.{position};
ghost use Rattle.design_defs.specs.Ports.{port_at, ports_of};
ghost use Rattle.design_paths.specs.BitNames.{HasNoBit, HasNoBitFrom, HasNoBitOf, HasNoBracket, IsBitNamed};
ghost use Rattle.port_order.specs.PortNames.{has_name};

use crate::numbers::place_of_bit;
use design_rows::Design;
use pw_defs::{Body, PortBit};

/// The range of a port of an instance, where it is a vector.
fn range_of(design: &Design, inst: u32, port: u32) -> Option<(u32, u32)>
    requires { inst < length design.now.insts }
    ensures { result ≡ option_and_then (λ p. p.range) (port_at design.now inst port) }
{
    match design.body(inst) {
        Body::Module(module) => design.modules().get(module)?.ports.get(port)?.range,
        Body::Cell(_) => None,
        Body::Model(model) => design.models().get(model)?.ports.get(port)?.range,
    }
}

/// The bit of a vector port of an instance that has this name.
pub(crate) fn bit_named(design: &Design, inst: u32, name: &[u8]) -> Option<PortBit>
    requires { inst < length design.now.insts }
    ensures { MatchOption result (HasNoBit design.now inst name.now) (λ b. IsBitNamed design.now inst name.now b) }
{
    for at in 0..name.len() {
        match bit_behind(design, inst, name, at) {
            Some(bit) => return Some(bit),
            None => {}
        }
    }
    None
}

/// The bit of the vector port whose name stands before this place, where a bracket is there.
fn bit_behind(design: &Design, inst: u32, name: &[u8], at: usize) -> Option<PortBit>
    requires within { inst < length design.now.insts }
    requires there { at < length name.now }
    ensures { MatchOption result (HasNoBitFrom design.now inst name.now at) (λ b. IsBitNamed design.now inst name.now b) }
{
    match before_bracket(name, at) {
        Some(vector) => bit_of(design, inst, vector, name),
        None => None,
    }
}

/// What stands before a place, where a bracket is there.
fn before_bracket(name: &[u8], at: usize) -> Option<&[u8]>
    requires { at < length name.now }
    ensures { MatchOption result (HasNoBracket name.now at) (λ front. front.now ≡ take at name.now) }
{
    if name[at] == b'[' {
        Some(&name[..at])
    } else {
        None
    }
}

/// The bit of the vector port of this name that has the whole name.
fn bit_of(design: &Design, inst: u32, vector: &[u8], name: &[u8]) -> Option<PortBit>
    requires { inst < length design.now.insts }
    ensures { MatchOption result (HasNoBitOf design.now inst vector.now name.now) (λ b. IsBitNamed design.now inst name.now b) }
{
    match design.port_named(inst, vector) {
        Some(port) => bit_of_port(design, inst, port, vector, name),
        None => None,
    }
}

/// The bit of this port, the first of its name, that has the whole name.
fn bit_of_port(design: &Design, inst: u32, port: u32, vector: &[u8], name: &[u8]) -> Option<PortBit>
    requires within { inst < length design.now.insts }
    requires first { option_and_then (position (has_name vector.now)) (ports_of design.now inst) ≡ Some port }
    ensures { MatchOption result (HasNoBitOf design.now inst vector.now name.now) (λ b. IsBitNamed design.now inst name.now b) }
{
    design.sound();
    match range_of(design, inst, port) {
        Some(range) => bit_in_range(design, inst, port, range, vector, name),
        None => None,
    }
}

/// The bit of this port, which has this range, that has the whole name.
fn bit_in_range(
    design: &Design,
    inst: u32,
    port: u32,
    range: (u32, u32),
    vector: &[u8],
    name: &[u8],
) -> Option<PortBit>
    requires within { inst < length design.now.insts }
    requires first { option_and_then (position (has_name vector.now)) (ports_of design.now inst) ≡ Some port }
    requires ranged { option_and_then (λ p. p.range) (port_at design.now inst port) ≡ Some range }
    ensures { MatchOption result (HasNoBitOf design.now inst vector.now name.now) (λ b. IsBitNamed design.now inst name.now b) }
{
    design.sound();
    match place_of_bit(vector, range, name) {
        Some(place) => Some(PortBit { inst, port, place }),
        None => None,
    }
}
