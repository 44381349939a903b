//! What a name stands for below an instance. It is followed down from the instance. The name of an instance may itself
//! hold slashes, so each slash is tried as the end of one.
ghost use Rattle.std.specs.Prelude.{◌<◌, ◌∷◌, ◌++◌, length, MatchOption};
ghost use Rattle.design_defs.specs.Resolves.{HasNameBelow, Resolves, ResolvesToNothing};
ghost use Rattle.design_paths.specs.BitNames.{HasNoBit};
ghost use Rattle.design_paths.specs.Ways.{HasNoSlash, HasNoneBehind, HasNoneDeeper, HasNoneHere, HasNoneInsideOf, HasNoneOwn, IsParted};

use crate::bits::bit_named;
use design_rows::Design;
use pw_defs::Named;

/// What a name stands for below an instance: instances before ports, and these before bits of vectors. Nothing below has
/// the name exactly where the answer is `None`.
pub fn resolve(design: &Design, scope: u32, name: &[u8]) -> Option<Named>
    requires { scope < length design.now.insts }
    ensures { MatchOption result (ResolvesToNothing design.now scope name.now) (λ x. Resolves design.now scope name.now x) }
{
    design.sound();
    named_below(design, scope, name)
}

/// What has a name below an instance.
#[cycle(names)]
fn named_below(design: &Design, inst: u32, name: &[u8]) -> Option<Named>
    requires { inst < length design.now.insts }
    ensures { MatchOption result (ResolvesToNothing design.now inst name.now) (λ x. HasNameBelow design.now inst name.now x) }
{
    design.names();
    match named_here(design, inst, name) {
        Some(named) => Some(named),
        None => named_deeper(design, inst, name),
    }
}

/// What has a name below an instance that is directly inside this one.
#[cycle(names)]
fn named_deeper(design: &Design, inst: u32, name: &[u8]) -> Option<Named>
    requires { inst < length design.now.insts }
    ensures { MatchOption result (HasNoneDeeper design.now inst name.now) (λ x. HasNameBelow design.now inst name.now x) }
{
    for at in 0..name.len() {
        match named_behind(design, inst, name, at) {
            Some(named) => return Some(named),
            None => {}
        }
    }
    None
}

/// What has a name below the instance whose own name stands before this place, where a slash is there.
#[cycle(names)]
fn named_behind(design: &Design, inst: u32, name: &[u8], at: usize) -> Option<Named>
    requires within { inst < length design.now.insts }
    requires there { at < length name.now }
    ensures { MatchOption result (HasNoneBehind design.now inst name.now at) (λ x. HasNameBelow design.now inst name.now x) }
{
    match parted(name, at) {
        Some((front, rest)) => named_inside(design, inst, front, rest),
        None => None,
    }
}

/// What has a name below the instance of this name inside another one.
#[cycle(names)]
fn named_inside(design: &Design, inst: u32, front: &[u8], rest: &[u8]) -> Option<Named>
    requires { inst < length design.now.insts }
    ensures { MatchOption result (HasNoneInsideOf design.now inst front.now rest.now) (λ x. HasNameBelow design.now inst (front.now ++ 47 ∷ rest.now) x) }
{
    design.sound();
    design.names();
    match design.child(inst, front) {
        Some(child) => named_below(design, child, rest),
        None => None,
    }
}

/// What stands before and behind a place, where a slash is there.
#[tactic(auto, using(crate::proofs::WayLemmas::parted_at))]
fn parted(name: &[u8], at: usize) -> Option<(&[u8], &[u8])>
    requires { at < length name.now }
    ensures { MatchOption result (HasNoSlash name.now at) (λ parts. IsParted name.now at parts.0.now parts.1.now) }
{
    if name[at] != b'/' {
        return None;
    }
    Some((&name[..at], &name[at + 1..]))
}

/// What has a name directly inside an instance, or is a port or a bit of its own.
fn named_here(design: &Design, inst: u32, name: &[u8]) -> Option<Named>
    requires { inst < length design.now.insts }
    ensures { MatchOption result (HasNoneHere design.now inst name.now) (λ x. HasNameBelow design.now inst name.now x) }
{
    design.sound();
    match design.child(inst, name) {
        Some(child) => Some(Named::Instance(child)),
        None => own_named(design, inst, name),
    }
}

/// The port of an instance that has a name, or the bit of one.
fn own_named(design: &Design, inst: u32, name: &[u8]) -> Option<Named>
    requires { inst < length design.now.insts }
    ensures { MatchOption result (HasNoneOwn design.now inst name.now) (λ x. HasNameBelow design.now inst name.now x) }
{
    match design.port_named(inst, name) {
        Some(port) => Some(Named::Port { inst, port }),
        None => own_bit(design, inst, name),
    }
}

/// The bit of a vector port of an instance that has a name.
fn own_bit(design: &Design, inst: u32, name: &[u8]) -> Option<Named>
    requires { inst < length design.now.insts }
    ensures { MatchOption result (HasNoBit design.now inst name.now) (λ x. HasNameBelow design.now inst name.now x) }
{
    match bit_named(design, inst, name) {
        Some(bit) => Some(Named::PortBit(bit)),
        None => None,
    }
}
