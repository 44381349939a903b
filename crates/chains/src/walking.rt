//! Walks back along the feeders.
ghost use Rattle.std.specs.Prelude.{◌≡◌, ℕ, ◌<◌, length, IfOk, option_map};
ghost use Rattle.design_defs.specs.Walks.{AreWalks, IsWalk, WalksEnd, next_of, start_at};
ghost use Rattle.chains.specs.OneWalk.{HasOneWalk};

use crate::places::begins;
use pw_defs::{Bit, Design, Feeder, List, Memory, PortBit, Walk};
use std::alloc::Global;

/// From each place where a walk begins, in order of the bits: the walk back along the feeders to where it ends.
pub fn walks(alloc: Global, design: &Design) -> Result<List<Walk>, Memory>
    // The feeders lead to bits that there are, and none comes back to its bit.
    requires { WalksEnd design.now.bits }
    ensures { IfOk result (λ walks. AreWalks design.now walks) }
{
    let bits = design.bits.as_slice();
    let mut walks = List::new(alloc);
    for (at, bit) in bits.iter().enumerate() {
        if let Some(to) = start_of(design, bit) {
            walks.push(walk_from(alloc, bits, at as u32, to)?)?;
        }
    }
    Ok(walks)
}

/// The port bit at which a walk begins, if one begins at the bit.
fn start_of(design: &Design, bit: &Bit) -> Option<PortBit>
    ensures { (number : ℕ) → start_at design.now number bit.now.port ≡ option_map (λ to. (number, to)) result }
{
    bit.port.filter(|to| begins(design, *to))
}

/// The walk from a bit, which is that of the port bit `to`.
fn walk_from(alloc: Global, bits: &[Bit], start: u32, to: PortBit) -> Result<Walk, Memory>
    requires ends { WalksEnd bits.now }
    requires within { start < length bits.now }
    ensures to { IfOk result (λ walk. walk.to ≡ to) }
    ensures walk { IfOk result (λ walk. IsWalk bits.now start walk.bits walk.from) }
{
    let mut passed = List::new(alloc);
    let mut at = start;
    // A walk passes no bit twice.
    for _ in 0..bits.len() {
        passed.push(at)?;
        let from = bits[at as usize].feeder;
        match next_bit(from) {
            Some(next) => at = next,
            None => {
                return Ok(Walk {
                    from,
                    to,
                    bits: passed,
                });
            }
        }
    }
    unreachable!()
}

/// The bit at which a walk goes on behind a feeder.
fn next_bit(feeder: Feeder) -> Option<u32>
    ensures { result ≡ next_of feeder }
{
    match feeder {
        Feeder::Bit(bit) => Some(bit),
        Feeder::Through { inst: _, bit } => Some(bit),
        Feeder::Driver(_) | Feeder::Constant | Feeder::Nothing => None,
    }
}

/// There is one walk from a bit.
pub fn one_walk()
    ensures { HasOneWalk }
{}
