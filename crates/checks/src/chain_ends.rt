//! The chains among the walks of a design.
ghost use Rattle.std.specs.Prelude.{◌≡◌, map, option_map, IfOk};
ghost use Rattle.checks.specs.LineChains.{first_bit, last_bit, chain_of, chains};
ghost use Rattle.checks.specs.Ends.{ends_of};

use chains::receives;
use pw_defs::{Design, Feeder, List, Memory, PortBit, Walk};
use std::alloc::Global;

/// The two ends of a chain, each as a port bit and as the number of its bit.
#[derive(Clone, Copy, Drop)]
pub(crate) struct ChainEnds {
    pub receiver: PortBit,
    pub receiver_bit: u32,
    pub driver: PortBit,
    pub driver_bit: u32,
}

fn first_bit(bits: &[u32]) -> u32
    ensures { result ≡ first_bit bits.now }
{
    match bits {
        [] => 0,
        [first, ..] => *first,
    }
}

fn last_bit(bits: &[u32]) -> u32
    ensures { result ≡ last_bit bits.now }
{
    match bits {
        [] => 0,
        [.., last] => *last,
    }
}

/// The ends of a walk from a receiver, where it ends at a driver.
fn chain_of(design: &Design, walk: &Walk) -> Option<ChainEnds>
    ensures { option_map ends_of result ≡ chain_of design.now walk.now }
{
    if !receives(design, walk.to) {
        return None;
    }
    match walk.from {
        Feeder::Driver(driver) => Some(ChainEnds {
            receiver: walk.to,
            receiver_bit: first_bit(walk.bits.as_slice()),
            driver,
            driver_bit: last_bit(walk.bits.as_slice()),
        }),
        Feeder::Bit(_) | Feeder::Through { inst: _, bit: _ } | Feeder::Constant | Feeder::Nothing =>
            None,
    }
}

/// The chains among the walks, in their order.
pub(crate) fn chain_ends(
    alloc: Global,
    design: &Design,
    walks: &[Walk],
) -> Result<List<ChainEnds>, Memory>
    ensures { IfOk result (λ all. map ends_of all ≡ chains design.now walks.now) }
{
    let mut all = List::new(alloc);
    for walk in walks {
        if let Some(ends) = chain_of(design, walk) {
            all.push(ends)?;
        }
    }
    Ok(all)
}
