//! Walks that are stored by the next bit of each bit.
ghost use Rattle.std.specs.Prelude.{◌≡◌, ◌<◌, ◌++◌, Some, length, map, slice_get, OnOk, IfSome};
ghost use Rattle.std.specs.Option.{option_map};
ghost use Rattle.design_walks.specs.Trails.{next_at, trail, walk_of};

use pw_defs::{Feeder, List, PortBit};
use std::alloc::AllocError;
use std::marker::Model;

/// A walk without the bits that it passes: its first bit, which is that of the port bit `to`, and how it ends.
#[derive(Clone, Copy)]
pub struct StartRow {
    pub bit: u32,
    pub to: PortBit,
    pub from: Feeder,
}

/// The walks of a design, seen as their list. The bits of a walk are read along the next bits.
#[derive(Drop)]
pub struct Walks {
    /// The bit at which a walk goes on behind each bit.
    next: Vec<Option<u32>>,
    starts: List<StartRow>,
}

impl Model for Walks {
    ghost use Rattle.std.specs.Prelude.{List, map};
    ghost use Rattle.pw_defs.specs.declared.chains.Walk.{Walk};
    ghost use Rattle.design_walks.specs.Trails.{walk_of};

    ghost Value = { List Walk };

    ghost view = { λ w. map (walk_of w.next.items) w.starts };
}

#[tactic(auto, using(crate::proofs::ReadLemmas::reads))]
impl Walks {
    /// The walks that begin at these rows and go on so.
    pub(crate) fn new(next: Vec<Option<u32>>, starts: List<StartRow>) -> Walks
        ensures { result ≡ map (walk_of next.items) starts }
    {
        Walks { next, starts }
    }

    /// How many walks there are.
    pub fn len(&self) -> u32
        ensures { result ≡ length self.now }
    {
        self.starts.len()
    }

    /// The port bit from which a walk goes back.
    pub fn to(&self, n: u32) -> PortBit
        requires { n < length self.now }
        ensures { option_map (λ w. w.to) (slice_get self.now n) ≡ Some result }
    {
        self.starts.as_slice()[n as usize].to
    }

    /// How a walk ends: at a driver, a constant or nothing.
    pub fn from(&self, n: u32) -> Feeder
        requires { n < length self.now }
        ensures { option_map (λ w. w.from) (slice_get self.now n) ≡ Some result }
    {
        self.starts.as_slice()[n as usize].from
    }

    /// Appends the bits that a walk passes, the receiver's own first.
    pub fn put_bits(&self, n: u32, out: &mut List<u32>) -> Result<(), AllocError>
        requires { n < length self.now }
        ensures { OnOk result (IfSome (slice_get self.now n) (λ w. out.new ≡ out.old ++ w.bits)) }
    {
        let start = self.starts.as_slice()[n as usize].bit;
        put_trail(&self.next, start, out)?;
        Ok(())
    }
}

/// The bit at which a walk goes on behind a bit.
fn next_of(next: &[Option<u32>], n: u32) -> Option<u32>
    ensures { result ≡ next_at next.now n }
{
    match next.get(n as usize) {
        Some(next) => *next,
        None => None,
    }
}

/// Appends a bit and those that follow it, as many as there are at most.
fn put_trail(next: &[Option<u32>], start: u32, out: &mut List<u32>) -> Result<(), AllocError>
    ensures { OnOk result (out.new ≡ out.old ++ trail next.now (length next.now) start) }
{
    let mut at = start;
    for _ in 0..next.len() {
        out.push(at)?;
        match next_of(next, at) {
            Some(next) => at = next,
            None => return Ok(()),
        }
    }
    Ok(())
}
