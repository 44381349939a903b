//! Rings of bits that feed one another: which bits may be on one, and the least bit of each ring by an order of the bits.
//!
//! `BitGraph` takes the bits with what feeds each. `core_of` takes bits away that feed nothing that is left, time and
//! again: none of them is on a ring. `ring_minima` then takes the bits in order, looks whether each comes back to itself
//! through those that are left, and takes it away. That all such bits are taken away, and so nothing is left where there
//! is no ring, is no clause: time alone depends on it.
#![tactic(auto)]

mod cores;
mod graphs;
mod minima;
mod searches;

pub use cores::{Core, core_of};
pub use graphs::BitGraph;
pub use minima::{Ranked, ring_minima};
