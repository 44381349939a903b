//! Rings of bits that feed one another: the first line that feeds the least bit of a ring.
//!
//! What feeds each bit is put together from links and from what cells and models do inside. Only where bits may be on a
//! ring their names are spelled: they are put in order, the least bit of each ring is found, and then the first line that
//! feeds one of these.
#![tactic(auto)]

mod graphs;
mod lines;
mod loops;
mod ranks;

pub use loops::loop_fault;
