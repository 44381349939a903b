//! Large designs made in rows, and all that can be read of them, to measure time and memory.
#![tactic(auto)]

mod counts;
mod makes;

pub use counts::{Counts, read_all};
pub use makes::{flat, nested};
