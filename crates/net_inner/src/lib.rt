//! What feeds the bits of cells and models through the bodies themselves: the output pins of isolation cells and level
//! shifters are fed by the through pin, and a model says which of its output bits are fed by which input bits.
#![tactic(auto)]

mod bodies;
mod inner;
mod pairs;

pub use inner::{Inner, inner_of};
