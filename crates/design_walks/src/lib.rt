//! The walks of a sound design: from each receiver, and from each input bit of an instance that a model stands for, back
//! along the feeders to a driver, a constant or nothing.
//!
//! No walk is written out, since the lengths of walks may add up to the square of the number of bits. Kept are the next
//! bit of each bit, and where each walk begins and how it ends; contracts see the list of the walks.
#![tactic(auto)]

mod building;
mod ends;
mod places;
mod rows;

pub use building::walks;
pub use rows::Walks;
