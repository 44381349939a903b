//! The links that the lines of each module make, by the numbers of bits.
//!
//! A link of a module is between bits of the module and bits of what its instances are of. Both are numbered in their
//! bodies, so the links of a module are the same wherever the module has an instance. Where bits on both sides go on one
//! behind another, the links are one row.
#![tactic(auto)]

mod lines;
mod linking;
mod pieces;
mod ports;
mod rows;

pub use linking::links_of;
pub use rows::{LinkEnd, LinkRow, Links};
