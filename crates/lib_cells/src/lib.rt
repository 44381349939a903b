//! Libraries: which texts are read as which cells, and the faults of a library.
//!
//! [`placed_cells`] reads the groups of a text's cells, as `ReadsGroups` says, and keeps nothing of what is passed over.
#![tactic(auto)]

mod attributes;
mod cells;
mod lexer;
mod libraries;
mod marks;
mod names;
mod phrases;
mod pieces;
mod pins;
mod runs;
mod skips;
mod tables;
mod tokens;

pub use libraries::{PlacedCell, placed_cells};
