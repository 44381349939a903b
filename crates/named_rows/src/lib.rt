//! Rows of any kind, each under a name of its own, in the order in which they were added and found by their names.
//!
//! `NamedRows` is seen as the list of its names, each with its row. A name is stored once, and a look-up costs a hash.
#![tactic(auto)]

mod rows;

pub use rows::NamedRows;
