//! An index of names: each name once, in the order in which they were added, found by its bytes.
//!
//! Names are found by a hash of their bytes. Where many names fall on one place of the table, however they were chosen,
//! a tree takes the further ones, so that a look-up never costs more than the logarithm of the number of names.
#![tactic(auto)]

mod index;
mod table;

pub use index::NameIndex;
