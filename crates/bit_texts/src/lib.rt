//! How the bits of nets are named.
//!
//! A scalar has one bit, which bears the name of the net. Of a vector each bit has the name of the net with its index
//! behind it in brackets; places count from the left end of the range. `bit_name` of the module `Ranges` says which index
//! stands at which place.
#![tactic(auto)]

mod names;

pub use names::{bit_name, put_bit_name};
