//! Names one behind another in one row of bytes: a name costs its bytes and four more.
#![tactic(auto)]

mod rows;

pub use rows::Names;
