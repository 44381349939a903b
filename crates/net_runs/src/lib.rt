//! What the names and constants of expressions stand for, by the numbers of bits.
//!
//! `Lookup` has the nets of one module at a time by the symbols of their names. A name with or without a select is a run
//! of bits with numbers one behind another, and a constant a run of constant bits.
#![tactic(auto)]

mod known;
mod lookups;
mod nets;
mod plain;
mod runs;

pub use lookups::Lookup;
pub use nets::net_of;
pub use plain::Opened;
pub use runs::Run;
