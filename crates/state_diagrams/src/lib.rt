//! A shared table of nodes. Each number of it means a set of rests of states, equal sets have one number, and the
//! operations on sets remember their results.
#![tactic(auto)]

mod joins;
mod literals;
mod nodes;
mod pool;

pub use joins::Join;
pub use pool::Pool;
