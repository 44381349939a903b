//! Sets of whole states from conditions: the states at which a condition holds, as a number of a table of nodes.
#![tactic(auto)]

mod conditions;
mod levels;
mod listed;
mod locals;
mod pairs;

pub use conditions::{build, local_of};
pub use listed::legal_listed;
