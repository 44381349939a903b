//! Definitions of sets of states that share nodes: what a number means, the parts of a set, and what an operation on
//! a table of nodes may add to it. Of code it has two plain types: a set that begins at a level, and all or any.
#![tactic(auto)]

mod locals;
mod quantifiers;

pub use locals::Local;
pub use quantifiers::Quantifier;
