//! Legal states: whether a condition holds in a state, and the list of all states in which all conditions hold.
#![tactic(auto)]

mod evaluation;
mod listing;

pub use evaluation::eval;
pub use listing::{first_is_least, legal};
