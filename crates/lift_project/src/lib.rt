//! Sets of states from one order of supplies to another: prefixes, sets lifted to places of another order, and the
//! least state.
#![tactic(auto)]

mod least;
mod lifts;
mod prefixes;
mod reached;

pub use least::first;
pub use lifts::lift;
pub use prefixes::project;
