//! Walks over several sets of states at once: the states in all of them, or in any of them, found without the sets of
//! the steps between. What a walk adds to the table are parts of its result alone. Where a walk would grow too large, the
//! sets are joined one after the other.
#![tactic(auto)]

mod commons;
mod faults;
mod fronts;
mod gathers;
mod plans;
mod tuples;
mod walks;

pub use commons::first_common;
pub use faults::GatherFault;
pub use fronts::joined;
pub use gathers::gather;
