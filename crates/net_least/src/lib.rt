//! The first faults of a hierarchy of which each module has a name of its own, found on the modules alone, without going to
//! each instance: an instance of a module that it is inside or of a type that isn't there, faults that a module has wherever
//! it stands, and a design that is too large.
#![tactic(auto)]

mod branches;
mod firsts;
mod links;
mod marks;
mod nearest;
mod order;
mod own;
mod recursion;
mod size;
mod unknown;

pub use firsts::first_of_kind;
pub use order::ordered_modules;
pub use own::{OwnFault, first_own};
pub use size::size_fault;
