//! What is decided of a design on its modules alone, before any instance is gone to: which module is the top, what its
//! instances are, in which order the modules stand, how many bits each body owns, and the first fault of names, types or
//! size.
#![tactic(auto)]

mod counts;
mod outline;

pub use outline::{Outline, outline_of};
