//! The design that the modules of netlists, the cells of libraries and the models of soft macros make below a top, or its
//! first fault.
#![tactic(auto)]

mod elaborating;
mod lines;
mod wiring;

pub use elaborating::elaborate;
