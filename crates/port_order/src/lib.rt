//! The ports and pins of what instances are instances of, found by name. They stand in order by what they are of, by name
//! and by number, so that a name is found by halves, however many ports a module has; finding takes no memory.
#![tactic(auto)]

mod keys;
mod listing;
mod orders;

pub use keys::PortNumber;
pub use orders::PortOrder;
