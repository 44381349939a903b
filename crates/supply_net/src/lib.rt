//! The supply network of a power intent (IEEE Std 1801-2015, supply ports, nets, sets and switches): what the lines of
//! scripts make of it, and the roots of its supplies.
//!
//! `Supplies` is a network that is being made, one object after the other. It meets `specs/Networks` and `specs/Switches`,
//! which say for each call what the network gains and when it refuses.
#![tactic(auto)]

mod feeders;
mod names;
mod network;
mod roots;
mod switches;

pub use names::Object;
pub use network::Supplies;
pub use roots::root_of;
