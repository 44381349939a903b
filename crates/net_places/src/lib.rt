//! Where the nets of modules, cells and models have their bits.
//!
//! The bits of a design are numbered by instance, then by the name of the net, then by place. So within a body each net
//! has the number of its first bit, and the number of a bit of the design is the first number of its instance with that
//! added. `Plans` has this for each body once: its nets rising by name, ports and implicit wires among them.
#![tactic(auto)]

mod bodies;
mod finding;
mod gathering;
mod laws;
mod lines;
mod order;
mod plans;
mod rows;
mod tables;

pub use finding::Spellings;
pub use laws::{what_leaves_name, where_bits_stand};
pub use plans::{Plans, plans_of};
pub use rows::NetRow;
pub use tables::width;
