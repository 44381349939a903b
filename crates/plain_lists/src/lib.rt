//! Lists, names and bytes that contracts see as lists, and the few types that the table of diagrams, the shelf and the
//! sinks need: want of memory, why a set of states isn't made, and kept sets of states.
//!
//! Everything else stands in `pw_defs`, so that a change of a type there proves nothing of these again.
#![tactic(auto)]

mod bytes;
mod faults;
mod kept;
mod lists;
mod memory;
mod names;

pub use bytes::Bytes;
pub use faults::{DiagFault, Memory};
pub use kept::{Kept, KeptNode, Place};
pub use lists::List;
pub use names::Name;
