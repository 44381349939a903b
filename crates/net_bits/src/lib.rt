//! The bits of a design by their numbers: the instance and the net that each is of, and its name.
#![tactic(auto)]

mod names;
mod owners;
mod paths;
mod placed;

pub use names::{put_bit_name, put_local_name};
pub use owners::{BitPlace, place_of_bit};
pub use paths::put_path;
pub use placed::Placed;
