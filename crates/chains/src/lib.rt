//! The walks of a design: from each receiver, and from each input bit of an instance that a model stands for, back
//! along the feeders to a driver, a constant or nothing.
#![tactic(auto)]

mod places;
mod walking;

pub use places::receives;
pub use walking::{one_walk, walks};
