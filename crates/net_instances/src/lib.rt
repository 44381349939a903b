//! All instances of a design in order, each with its number: the top, and each instance below it by its path.
//!
//! No path is written out. The instances are found level by level from the types of each module's lines, then put in
//! order by comparing names from the instance on that two of them share.
#![tactic(auto)]

mod numbering;
mod order;
mod texts;
mod tree;
mod walk;

pub use numbering::{InstanceRow, Instances, instances_of};
