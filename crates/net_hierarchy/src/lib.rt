//! The hierarchy that modules, cells and models make below a top, decided on the modules alone, without going to each
//! instance: the first fault that the names of modules make, and later those of the hierarchy.
#![tactic(auto)]

mod by_name;
mod firsts;
mod hierarchy;
mod kinds;
mod rows;
mod search;
mod tops;
mod types;

pub use by_name::first_by_name;
pub use hierarchy::{Sorted, sorted_modules};
pub use kinds::{Kinds, kinds_of};
pub use search::{Frame, Item, item_at};
pub use tops::top_number;
pub use types::types_of;
