//! How much there is below each module and how deep it is there, added up on the modules alone, without going to each
//! instance, and whether a design is too large.
#![tactic(auto)]

mod depths;
mod large;
mod sizes;

pub use depths::{depths_of, is_deeper};
pub use large::is_too_large;
pub use sizes::{Counts, has_more, sizes_of};
