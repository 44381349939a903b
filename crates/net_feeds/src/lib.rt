//! What feeds each bit of a design by the links of its lines, or the first link to a bit that is fed already.
//!
//! Instances are taken in order, and the links of each: each link marks its bit. Where a bit bears a mark before, the
//! instance has the first fault of its kind, and only then its links are looked at once more, to find the least of its
//! faults by line and by name.
#![tactic(auto)]

mod feeds;
mod instances;
mod links;
mod marks;
mod names;
mod seconds;
mod tops;

pub use feeds::feeds_of;
pub use links::{LinkAt, links_at};
