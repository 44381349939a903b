//! Where things stand in the hierarchy of a sound design, and what they are called there.
#![tactic(auto)]

mod bits;
mod numbers;
mod places;
mod resolving;

pub use numbers::{number_of, place_of_bit, place_of_index};
pub use places::is_at_or_below;
pub use resolving::resolve;
