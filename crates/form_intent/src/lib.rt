//! From the lines of a script of the first form to the power intent that it means: supply nets and their values,
//! supply sets and domains.
#![tactic(auto)]

mod domains;
mod elements;
mod intents;
mod laws;
mod lists;
mod made;
mod parts;
mod states;
mod supplies;
mod values;

pub use intents::intent_of;
pub use laws::{intents_are_sound, values_rise};
