//! The lines of a script, taken block by block: a line that begins a power model comes with the lines of its body.
//!
//! `Lines` is seen as the list of its lines, and is shared by the frame that runs them and the power models whose bodies
//! are parts of them. `take_block` meets `blocks_of` of `script_defs`.
#![tactic(auto)]

mod blocks;
mod shared;

pub use blocks::{Block, begins_model, ends_model, is_line_of, take_block};
pub use shared::Lines;
