//! Netlists read whole: the modules of texts, one text after another, or a text's first fault.
//!
//! One item of a module is read at a time and goes into rows; of the items before it only the rows stand, and what they
//! declare. At a module's end its declarations are looked through, and its ports and wires are added.
#![tactic(auto)]

mod contents;
mod ends;
mod items;
mod modules;
mod names;
mod refusals;
mod said;
mod tables;
mod texts;

pub use texts::{add_modules, read_modules};
