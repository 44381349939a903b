//! From the lines of a library and a netlist of the first form to the design that they mean: a top that holds cells and
//! modules of cells.
#![tactic(auto)]

mod cells;
mod checks;
mod design;
mod hierarchy;
mod indices;
mod names;
mod wiring;
mod words;

pub use design::{FormDesign, design_of};
