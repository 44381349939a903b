//! What the names of a script stand for in a design, by paths, and the units that soft macros make.
//!
//! A `Hierarchy` is a sound design whose instances are found by their paths, without a look at each of them. Everything is
//! answered as `script_defs/Scopes` and `script_defs/DesignParts` say it of all instances.
#![tactic(auto)]

mod bodies;
mod instances;
mod joining;
mod marks;
mod parts;
mod units;

pub use bodies::{body_at, body_of, is_leaf_cell, is_model, is_modelled, is_module, type_name};
pub use instances::{Hierarchy, instance_at, named_inst};
pub use joining::{begins_below, join, join_from, shown_path};
pub use marks::Marks;
pub use parts::{
    body_of_part, is_whole_port, outer_of, owner_of, part_at, part_from, stands_in, words_resolve,
};
pub use units::{
    is_far_inside, is_inside, is_soft_macro, is_unit, macro_inside, macros_inside, nesting, unit_of,
};
