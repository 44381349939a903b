//! Whether two things of a hierarchy, instances, ports or bits of vector ports, have one joined name, and the first that has
//! one that another has.
//!
//! Names are looked at body by body first, without going to each instance: where none goes on behind that of an instance
//! with a slash, or behind that of a vector port with an opening bracket, all joined names are apart. Only where one does,
//! the joined names of all instances, ports and bits are gone through.
#![tactic(auto)]

mod bodies;
mod clashes;
mod fronts;
mod marks;
mod meeting;
mod paths;
mod ports;
mod spelling;
mod walking;

pub use clashes::may_clash;
pub use paths::path_fault;
