//! A sound design with all its instances and bits, stored in rows: a few bytes an instance and a bit, and each name of a
//! module once, however many instances the module has.
//!
//! `Rows` are what a design is made of; `Design` is rows of which the design is sound, seen as the plain record. What
//! another crate needs of it is read by number, and takes no memory.
#![tactic(auto)]

mod building;
mod children;
mod designs;
mod ordered;
pub mod reads;
mod tables;

pub use designs::Design;
pub use tables::{Feed, InstanceRow, KindRow, PlaceRow, Rows};
