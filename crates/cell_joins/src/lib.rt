//! The cells of libraries: what a library's text is read as, with its first fault, and cells of several put together.
//!
//! [`read_cells`] meets `ReadsAsCells` and `HasLibraryFault` of `lib_cells`, [`join_cells`] meets `JoinsTo` and
//! `HasJoinFault`; `specs/Unions` has both by cases on the answer.
#![tactic(auto)]

mod readings;
mod unions;

pub use readings::read_cells;
pub use unions::join_cells;
