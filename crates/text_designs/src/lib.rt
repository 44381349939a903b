//! Designs of texts: what the texts of libraries and netlists make below a top, or the first fault of any of them.
//!
//! The cells of each library are joined to those of the libraries before it, and the modules of all netlists stand one
//! behind the other, both in the order of the texts. `specs/Texts` says what this makes, and which text a fault belongs to.
#![tactic(auto)]

mod designs;
mod faults;
mod libraries;
mod netlists;

pub use designs::design_of_texts;
pub use faults::TextFault;
pub use libraries::cells_of_texts;
pub use netlists::{Netlists, modules_of_texts};
