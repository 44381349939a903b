//! What is known of the cells and modules of libraries and netlists that were read: a design can be made from them.
#![tactic(auto)]

mod laws;

pub use laws::what_is_read_fits;
