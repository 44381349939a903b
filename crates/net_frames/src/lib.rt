//! The rows of a design from its parts: the modules, the cells, the models, all instances, and what links feed each bit
//! with.
//!
//! A bit of a module, cell or model is written down once, with its name and its port, for each module, cell or model that
//! some instance is an instance of. An instance is then a row of a few numbers. Bits at which a signal begins, and outputs
//! of isolation cells and level shifters, are fed by their own instances in place of a link.
#![tactic(auto)]

mod feeding;
mod framing;
mod owners;
mod places;
mod whole;

pub use whole::rows_of;
