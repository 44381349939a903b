//! The modules of a job in rows that they share: each spelling once, and some hundred bytes for an instance with three
//! connections.
//!
//! `Builder` takes what a reader reads, as it reads it; `Modules` are the modules that are whole. Both are seen as the
//! plain modules of `pw_defs`. Symbols number the spellings.
#![tactic(auto)]

mod building;
mod copies;
mod drafts;
mod heads;
mod modules;
mod plain;
mod reads;
mod tables;
mod terms;

pub use drafts::Builder;
pub use heads::{ConnHead, ExprHead, InstHead, ModuleHead};
pub use modules::Modules;
pub use plain::{Draft, Netlist};
pub use tables::{AssignRow, NetRow, PortRow};
