//! The objects that lines of a power intent script make (IEEE Std 1801-2015), found by name.
//!
//! `Objects` holds them in the order of making, each under its whole name, with the places that numbers stand for: paths of
//! scopes, names of files and of supplies. It is seen as the objects of `World` of `script_defs`. Its look-ups are those of
//! `LookUps`, and its changes those of `SupplySteps`, `PowerStateSteps` and `StateSteps`: for each object a body, for a domain
//! the set of a handle, for sets, domains and groups the power states, for a table a row.
#![tactic(auto)]

mod bodies;
mod changes;
mod handles;
mod lookups;
mod objects;
mod parts;
mod states;

pub use bodies::{Body, DomainBody, ModelBody, SetBody, StrategyBody, SwitchBody, TableBody};
pub use handles::{HandleName, handle_in};
pub use objects::Objects;
pub use parts::{Expression, GivenClause, Handle, Origin, SupplyKey};
pub use states::{PowerStates, StateRow};
