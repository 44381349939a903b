//! What a check finds.

use crate::chains::Kind;
use crate::values::{State, Value};
use plain_lists::{List, Name};

/// A finding on a chain. `witness` has a value for each visible supply.
#[derive(Drop)]
pub struct Finding {
    pub kind: Kind,
    pub receiver: Name,
    pub driver: Name,
    pub forced: bool,
    pub witness: Option<State>,
}

/// Values that the top has on a supply port of a soft macro and the macro doesn't know.
#[derive(Drop)]
pub struct Boundary {
    pub inst: Name,
    pub port: Name,
    pub values: List<Value>,
}

/// The whole answer of a check. `chains` counts the closed chains, `passed` the passed-over lines.
#[derive(Drop)]
pub struct Report {
    pub top: Name,
    pub chains: u32,
    pub passed: u32,
    pub boundaries: List<Boundary>,
    pub visible: List<Name>,
    pub findings: List<Finding>,
}
