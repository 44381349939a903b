//! The supply network.

use crate::values::Value;
use plain_lists::{List, Name};

/// What kind of supply it is. `Kept` is an interface supply of a model.
#[derive(Clone, Copy, Debug, PartialEq, Eq)]
pub enum SupplyKind {
    InPort,
    OutPort,
    Net,
    SwitchIn,
    SwitchOut,
    Kept,
}

/// A value that the lines of a unit mention on a supply.
#[derive(Clone, Copy, Debug, PartialEq, Eq)]
pub struct Said {
    pub unit: u32,
    pub value: Value,
}

/// A supply port, net or switch port. `inputs` are, for a switch output, the inputs that an on state names.
#[derive(Drop)]
pub struct Supply {
    pub name: Name,
    pub unit: u32,
    pub kind: SupplyKind,
    pub feeder: Option<u32>,
    pub inputs: List<u32>,
    pub said: List<Said>,
}

/// A power switch as its command writes it: ports with the supplies that they are joined to, and the names of the
/// input ports that on states name.
#[derive(Drop)]
pub struct SwitchText {
    pub name: Name,
    pub output: (Name, u32),
    pub inputs: List<(Name, u32)>,
    pub on: List<Name>,
}
