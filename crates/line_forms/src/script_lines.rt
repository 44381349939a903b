//! What the lines of a script say.

use pw_defs::{List, Name, Value};

/// A state of a supply: its name, its value as it is written, `off` or volts, and that value.
#[derive(Drop)]
pub struct StateWords {
    pub name: Name,
    pub word: Name,
    pub value: Value,
}

/// A command of a script, which is one line.
#[derive(Drop)]
pub enum CommandLine {
    /// `create_supply_net`
    SupplyNet {
        net: Name,
    },
    /// `add_supply_state`
    SupplyState {
        net: Name,
        states: List<StateWords>,
    },
    /// `create_supply_set`
    SupplySet {
        set: Name,
        power: Name,
        ground: Option<Name>,
    },
    /// `create_power_domain`, of this element, or of the whole design where that is written as a point
    Domain {
        domain: Name,
        element: Option<Name>,
        primary: Name,
    },
}
