//! Isolation and level shifter strategies (IEEE 1801).

use crate::design::Named;
use crate::intent::SupplySet;
use plain_lists::List;

/// What a strategy puts in: isolation cells, or level shifters.
#[derive(Clone, Copy, Debug, PartialEq, Eq)]
pub enum Tool {
    Iso,
    Shift,
}

/// Whether a strategy asks as needed, always, or never.
#[derive(Clone, Copy, Debug, PartialEq, Eq)]
pub enum Mode {
    Plain,
    Force,
    No,
}

/// For which driver and receiver sets a strategy is meant. `diff` leaves out chains whose two sets are the same.
#[derive(Clone, Copy, Debug, PartialEq, Eq)]
pub struct Filter {
    pub source: Option<SupplySet>,
    pub sink: Option<SupplySet>,
    pub diff: bool,
}

/// What a strategy asks for. `threshold` is in microvolts; `up` is low to high.
#[derive(Clone, Copy, Debug, PartialEq, Eq)]
pub enum Act {
    Iso {
        mode: Mode,
        supply: Option<SupplySet>,
    },
    Shift {
        mode: Mode,
        up: bool,
        down: bool,
        threshold: u32,
        input: Option<SupplySet>,
        output: Option<SupplySet>,
    },
}

/// A strategy of a domain. `cells` are the leaf cells that its `-instance` names.
#[derive(Drop)]
pub struct Strategy {
    pub domain: u32,
    pub elements: Option<List<Named>>,
    pub excluded: List<Named>,
    pub inputs: bool,
    pub outputs: bool,
    pub upper: bool,
    pub lower: bool,
    pub cells: List<u32>,
    pub filter: Filter,
    pub act: Act,
}

/// A strategy at a face, without what chose it. `class` is 4 for a named bit, 3 for a named port, 2 for a named
/// instance, 1 for no elements and one direction, 0 for no elements and both.
#[derive(Clone, Copy, Debug, PartialEq, Eq)]
pub struct Candidate {
    pub class: u8,
    pub filter: Filter,
    pub act: Act,
}

/// The effective candidate of a list, and whether another one ties with it.
#[derive(Clone, Copy, Debug, PartialEq, Eq)]
pub struct Choice {
    pub first: Option<u32>,
    pub tie: bool,
}
