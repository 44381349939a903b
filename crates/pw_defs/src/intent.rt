//! Power intent over a design (IEEE 1801): units, supplies, domains and strategies.

use crate::conditions::UnitCond;
use crate::design::PortBit;
use crate::strategies::Strategy;
use crate::supplies::Supply;
use crate::values::Value;
use plain_lists::{List, Name};

/// A supply set, by the numbers of its supplies.
#[derive(Clone, Copy, Debug, PartialEq, Eq, Hash)]
pub struct SupplySet {
    pub power: u32,
    pub ground: Option<u32>,
}

/// Whether the intent is read for a check or for the model of a soft macro.
#[derive(Clone, Copy, Debug, PartialEq, Eq)]
pub enum Want {
    Check,
    Macro,
}

/// The top, or a soft macro. `ports` are the supply ports of its own instance, `passed` counts its passed-over lines.
#[derive(Drop)]
pub struct Unit {
    pub inst: u32,
    pub outer: Option<u32>,
    pub passed: u32,
    pub ports: List<u32>,
    pub exports: List<Export>,
}

/// A supply set that a soft macro shows to the outside.
#[derive(Clone, Drop)]
pub struct Export {
    pub name: Name,
    pub set: SupplySet,
}

/// A power domain, with the instances that are its elements and those that it excludes.
#[derive(Drop)]
pub struct Domain {
    pub name: Name,
    pub unit: u32,
    pub line: u32,
    pub elements: List<u32>,
    pub excluded: List<u32>,
    pub primary: SupplySet,
    pub default_iso: Option<SupplySet>,
}

/// The set that a line connects to a leaf cell.
#[derive(Clone, Copy, Debug, PartialEq, Eq)]
pub struct CellSet {
    pub inst: u32,
    pub set: SupplySet,
}

/// The driver or receiver supply of a port of the top.
#[derive(Clone, Copy, Debug, PartialEq, Eq)]
pub struct PortSet {
    pub port: u32,
    pub set: SupplySet,
}

/// The values that a root may have, as seen in a unit. They rise.
#[derive(Drop)]
pub struct RootList {
    pub unit: u32,
    pub root: u32,
    pub values: List<Value>,
}

/// What a script makes of a design.
#[derive(Drop)]
pub struct Intent {
    pub want: Want,
    pub units: List<Unit>,
    pub supplies: List<Supply>,
    pub lists: List<RootList>,
    pub domains: List<Domain>,
    /// The domain of each instance.
    pub domain_of: List<u32>,
    pub strategies: List<Strategy>,
    pub cell_sets: List<CellSet>,
    pub port_sets: List<PortSet>,
    pub conds: List<UnitCond>,
}

/// A side of a port bit at which two domains meet.
#[derive(Clone, Copy, Debug, PartialEq, Eq)]
pub struct Face {
    pub bit: PortBit,
    pub inner: bool,
    pub domain: u32,
}
