//! Walks, chains and what is watched on them.

use crate::conditions::Cond;
use crate::design::{Feeder, PortBit};
use crate::intent::SupplySet;
use crate::strategies::Candidate;
use plain_lists::{List, Name};

/// What can be wrong with a chain.
#[derive(Clone, Copy, Debug, PartialEq, Eq, PartialOrd, Ord)]
pub enum Kind {
    IsoMissing,
    IsoRedundant,
    IsoSupply,
    IsoIntent,
    LsMissing,
    LsRedundant,
    LsSupply,
    LsIntent,
    Tie,
}

/// When a watch is raised: where some legal state shows its condition, where none does, or at once.
#[derive(Clone, Copy, Debug, PartialEq, Eq)]
pub enum Sense {
    WhenSome,
    WhenNone,
    Always,
}

/// The way back from a receiver: its bits from the receiver's own on, and where it ends.
#[derive(Drop)]
pub struct Walk {
    pub from: Feeder,
    pub to: PortBit,
    pub bits: List<u32>,
}

/// What a chain passes on its way from the driver: a face with its candidates, or an isolation cell or shifter.
#[derive(Clone, Drop)]
pub enum Element {
    Face(List<Candidate>),
    Cell {
        iso: bool,
        shift: bool,
        input: Option<SupplySet>,
        output: SupplySet,
    },
}

/// A receiver with the driver that feeds it.
#[derive(Drop)]
pub struct Chain {
    pub receiver: Name,
    pub to: SupplySet,
    pub driver: Name,
    pub from: SupplySet,
    pub unit: u32,
    pub elements: List<Element>,
}

/// A walk that ends at a port of the soft macro that it stands in.
#[derive(Clone, Drop)]
pub enum Partial {
    Drive {
        bit: Name,
        pin: Name,
        set: SupplySet,
        elements: List<Element>,
    },
    Feed {
        bit: Name,
        from: Name,
        elements: List<Element>,
    },
    Quiet {
        bit: Name,
    },
    Take {
        bit: Name,
        receiver: Name,
        set: SupplySet,
        elements: List<Element>,
    },
}

/// The closed chains of a design, and the open walks of its top.
#[derive(Drop)]
pub struct Crossings {
    pub closed: List<Chain>,
    pub partials: List<Partial>,
}

/// A condition that is watched on a chain.
#[derive(Drop)]
pub struct Watch {
    pub kind: Kind,
    pub sense: Sense,
    pub cond: Cond,
}
