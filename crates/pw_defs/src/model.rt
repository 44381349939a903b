//! Models of soft macros, and made inputs.

use crate::chains::{Kind, Partial, Sense};
use crate::intent::Export;
use crate::netlist::Port;
use crate::values::Value;
use plain_lists::{Bytes, Kept, List, Name};

/// An interface supply of a soft macro. `port` says that it is an `in` supply port.
#[derive(Clone, Drop)]
pub struct ModelSupply {
    pub name: Name,
    pub port: bool,
    pub values: List<Value>,
}

/// An `out` supply port, and the interface supply behind it.
#[derive(Clone, Drop)]
pub struct OutPort {
    pub name: Name,
    pub supply: u32,
}

/// A watch of a closed chain, with the number of the set of states that it keeps.
#[derive(Clone, Drop)]
pub struct KeptWatch {
    pub kind: Kind,
    pub sense: Sense,
    pub node: u32,
    pub receiver: Name,
    pub driver: Name,
}

/// What a check over model files needs to know of a soft macro.
#[derive(Clone, Drop)]
pub struct Model {
    pub module: Name,
    pub chains: u32,
    pub passed: u32,
    pub ports: List<Port>,
    pub supplies: List<ModelSupply>,
    pub outs: List<OutPort>,
    pub exports: List<Export>,
    pub partials: List<Partial>,
    pub kept: Kept,
    pub legal: u32,
    pub watches: List<KeptWatch>,
}

/// Which large input is made: chains that are all isolated, or independent pairs of supplies.
#[derive(Clone, Copy, Debug, PartialEq, Eq)]
pub enum Make {
    Good,
    Pairs,
}

/// The three texts of a made input.
#[derive(Drop)]
pub struct Made {
    pub lib: Bytes,
    pub net: Bytes,
    pub upf: Bytes,
}
