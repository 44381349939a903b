//! An elaborated design: its instances and bits, and what feeds each bit.

use crate::cells::Cells;
use crate::model::Model;
use crate::netlist::Module;
use plain_lists::{List, Name};

/// What an instance is an instance of.
#[derive(Clone, Copy, Debug, PartialEq, Eq)]
pub enum Body {
    Module(u32),
    Cell(u32),
    Model(u32),
}

/// An instance by its path below the top. The top's own path is empty, and it alone has no parent.
#[derive(Drop)]
pub struct Instance {
    pub path: Name,
    pub parent: Option<u32>,
    pub body: Body,
}

/// A bit of a port or pin of an instance. `place` counts from the left of a vector.
#[derive(Clone, Copy, Debug, PartialEq, Eq)]
pub struct PortBit {
    pub inst: u32,
    pub port: u32,
    pub place: u32,
}

/// What feeds a bit: another bit, an isolation cell or level shifter from the bit of its through pin, a driver, a
/// constant, or nothing.
#[derive(Clone, Copy, Debug, PartialEq, Eq)]
pub enum Feeder {
    Bit(u32),
    Through { inst: u32, bit: u32 },
    Driver(PortBit),
    Constant,
    Nothing,
}

/// A bit of a net, port or pin, with its whole path as its name.
#[derive(Drop)]
pub struct Bit {
    pub name: Name,
    pub owner: u32,
    pub port: Option<PortBit>,
    pub feeder: Feeder,
}

/// A design with its whole hierarchy. The first instance is the top.
#[derive(Drop)]
pub struct Design {
    pub cells: Cells,
    pub modules: List<Module>,
    pub models: List<Model>,
    pub insts: List<Instance>,
    pub bits: List<Bit>,
}

/// What a name in a script stands for.
#[derive(Clone, Copy, Debug, PartialEq, Eq)]
pub enum Named {
    Instance(u32),
    Port { inst: u32, port: u32 },
    PortBit(PortBit),
}
