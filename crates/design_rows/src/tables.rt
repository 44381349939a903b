//! The rows that a design is made of.

use name_rows::Names;
use pw_defs::{Body, Cells, List, Model, Module};

/// An instance, in the order of the paths: what it is inside, its own name, what it is an instance of, and its first bit.
#[derive(Clone, Copy)]
pub struct InstanceRow {
    pub parent: u32,
    pub name: u32,
    pub kind: u32,
    pub first_bit: u32,
}

/// What instances are instances of: `size` bits, whose names and ports are those of the places from `first` on.
#[derive(Clone, Copy)]
pub struct KindRow {
    pub body: Body,
    pub first: u32,
    pub size: u32,
}

/// A bit of a module or cell: a bit of a net, or of a port or pin.
#[derive(Clone, Copy)]
pub enum PlaceRow {
    Net(u32),
    Port { name: u32, port: u32, place: u32 },
}

/// What feeds a bit: another bit, the bit of the through pin of its own instance, its own port bit as a driver, a
/// constant, or nothing.
#[derive(Clone, Copy)]
pub enum Feed {
    Bit(u32),
    Through(u32),
    Driver,
    Constant,
    Nothing,
}

/// The rows of a design. Places are kept once for a module or cell, and not for each instance.
#[derive(Drop)]
pub struct Rows {
    pub cells: Cells,
    pub modules: List<Module>,
    pub models: List<Model>,
    pub names: Names,
    pub kinds: List<KindRow>,
    pub places: List<PlaceRow>,
    pub insts: List<InstanceRow>,
    /// The instances but the first, by what they are inside and then by name.
    pub children: List<u32>,
    pub feeds: Vec<Feed>,
}
