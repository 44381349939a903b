//! What the lines of a netlist say.

use pw_defs::{Dir, List, Name};

/// A port in the first line of a module.
#[derive(Drop)]
pub struct PortWords {
    pub dir: Dir,
    pub name: Name,
}

/// A connection of an instance: a port, and its net, or none where the port is left open.
#[derive(Drop)]
pub struct ConnWords {
    pub port: Name,
    pub net: Option<Name>,
}

/// An instance: of which module or cell, its own name, and its connections.
#[derive(Drop)]
pub struct InstLine {
    pub kind: Name,
    pub name: Name,
    pub conns: List<ConnWords>,
}

/// A line within a module.
#[derive(Drop)]
pub enum ItemLine {
    Wire(Name),
    Inst(InstLine),
}

/// The lines of a module.
#[derive(Drop)]
pub struct ModuleLines {
    pub name: Name,
    pub ports: List<PortWords>,
    pub items: List<ItemLine>,
}
