//! The rows that modules are made of.

use name_index::NameIndex;
use pw_defs::{Dir, List};

/// A port: the symbol of its name, its direction, and its range, if it is a vector.
#[derive(Clone, Copy)]
pub struct PortRow {
    pub name: u32,
    pub dir: Dir,
    pub range: Option<(u32, u32)>,
}

/// A declared wire: the symbol of its name, and its range, if it is a vector.
#[derive(Clone, Copy)]
pub struct NetRow {
    pub name: u32,
    pub range: Option<(u32, u32)>,
}

/// An expression by the symbols of its names. A concatenation has `count` parts, which stand before it, and its names and
/// constants are those of the rows from `first` on.
#[derive(Clone, Copy)]
pub enum ExprRow {
    Whole(u32),
    Bit(u32, u32),
    Part(u32, u32, u32),
    Const(u32),
    Join { first: u32, count: u32 },
}

/// A connection: the symbol of the port, and one more than the number of the expression, or 0 for an empty one.
#[derive(Clone, Copy)]
pub struct ConnRow {
    pub port: u32,
    pub expr: u32,
}

/// An assignment: the numbers of its two expressions, and its line.
#[derive(Clone, Copy)]
pub struct AssignRow {
    pub left: u32,
    pub right: u32,
    pub line: u32,
}

/// An instance: the symbols of what it is an instance of and of its name, its line, and where its connections are.
#[derive(Clone, Copy)]
pub struct InstRow {
    pub kind: u32,
    pub name: u32,
    pub line: u32,
    pub conns_first: u32,
    pub conns_end: u32,
}

/// How far the tables have come.
#[derive(Clone, Copy)]
pub struct Marks {
    pub ports: u32,
    pub nets: u32,
    pub assigns: u32,
    pub insts: u32,
}

/// A module: the symbol of its name, its line, and where its ports, wires, assignments and instances are.
#[derive(Clone, Copy)]
pub struct ModuleRow {
    pub name: u32,
    pub line: u32,
    pub first: Marks,
    pub end: Marks,
}

/// Spellings and expressions.
#[derive(Drop)]
pub struct Terms {
    pub symbols: NameIndex,
    pub exprs: List<ExprRow>,
}

/// The rows of modules.
#[derive(Drop)]
pub struct Rows {
    pub terms: Terms,
    pub conns: List<ConnRow>,
    pub ports: List<PortRow>,
    pub nets: List<NetRow>,
    pub assigns: List<AssignRow>,
    pub insts: List<InstRow>,
    pub modules: List<ModuleRow>,
    /// Where the module that is open begins.
    pub current: Marks,
}
