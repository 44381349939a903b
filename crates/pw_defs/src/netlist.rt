//! Modules as a structural netlist declares them (IEEE 1364).

use crate::cells::Dir;
use plain_lists::{List, Name};

/// A port in the order of the header. `range` is that of a vector, its left end first.
#[derive(Clone, Drop, PartialEq, Eq)]
pub struct Port {
    pub name: Name,
    pub dir: Dir,
    pub range: Option<(u32, u32)>,
}

/// A declared wire.
#[derive(Clone, Drop)]
pub struct Net {
    pub name: Name,
    pub range: Option<(u32, u32)>,
}

/// What is connected or assigned: a whole net, a bit, a part, a constant of some width, or a concatenation.
#[derive(Drop)]
pub enum Expr {
    Whole(Name),
    Bit(Name, u32),
    Part(Name, u32, u32),
    Const(u32),
    Join(List<Expr>),
}

/// A named connection. `expr` is `None` for an empty one.
#[derive(Drop)]
pub struct Conn {
    pub port: Name,
    pub expr: Option<Expr>,
}

/// An instance of a module or a cell, `kind`.
#[derive(Drop)]
pub struct Inst {
    pub kind: Name,
    pub name: Name,
    pub conns: List<Conn>,
    pub line: u32,
}

/// A continuous assignment.
#[derive(Drop)]
pub struct Assign {
    pub left: Expr,
    pub right: Expr,
    pub line: u32,
}

/// A module.
#[derive(Drop)]
pub struct Module {
    pub name: Name,
    pub ports: List<Port>,
    pub nets: List<Net>,
    pub assigns: List<Assign>,
    pub insts: List<Inst>,
    pub line: u32,
}
