//! What stands under a name. A supply is small, and all else stands behind a pointer.

use crate::parts::{GivenClause, Handle, Origin, SupplyKey};
use crate::states::PowerStates;
use named_rows::NamedRows;
use pw_defs::{Bytes, Line, List, SupplyKind, Tool, Value};
use std::mem::size_of;

/// A supply set: its options and its power states.
#[derive(Drop)]
pub struct SetBody {
    pub given: List<GivenClause>,
    pub states: PowerStates,
}

/// A switch: the names of its output port, of its input ports, and of the inputs that on states name.
#[derive(Drop)]
pub struct SwitchBody {
    pub output: Bytes,
    pub inputs: List<Bytes>,
    pub on: List<Bytes>,
}

/// A domain: its options, the sets of its two handles, and its power states.
#[derive(Drop)]
pub struct DomainBody {
    pub given: List<GivenClause>,
    pub primary: Option<Handle>,
    pub isolation: Option<Handle>,
    pub states: PowerStates,
}

/// A table of states: the supplies of its columns, and its rows, of which each has for each column the value that its state
/// stands for, or none for `*`.
#[derive(Drop)]
pub struct TableBody {
    pub columns: List<SupplyKey>,
    pub rows: NamedRows<List<Option<Value>>>,
}

/// A strategy: what it is for, and its options.
#[derive(Drop)]
pub struct StrategyBody {
    pub tool: Tool,
    pub given: List<GivenClause>,
}

/// A power model: the modules that it is for, and the lines of its body.
#[derive(Drop)]
pub struct ModelBody {
    pub modules: List<Bytes>,
    pub lines: List<Line>,
}

/// What stands under a name.
#[derive(Drop)]
pub enum Body {
    Supply(SupplyKind),
    Set(Box<SetBody>),
    Switch(Box<SwitchBody>),
    Domain(Box<DomainBody>),
    Table(Box<TableBody>),
    Group(Box<PowerStates>),
    Strategy(Box<StrategyBody>),
    PowerModel(Box<ModelBody>),
}

/// What stands behind the whole name of an object: the place of the scope where it was made, the line that made it, and what
/// it is.
#[derive(Drop)]
pub struct ObjectRow {
    pub scope: u32,
    pub origin: Origin,
    pub body: Body,
}

// A million of them fit.
const _: () = prove!(size_of::<ObjectRow>() <= 32);
