//! Expressions of power states, and what their names stand for.

use crate::conditions::Cond;
use crate::values::Value;
use plain_lists::{List, Name};
use sqlite_items::Boxed;

/// A supply or logic expression. `Volt` is a value of the set's power or ground, `On` that it is on at any voltage.
#[derive(Drop)]
pub enum Term {
    Is { left: Name, state: Name },
    Volt { power: bool, value: Value },
    On { power: bool },
    Not(Boxed<Term>),
    All(List<Term>),
    Any(List<Term>),
}

/// A state of an object, with the condition that it stands for.
#[derive(Drop)]
pub struct NamedState {
    pub object: Name,
    pub state: Name,
    pub cond: Cond,
}

/// What the names in an expression stand for.
#[derive(Drop)]
pub struct TermNames {
    pub power: Option<u32>,
    pub ground: Option<u32>,
    pub states: List<NamedState>,
}
