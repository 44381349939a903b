//! Sets of states as a list of nodes, as a model file keeps them.

use crate::lists::List;

/// A node of a set of states: its level, and a child for each value of that level.
#[derive(Clone, Drop)]
pub struct KeptNode {
    pub level: u32,
    pub kids: List<u32>,
}

/// Sets of states as nodes, which are numbered from 2 on; 0 is the empty set, 1 the set of the empty rest.
#[derive(Clone, Drop)]
pub struct Kept {
    pub arities: List<u32>,
    pub nodes: List<KeptNode>,
}

/// Where a level of a kept set stands in another order, and which index each of its values has there.
#[derive(Drop)]
pub struct Place {
    pub level: u32,
    pub values: List<u8>,
}
