//! Want of memory, and why a set of states isn't made.

/// Memory ran out.
#[derive(Clone, Copy, Debug, PartialEq, Eq)]
pub struct Memory;

/// Why a set of states isn't made: the pool has as many nodes as its bound, or memory ran out.
#[derive(Clone, Copy, Debug, PartialEq, Eq)]
pub enum DiagFault {
    Bound { nodes: u32 },
    Memory,
}
