//! The nodes of a table, each once, in order of making.

ghost use Rattle.std.specs.Prelude.{◌≡◌, ◌≤◌, ◌<◌, MatchOption, IfOk, OnErr, length};
ghost use Rattle.state_diagrams.specs.Nodes.{shape, shapes, IsAbsent, IsNumberOf, IsPut};

use indexmap::IndexSet;
use smallvec::SmallVec;
use std::alloc::AllocError;

/// A node: its level, and the number of the set behind each value of the level.
#[derive(Debug, Drop, PartialEq, Eq, Hash)]
pub struct Node {
    pub level: u32,
    pub kids: SmallVec<u32, 4>,
}

/// The number of a node.
pub fn find(nodes: &IndexSet<Node>, node: &Node) -> Option<u32>
    requires { length nodes.now.keys ≤ 1048576 }
    ensures { MatchOption result (IsAbsent (shapes nodes.now) (shape node.now)) (IsNumberOf (shapes nodes.now) (shape node.now)) }
{
    match nodes.get_full(node) {
        Some((at, _)) => Some(at as u32 + 2),
        None => None,
    }
}

/// The number of a node, which is added where it is new.
pub fn put(nodes: &mut IndexSet<Node>, node: Node) -> Result<u32, AllocError>
    requires { length nodes.old.keys < 1048576 }
    ensures ok { IfOk result (IsPut (shapes nodes.old) (shapes nodes.new) (shape node)) }
    ensures err { OnErr result (shapes nodes.new ≡ shapes nodes.old) }
{
    let (at, _) = nodes.insert_full(node)?;
    Ok(at as u32 + 2)
}
