//! A table of nodes with its levels and its bound.

ghost use Rattle.std.specs.Prelude.{◌≡◌, ◌≤◌, ◌<◌, ◌+◌, ◌↔◌, IsTrue, IfOk, IfErr, IfSome, OnOk, OnErr, MatchBool, [], length, slice_index};
ghost use Rattle.diagram_defs.specs.Diagrams.{IsPool, IsSet, IsNode, HasKid, AreKids, AreArities, IsNumberFor, Grows, kid, member};
ghost use Rattle.diagram_defs.specs.Sets.{case_set};
ghost use Rattle.diagram_defs.specs.Answers.{MakesSet};
ghost use Rattle.state_diagrams.specs.Nodes.{shape, IsNumberOf, IsAbsent, IsPut, IsRefusal, HasNoKid};
ghost use Rattle.state_diagrams.specs.Remembered.{IsRemembered};
ghost use Rattle.state_diagrams.specs.Uniqueness.{HasOneNumberEach};
ghost use Rattle.state_diagrams.specs.Counts.{CountsParts};

use crate::joins::Task;
use crate::nodes::{Node, find, put};
use indexmap::IndexSet;
use plain_lists::{DiagFault, Memory};
use smallvec::SmallVec;
use std::alloc::Global;
use std::collections::HashMap;
use std::marker::Model;

/// Sets of rests of states, by number. A rest has an index for each level from some level on. Number 0 is the empty
/// set, 1 the set of the empty rest, and the numbers from 2 on are nodes: a level, and the number of the set behind
/// each value of the level. Each set has one number.
#[derive(Drop)]
pub struct Pool {
    arities: Vec<u32>,
    bound: u32,
    nodes: IndexSet<Node>,
    memo: HashMap<Task, u32>,
}

impl Model for Pool {
    ghost use Rattle.diagram_defs.specs.Diagrams.{Diagram};

    ghost Value = { Diagram };

    ghost use Rattle.state_diagrams.specs.Pools.{diagram_of, IsRight};

    ghost view = { diagram_of };

    ghost invariant = { IsRight };
}

impl Pool {
    /// A table without nodes. Each level has 1 to 64 values, and there are at most 1,024 levels and 1,048,576 nodes.
    pub fn new(alloc: Global, arities: &[u32], bound: u32) -> Result<Pool, Memory>
        requires arities { AreArities arities.now }
        requires limit { bound ≤ 1048576 }
        ensures { IfOk result (λ pool. pool ≡ record { arities = arities.now; bound = bound; nodes = [] }) }
    {
        let arities = Vec::from_slice(alloc, arities)?;
        Ok(Pool {
            arities,
            bound,
            nodes: IndexSet::new(alloc),
            memo: HashMap::new(alloc),
        })
    }

    /// How many values a level has.
    pub fn arity(&self, level: u32) -> u32
        requires { level < length self.now.arities }
        ensures { result ≡ slice_index self.now.arities level }
    {
        self.arities[level as usize]
    }

    /// How many nodes the table may have.
    pub fn bound(&self) -> u32
        ensures { result ≡ self.now.bound }
    {
        self.bound
    }

    /// How many nodes the table has. Their numbers begin at 2.
    pub fn nodes(&self) -> u32
        ensures count { result ≡ length self.now.nodes }
        ensures pool { IsPool self.now }
    {
        self.nodes.len() as u32
    }

    /// The level of a number. The level of 1 is the number of levels.
    pub fn level(&self, n: u32) -> u32
        requires low { 1 ≤ n }
        requires high { n < length self.now.nodes + 2 }
        ensures { IsSet self.now result n }
    {
        if n == 1 {
            return self.arities.len() as u32;
        }
        self.nodes.as_slice()[n as usize - 2].level
    }

    /// The number of the set behind a value, which is 0 where a number has no child for it, as 0 and 1 have none.
    pub fn child(&self, n: u32, v: u32) -> u32
        ensures { result ≡ kid self.now.nodes n v }
    {
        if n < 2 {
            return 0;
        }
        match self.nodes.get_index(n as usize - 2) {
            Some(node) => kid_at(node.kids.as_slice(), v),
            None => 0,
        }
    }

    /// Whether a number means the empty set, which 0 alone does.
    pub fn is_empty(&self, n: u32) -> bool
        ensures { IsTrue result ↔ (n ≡ 0) }
    {
        n == 0
    }

    /// Says that numbers of a level are equal exactly where their sets are, so that sets may be compared by number.
    pub fn one_number(&self)
        ensures { HasOneNumberEach self.now }
    {
        let _count = self.nodes();
    }

    /// Says that `Bound` has its cause in the sets: where the table is full with parts of some sets alone, and one of their
    /// parts has no node, they have more different parts than the table may have nodes.
    pub fn counts_parts(&self)
        ensures { CountsParts self.now }
    {
        let _count = self.nodes();
    }

    /// Whether a rest is in the set of a number. It isn't where it has no index for each level from the number's on.
    pub fn holds(&self, n: u32, rest: &[u8]) -> bool
        ensures { result ≡ member self.now.nodes n rest.now }
    {
        let mut n = n;
        for v in rest {
            n = self.child(n, u32::from(*v));
        }
        n == 1
    }

    /// The number of the set that has behind each value of a level the set of one of the numbers, which are of the
    /// next level. `Bound` comes only where the table is full and a part of the result has no node.
    pub fn case(&mut self, level: u32, kids: &[u32]) -> Result<u32, DiagFault>
        requires level_in { level < length self.old.arities }
        requires arity { length kids.now ≡ slice_index self.old.arities level }
        requires below { AreKids self.old.arities self.old.nodes (length self.old.nodes) (level + 1) kids.now }
        ensures { MakesSet level (case_set self.old.nodes kids.now) self.old self.new result }
    {
        let kids = SmallVec::from_slice(self.allocator(), kids)?;
        self.case_of(level, kids)
    }

    /// The same, with the children in their own storage.
    pub fn case_of(&mut self, level: u32, kids: SmallVec<u32, 4>) -> Result<u32, DiagFault>
        requires level_in { level < length self.old.arities }
        requires arity { length kids.items ≡ slice_index self.old.arities level }
        requires below { AreKids self.old.arities self.old.nodes (length self.old.nodes) (level + 1) kids.items }
        ensures { MakesSet level (case_set self.old.nodes kids.items) self.old self.new result }
    {
        let _count = self.nodes();
        if !has_kid(kids.as_slice()) {
            return Ok(0);
        }
        self.place(Node { level, kids })
    }

    /// The number of the same set, where it is empty or its node is there. Nothing is added.
    pub fn case_there(&self, level: u32, kids: SmallVec<u32, 4>) -> Option<u32>
        requires level_in { level < length self.now.arities }
        requires arity { length kids.items ≡ slice_index self.now.arities level }
        requires below { AreKids self.now.arities self.now.nodes (length self.now.nodes) (level + 1) kids.items }
        ensures { IfSome result (IsNumberFor self.now level (case_set self.now.nodes kids.items)) }
    {
        let _count = self.nodes();
        if !has_kid(kids.as_slice()) {
            return Some(0);
        }
        find(&self.nodes, &Node { level, kids })
    }

    /// The allocator of the table's own storage.
    pub fn allocator(&self) -> Global
        ensures { IsPool self.now }
    {
        *self.arities.allocator()
    }

    // The number of a node, which is added where it is new.
    pub(crate) fn place(&mut self, node: Node) -> Result<u32, DiagFault>
        requires node { IsNode self.old.arities self.old.nodes (length self.old.nodes) (shape node) }
        requires nonempty { HasKid (shape node).kids }
        ensures ok { IfOk result (IsPut self.old.nodes self.new.nodes (shape node)) }
        ensures err { OnErr result (self.new ≡ self.old) }
        ensures cause { IfErr result (IsRefusal self.old (shape node)) }
        ensures grows { Grows self.old self.new }
    {
        if self.nodes.len() >= self.bound as usize {
            return match find(&self.nodes, &node) {
                Some(n) => Ok(n),
                None => Err(DiagFault::Bound {
                    nodes: self.nodes.len() as u32,
                }),
            };
        }
        let n = put(&mut self.nodes, node)?;
        Ok(n)
    }

    // Forgets all results, where there are many more than nodes, so that they take no more memory than the nodes do.
    // Within one call nothing is forgotten, so that it meets no task twice.
    pub(crate) fn forget(&mut self)
        ensures { self.new ≡ self.old }
    {
        if self.memo.len() / 2 > self.nodes.len() + 1024 {
            self.memo.clear();
        }
    }

    // The remembered result of a task.
    pub(crate) fn recall(&self, task: Task) -> Option<u32>
        ensures { IfSome result (IsRemembered self.now task) }
    {
        self.memo.get(&task).copied()
    }

    // Remembers the result of a task.
    pub(crate) fn remember(&mut self, task: Task, n: u32) -> Result<(), DiagFault>
        requires { IsRemembered self.old task n }
        ensures same { self.new ≡ self.old }
        ensures cause { IfErr result (λ e. e ≡ DiagFault.Memory) }
    {
        self.memo.insert(task, n)?;
        Ok(())
    }
}

// Whether some child isn't empty.
fn has_kid(kids: &[u32]) -> bool
    ensures { MatchBool result (HasKid kids.now) (HasNoKid kids.now) }
{
    for kid in kids {
        if *kid != 0 {
            return true;
        }
    }
    false
}

// The child at a value, which is 0 past the last.
fn kid_at(kids: &[u32], v: u32) -> u32
    ensures { result ≡ slice_index kids.now v }
{
    match kids.get(v as usize) {
        Some(kid) => *kid,
        None => 0,
    }
}
