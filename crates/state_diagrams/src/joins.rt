//! Joins of sets: one remembered walk over two numbers and a test of two answers.

ghost use Rattle.std.specs.Prelude.{◌≡◌, ◌≤◌, ◌<◌, ◌+◌, ◌⊎◌, ℕ, IfOk, IfErr, IfSome, IfNone, MatchOption, length, slice_index};
ghost use Rattle.diagram_defs.specs.Diagrams.{IsPool, IsSet, AreOfOneLevel, AtTheirLevel, AreKidsFor, IsNumberFor, Grows};
ghost use Rattle.diagram_defs.specs.Sets.{full_set, and_set, or_set, complement_set};
ghost use Rattle.diagram_defs.specs.Answers.{MakesSet, MakesKids};
ghost use Rattle.state_diagrams.specs.Joins.{joined_set, AreApart, IsPlainAnd, IsPlainOr};

use crate::pool::Pool;
use plain_lists::DiagFault;
use smallvec::SmallVec;

/// Which rests the join of two sets has: those in both, those in one, or those of the level that are in neither.
#[derive(Clone, Copy, Debug, PartialEq, Eq, Hash)]
pub enum Join {
    Both,
    Either,
    Neither,
}

/// Two numbers of a level that are joined.
#[derive(Clone, Copy, Debug, PartialEq, Eq, Hash)]
pub struct Task {
    pub join: Join,
    pub level: u32,
    pub a: u32,
    pub b: u32,
}

impl Pool {
    /// The number of the set of all rests of a level. At the number of levels it is 1. `Bound` comes only where the
    /// table is full and a part of the result has no node.
    pub fn full(&mut self, level: u32) -> Result<u32, DiagFault>
        requires { level ≤ length self.old.arities }
        ensures { MakesSet level (full_set self.old level) self.old self.new result }
    {
        self.joined(Join::Neither, level, 0, 0)
    }

    /// The number of the set of all rests of a level, where it is remembered. Nothing is added.
    pub fn full_there(&self, level: u32) -> Option<u32>
        ensures { IfSome result (IsNumberFor self.now level (full_set self.now level)) }
    {
        let task = Task {
            join: Join::Neither,
            level,
            a: 0,
            b: 0,
        };
        match self.recall(task) {
            Some(n) => Some(n),
            None => None,
        }
    }

    /// The number of the rests of a level that aren't in a set of the level. `Bound` comes only where the table is
    /// full and a part of the result has no node.
    pub fn complement(&mut self, level: u32, a: u32) -> Result<u32, DiagFault>
        requires level_in { level ≤ length self.old.arities }
        requires number { IsSet self.old level a }
        ensures { MakesSet level (complement_set self.old level a) self.old self.new result }
    {
        self.joined(Join::Neither, level, a, 0)
    }

    /// The number of the intersection of two sets, which have one level or are empty. `Bound` comes only where the
    /// table is full and a part of the result has no node.
    pub fn and(&mut self, a: u32, b: u32) -> Result<u32, DiagFault>
        requires { AreOfOneLevel self.old a b }
        ensures { AtTheirLevel self.old a b (λ level. MakesSet level (and_set self.old.nodes a b) self.old self.new result) }
    {
        let level = self.common_level(a, b);
        self.joined(Join::Both, level, a, b)
    }

    /// The number of the union of two sets, which have one level or are empty. `Bound` comes only where the table is
    /// full and a part of the result has no node.
    pub fn or(&mut self, a: u32, b: u32) -> Result<u32, DiagFault>
        requires { AreOfOneLevel self.old a b }
        ensures { AtTheirLevel self.old a b (λ level. MakesSet level (or_set self.old.nodes a b) self.old self.new result) }
    {
        let level = self.common_level(a, b);
        self.joined(Join::Either, level, a, b)
    }

    // A level of both numbers. Where both are 0 it is the number of levels.
    fn common_level(&self, a: u32, b: u32) -> u32
        requires { AreOfOneLevel self.now a b }
        ensures first { IsSet self.now result a }
        ensures second { IsSet self.now result b }
        ensures level_in { result ≤ length self.now.arities }
        ensures one { AtTheirLevel self.now a b (λ level. (level ≡ result) ⊎ ((a ≡ 0) × (b ≡ 0) × (result ≡ length self.now.arities))) }
        ensures pool { IsPool self.now }
    {
        let _count = self.nodes();
        self.level(a.max(b).max(1))
    }

    /// The number of the join of two sets of a level. `Bound` comes only where the table is full and a part of the
    /// result has no node.
    pub fn joined(&mut self, join: Join, level: u32, a: u32, b: u32) -> Result<u32, DiagFault>
        requires level_in { level ≤ length self.old.arities }
        requires first { IsSet self.old level a }
        requires second { IsSet self.old level b }
        ensures { MakesSet level (joined_set self.old join level a b) self.old self.new result }
    {
        self.forget();
        self.join(join, level, a, b)
    }

    // The same, as a step of the walk: what was remembered stays.
    #[cycle(join)]
    fn join(&mut self, join: Join, level: u32, a: u32, b: u32) -> Result<u32, DiagFault>
        requires level_in { level ≤ length self.old.arities }
        requires first { IsSet self.old level a }
        requires second { IsSet self.old level b }
        ensures { MakesSet level (joined_set self.old join level a b) self.old self.new result }
    {
        if let Some(n) = self.plain_join(join, level, a, b) {
            return Ok(n);
        }
        let task = Task { join, level, a, b };
        if let Some(n) = self.recall(task) {
            return Ok(n);
        }
        let kids = self.join_kids(join, level, a, b)?;
        let n = self.case_of(level, kids)?;
        self.remember(task, n)?;
        Ok(n)
    }

    // The numbers of what stands behind each value of the level in the join.
    #[cycle(join)]
    fn join_kids(
        &mut self,
        join: Join,
        level: u32,
        a: u32,
        b: u32,
    ) -> Result<SmallVec<u32, 4>, DiagFault>
        requires level_in { level < length self.old.arities }
        requires first { IsSet self.old level a }
        requires second { IsSet self.old level b }
        ensures { MakesKids (λ kids. kids.items) level (joined_set self.old join level a b) self.old self.new result }
    {
        let arity = self.arity(level);
        let mut kids = SmallVec::new(self.allocator());
        for v in 0..arity {
            let x = self.child(a, v);
            let y = self.child(b, v);
            let n = self.join(join, level + 1, x, y)?;
            kids.push(n)?;
        }
        Ok(kids)
    }

    // The join, where the two numbers alone show it.
    fn plain_join(&self, join: Join, level: u32, a: u32, b: u32) -> Option<u32>
        requires level_in { level ≤ length self.now.arities }
        requires first { IsSet self.now level a }
        requires second { IsSet self.now level b }
        ensures number { IfSome result (IsNumberFor self.now level (joined_set self.now join level a b)) }
        ensures open { IfNone result (level < length self.now.arities) }
        ensures pool { IsPool self.now }
    {
        let _count = self.nodes();
        match join {
            Join::Both => plain_and(a, b),
            Join::Either => plain_or(a, b),
            Join::Neither => {
                if level == self.level(1) {
                    Some(if a == 0 && b == 0 { 1 } else { 0 })
                } else {
                    None
                }
            }
        }
    }
}

// The intersection, where the two numbers alone show it.
fn plain_and(a: u32, b: u32) -> Option<u32>
    ensures { MatchOption result (AreApart a b) (IsPlainAnd a b) }
{
    if a == 0 || b == 0 {
        Some(0)
    } else if a == b {
        Some(a)
    } else {
        None
    }
}

// The union, where the two numbers alone show it.
fn plain_or(a: u32, b: u32) -> Option<u32>
    ensures { MatchOption result (AreApart a b) (IsPlainOr a b) }
{
    if a == 0 || a == b {
        Some(b)
    } else if b == 0 {
        Some(a)
    } else {
        None
    }
}
