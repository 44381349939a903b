//! Sets of states by the value at one level.

ghost use Rattle.std.specs.Prelude.{◌≡◌, ◌≤◌, ◌<◌, ◌+◌, ◌==◌, ℕ, List, IfOk, IfErr, MatchBool, length, slice_index, replicate};
ghost use Rattle.std.specs.Int.{bit_at};
ghost use Rattle.diagram_defs.specs.Diagrams.{IsSet, IsNumberFor, member};
ghost use Rattle.diagram_defs.specs.Sets.{literal_set, widened_set};
ghost use Rattle.diagram_defs.specs.Answers.{MakesSet};
ghost use Rattle.state_diagrams.specs.Masks.{choice_set, IsPicked, PicksSome, PicksNone};

use crate::pool::Pool;
use plain_lists::DiagFault;
use smallvec::SmallVec;
use std::alloc::{AllocError, Global};

impl Pool {
    /// The number of the whole states whose value at a level has its bit in the mask. Bits past the level's values
    /// count for nothing. `Bound` comes only where the table is full and a part of the result has no node.
    pub fn literal(&mut self, level: u32, mask: u64) -> Result<u32, DiagFault>
        requires { level < length self.old.arities }
        ensures { MakesSet 0 (literal_set self.old level mask) self.old self.new result }
    {
        let n = self.choice(level, mask)?;
        self.widen(0, level, n)
    }

    // The number of the rests of a level whose first value has its bit in the mask.
    fn choice(&mut self, level: u32, mask: u64) -> Result<u32, DiagFault>
        requires { level < length self.old.arities }
        ensures { MakesSet level (choice_set self.old level mask) self.old self.new result }
    {
        let alloc = self.allocator();
        let arity = self.arity(level);
        if !picks_some(mask, arity) {
            return Ok(0);
        }
        let rest = self.full(level + 1)?;
        let kids = picked(alloc, arity, mask, rest)?;
        self.case_of(level, kids)
    }

    /// The number of the rests of a level whose rest of a later level is in a set of that level. `Bound` comes only
    /// where the table is full and a part of the result has no node.
    pub fn widen(&mut self, level: u32, from: u32, n: u32) -> Result<u32, DiagFault>
        requires order { level ≤ from }
        requires level_in { from ≤ length self.old.arities }
        requires number { IsSet self.old from n }
        ensures { MakesSet level (widened_set self.old level from (member self.old.nodes n)) self.old self.new result }
    {
        let alloc = self.allocator();
        let mut n = n;
        let mut at = from;
        while at > level {
            at -= 1;
            let arity = self.arity(at);
            let kids = SmallVec::from_elem(alloc, n, arity as usize)?;
            n = self.case_of(at, kids)?;
        }
        Ok(n)
    }
}

// Whether a mask has the bit of some value.
fn picks_some(mask: u64, arity: u32) -> bool
    requires { arity ≤ 64 }
    ensures { MatchBool result (PicksSome mask arity) (PicksNone mask arity) }
{
    for v in 0..arity {
        if picks(mask, v) {
            return true;
        }
    }
    false
}

// The number for each value whose bit is in the mask, and 0 for the others.
fn picked(alloc: Global, arity: u32, mask: u64, n: u32) -> Result<SmallVec<u32, 4>, AllocError>
    requires { arity ≤ 64 }
    ensures { IfOk result (λ kids. IsPicked mask n arity kids.items) }
{
    let mut kids = SmallVec::new(alloc);
    for v in 0..arity {
        let kid = if picks(mask, v) { n } else { 0 };
        kids.push(kid)?;
    }
    Ok(kids)
}

// Whether a mask has the bit of a value.
fn picks(mask: u64, v: u32) -> bool
    requires { v < 64 }
    ensures { result ≡ (bit_at mask v == 1) }
{
    (mask >> v) & 1 == 1
}
