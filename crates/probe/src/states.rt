//! Supplies with their values, the legal states under a condition, and the set of a condition in a table.
ghost use Rattle.std.specs.Prelude.{◌≡◌, ◌≤◌, IsTrue, length, map, replicate};

use crate::conditions::{condition_of, speaks, value_of};
use crate::words::{answer_text, number_text, unknown};
use pw_defs::{Cond, List, ListFault, Value};
use state_build::build;
use state_diagrams::Pool;
use state_lists::legal;
use std::alloc::{AllocError, Global};

/// The values of each supply, in order.
#[derive(Drop)]
pub struct Supplies {
    lists: Vec<List<Value>>,
}

impl Supplies {
    pub fn new(alloc: Global) -> Supplies {
        Supplies {
            lists: Vec::new(alloc),
        }
    }

    /// Adds a supply with its values.
    pub fn add(&mut self, alloc: Global, words: &[&str]) -> Result<String, AllocError> {
        let mut values = List::new(alloc);
        for word in words {
            let Some(value) = value_of(*word) else {
                return unknown(alloc);
            };
            values.push(value)?;
        }
        if self.lists.len() >= 1024 {
            return unknown(alloc);
        }
        self.lists.push(values)?;
        answer_text(alloc, true, "supply")
    }
}

/// The states in which a condition holds, each with its values, then how many they are.
pub fn legal_text(
    alloc: Global,
    supplies: &Supplies,
    words: &[&str],
) -> Result<String, AllocError> {
    let Some(cond) = condition_of(alloc, words)? else {
        return unknown(alloc);
    };
    let lists = supplies.lists.as_slice();
    if lists.len() > 1024 || !speaks(lists.len() as u32, &cond) {
        return unknown(alloc);
    }
    let states = match legal(alloc, lists, &[cond]) {
        Ok(states) => states,
        Err(ListFault::Bound) => return answer_text(alloc, true, "bound"),
        Err(ListFault::Memory) => return answer_text(alloc, true, "memory"),
    };
    let mut text = String::new(alloc);
    for state in states.as_slice() {
        for value in state.values.as_slice() {
            match value {
                Value::Off => text.push_str("off ")?,
                Value::On(volts) => text.push_str(format!(in alloc; "{volts} ")?.as_str())?,
            }
        }
        text.push_str("; ")?;
    }
    let count = states.len();
    text.push_str(format!(in alloc; "states {count}")?.as_str())?;
    Ok(text)
}

/// Whether the table has a level for each supply, with as many values.
fn fits(pool: &Pool, lists: &[List<Value>]) -> bool
    ensures { IsTrue result → map length lists.now ≡ pool.now.arities }
{
    let _count = pool.nodes();
    if pool.level(1) as usize != lists.len() {
        return false;
    }
    for level in 0..lists.len() {
        if pool.arity(level as u32) != lists[level].len() {
            return false;
        }
    }
    true
}

/// The number of the set of a condition in a table.
pub fn build_text(
    alloc: Global,
    pool: &mut Pool,
    supplies: &Supplies,
    words: &[&str],
) -> Result<String, AllocError> {
    let Some(cond) = condition_of(alloc, words)? else {
        return unknown(alloc);
    };
    let lists = supplies.lists.as_slice();
    if lists.len() > 1024 || !speaks(lists.len() as u32, &cond) || !fits(pool, lists) {
        return unknown(alloc);
    }
    let number = build(pool, lists, &cond);
    number_text(alloc, number)
}
