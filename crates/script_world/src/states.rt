//! The power states of an object.
ghost use Rattle.std.specs.Prelude.{◌≡◌, ◌<◌, ◌≤◌, ◌++◌, ◌∷◌, [], ℕ, List, true, None, Some, length, option_and_then, slice_get, IfOk, OnErr, OnOk};
ghost use Rattle.list_defs.specs.Members.{all_differ, place_of, same_name};
ghost use Rattle.named_rows.specs.Rows.{names_in, rows_in};
ghost use Rattle.script_defs.specs.PowerStateSteps.{changed, completed, state_named, with_named};
ghost use Rattle.script_defs.specs.Statements.{Statement};
ghost use Rattle.script_defs.specs.SupplySteps.{no_states};
ghost use Rattle.script_world.specs.Ranges.{AreStates, IsExpression};
ghost use Rattle.script_world.specs.Seen.{expression_seen, rows_of, states_seen};
ghost use Rattle.script_world.specs.States.{HasSame, marked_illegal, marked_legal, with_expression};

use crate::parts::Expression;
use named_rows::NamedRows;
use pw_defs::{List, Memory};
use std::alloc::Global;

/// A state without its name: the line that made it, the lines that mark it legal or illegal, and its expressions, joined by
/// "and".
#[derive(Drop)]
pub struct StateRow {
    pub line: u32,
    pub legal: Option<u32>,
    pub illegal: Option<u32>,
    pub expressions: List<Expression>,
}

/// The states of an object, each found by its name, and the line that says that there are no more. Without states they take
/// no memory of their own.
#[derive(Drop)]
pub struct PowerStates {
    rows: Option<Box<NamedRows<StateRow>>>,
    complete: Option<u32>,
}

/// A state as a line makes it.
fn new_row(alloc: Global, line: u32) -> StateRow
    ensures { result ≡ record { line = line; legal = None; illegal = None; expressions = [] } }
{
    StateRow {
        line,
        legal: None,
        illegal: None,
        expressions: List::new(alloc),
    }
}

impl PowerStates {
    /// No states.
    pub fn new() -> PowerStates
        ensures seen { (places : List (List ℕ)) → states_seen places result ≡ no_states }
        ensures sound { (places : List (List ℕ)) → AreStates places result }
    {
        PowerStates {
            rows: None,
            complete: None,
        }
    }

    /// How many states there are. No two of them have the same name.
    pub fn len(&self) -> u32
        ensures len { result ≡ length (rows_of self.now) }
        ensures differ { all_differ same_name (names_in (rows_of self.now)) ≡ true }
    {
        match &self.rows {
            Some(rows) => rows.len(),
            None => 0,
        }
    }

    /// The place of the state with a name, from 0, which is `None` where there is none.
    pub fn find(&self, name: &[u8]) -> Option<u32>
        ensures place { result ≡ place_of (same_name name.now) (names_in (rows_of self.now)) }
        ensures state { (places : List (List ℕ)) → option_and_then (slice_get (states_seen places self.now).states) result ≡ state_named (states_seen places self.now) name.now }
    {
        match &self.rows {
            Some(rows) => rows.find(name),
            None => None,
        }
    }

    /// The name of the state at a place, which is one of those that there are.
    pub fn name(&self, at: u32) -> &[u8]
        requires { at < length (rows_of self.now) }
        ensures { slice_get (names_in (rows_of self.now)) at ≡ Some result.now }
    {
        match &self.rows {
            Some(rows) => rows.name(at),
            None => unreachable!(),
        }
    }

    /// The state at a place, which is one of those that there are.
    pub fn state(&self, at: u32) -> &StateRow
        requires { at < length (rows_of self.now) }
        ensures { slice_get (rows_in (rows_of self.now)) at ≡ Some result.now }
    {
        match &self.rows {
            Some(rows) => rows.row(at),
            None => unreachable!(),
        }
    }

    /// The line that says that there are no more states.
    pub fn complete(&self) -> Option<u32>
        ensures { result ≡ self.now.complete }
    {
        self.complete
    }

    /// Gives the place of the state with a name, which a line makes where there is none. An error leaves the states as they
    /// were.
    pub fn add(&mut self, alloc: Global, name: &[u8], line: u32) -> Result<u32, Memory>
        ensures seen { IfOk result (λ _. (places : List (List ℕ)) (s : Statement) → s.line ≡ line → states_seen places self.new ≡ with_named s (states_seen places self.old) name.now) }
        ensures place { IfOk result (λ at. place_of (same_name name.now) (names_in (rows_of self.new)) ≡ Some at) }
        ensures sound { IfOk result (λ _. (places : List (List ℕ)) → AreStates places self.old → AreStates places self.new) }
        ensures err { OnErr result (HasSame self.old self.new) }
    {
        match self.find(name) {
            Some(at) => Ok(at),
            None => {
                let at = self.len();
                self.push(alloc, name, new_row(alloc, line))?;
                Ok(at)
            }
        }
    }

    /// Adds a state under a name that no other has.
    fn push(&mut self, alloc: Global, name: &[u8], row: StateRow) -> Result<(), Memory>
        requires { place_of (same_name name.now) (names_in (rows_of self.old)) ≡ None }
        ensures rows { OnOk result (rows_of self.new ≡ rows_of self.old ++ (name.now, row) ∷ []) }
        ensures complete { OnOk result (self.new.complete ≡ self.old.complete) }
        ensures err { OnErr result (HasSame self.old self.new) }
    {
        match &mut self.rows {
            Some(rows) => rows.add(name, row),
            None => {
                let mut rows = NamedRows::new(alloc);
                rows.add(name, row)?;
                self.rows = Some(Box::new(alloc, rows)?);
                Ok(())
            }
        }
    }

    /// Lets a line mark the state at a place legal; the first one counts.
    pub fn mark_legal(&mut self, at: u32, line: u32)
        requires { at < length (rows_of self.old) }
        ensures seen { (places : List (List ℕ)) (name : List ℕ) → slice_get (names_in (rows_of self.old)) at ≡ Some name → states_seen places self.new ≡ changed (marked_legal line) name (states_seen places self.old) }
        ensures sound { (places : List (List ℕ)) → AreStates places self.old → AreStates places self.new }
        ensures names { names_in (rows_of self.new) ≡ names_in (rows_of self.old) }
    {
        if let Some(rows) = &mut self.rows {
            let _differ = rows.len();
            let row = rows.row_mut(at);
            row.legal = row.legal.or(Some(line));
        }
    }

    /// Lets a line mark the state at a place illegal; the first one counts.
    pub fn mark_illegal(&mut self, at: u32, line: u32)
        requires { at < length (rows_of self.old) }
        ensures seen { (places : List (List ℕ)) (name : List ℕ) → slice_get (names_in (rows_of self.old)) at ≡ Some name → states_seen places self.new ≡ changed (marked_illegal line) name (states_seen places self.old) }
        ensures sound { (places : List (List ℕ)) → AreStates places self.old → AreStates places self.new }
        ensures names { names_in (rows_of self.new) ≡ names_in (rows_of self.old) }
    {
        if let Some(rows) = &mut self.rows {
            let _differ = rows.len();
            let row = rows.row_mut(at);
            row.illegal = row.illegal.or(Some(line));
        }
    }

    /// Adds an expression to the state at a place. An error leaves the states as they were.
    pub fn add_expression(&mut self, at: u32, expression: Expression) -> Result<(), Memory>
        requires { at < length (rows_of self.old) }
        ensures seen { OnOk result ((places : List (List ℕ)) (name : List ℕ) → slice_get (names_in (rows_of self.old)) at ≡ Some name → states_seen places self.new ≡ changed (with_expression (expression_seen places expression)) name (states_seen places self.old)) }
        ensures sound { (places : List (List ℕ)) → AreStates places self.old → IsExpression places expression → AreStates places self.new }
        ensures names { names_in (rows_of self.new) ≡ names_in (rows_of self.old) }
        ensures err { OnErr result (HasSame self.old self.new) }
    {
        if let Some(rows) = &mut self.rows {
            let _differ = rows.len();
            rows.row_mut(at).expressions.push(expression)?;
        }
        Ok(())
    }

    /// Lets a line say that there are no more states; the first one counts.
    pub fn close(&mut self, line: u32)
        ensures seen { (places : List (List ℕ)) (s : Statement) → s.line ≡ line → states_seen places self.new ≡ completed s (states_seen places self.old) }
        ensures sound { (places : List (List ℕ)) → AreStates places self.old → AreStates places self.new }
    {
        self.complete = self.complete.or(Some(line));
    }
}
