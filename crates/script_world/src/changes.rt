//! Changes of what objects are.
ghost use Rattle.std.specs.Prelude.{◌≡◌, ◌<◌, ℕ, List, true, None, Some, length, map, IfOk, OnErr, OnOk};
ghost use Rattle.list_defs.specs.Members.{place_of, same_name};
ghost use Rattle.named_rows.specs.Rows.{names_in};
ghost use Rattle.script_defs.specs.LookUps.{is_domain, is_table};
ghost use Rattle.script_defs.specs.PowerStateSteps.{states_of, with_states, with_states_at};
ghost use Rattle.script_defs.specs.StateSteps.{rows_in};
ghost use Rattle.script_defs.specs.SupplySteps.{after_handle, with_body, with_handle};
ghost use Rattle.script_world.specs.Changes.{body_at, has_states, table_rows, with_table_row};
ghost use Rattle.script_world.specs.Handles.{handle_name_seen};
ghost use Rattle.script_world.specs.Objects.{known_in, named_at, world_of};
ghost use Rattle.script_world.specs.Ranges.{AreStates, IsBody, IsHandle};
ghost use Rattle.script_world.specs.Seen.{Known, body_seen, handle_seen, name_at, states_seen};

use crate::bodies::Body;
use crate::handles::HandleName;
use crate::objects::Objects;
use crate::parts::Handle;
use crate::states::PowerStates;
use pw_defs::{List, Memory, Value};
use std::mem;

/// Gives a domain the set of a handle.
fn put_handle(body: &mut Body, handle: HandleName, set: Handle)
    ensures seen { (k : Known) → is_domain (Some (body_seen k body.old)) ≡ true → with_handle (handle_name_seen handle) (handle_seen k.objects set) (Some (body_seen k body.old)) ≡ Some (body_seen k body.new) }
    ensures sound { (k : Known) → IsBody k body.old → IsHandle k.objects set → IsBody k body.new }
{
    match body {
        Body::Domain(domain) => match handle {
            HandleName::Primary => domain.primary = Some(set),
            HandleName::DefaultIsolation => domain.isolation = Some(set),
        },
        _ => {}
    }
}

/// Puts other states in the place of those of a body, and gives those that were there.
fn swap_states(body: &mut Body, states: &mut PowerStates)
    ensures seen { (k : Known) → has_states (Some (body_seen k body.old)) ≡ true → with_states (states_seen k.places states.old) (Some (body_seen k body.old)) ≡ Some (body_seen k body.new) }
    ensures states { (k : Known) → has_states (Some (body_seen k body.old)) ≡ true → states_seen k.places states.new ≡ states_of (Some (body_seen k body.old)) }
    ensures sound { (k : Known) → IsBody k body.old → AreStates k.places states.old → IsBody k body.new }
    ensures sound_states { (k : Known) → IsBody k body.old → AreStates k.places states.old → AreStates k.places states.new }
{
    match body {
        Body::Set(set) => mem::swap(&mut set.states, states),
        Body::Domain(domain) => mem::swap(&mut domain.states, states),
        Body::Group(group) => mem::swap(&mut **group, states),
        _ => {}
    }
}

/// Adds a row to a table, under a name that no other row has.
fn add_row(body: &mut Body, name: &[u8], cells: List<Option<Value>>) -> Result<(), Memory>
    requires { place_of (same_name name.now) (names_in (table_rows body.old)) ≡ None }
    ensures ok { OnOk result ((k : Known) → is_table (Some (body_seen k body.old)) ≡ true → body_seen k body.new ≡ with_table_row (name.now, cells) (Some (body_seen k body.old))) }
    ensures err { OnErr result ((k : Known) → body_seen k body.new ≡ body_seen k body.old) }
    ensures sound { (k : Known) → IsBody k body.old → IsBody k body.new }
{
    match body {
        Body::Table(table) => table.rows.add(name, cells),
        _ => Ok(()),
    }
}

impl Objects {
    /// Gives the domain of a number the set of a handle.
    pub fn set_handle(&mut self, at: u32, handle: HandleName, set: Handle)
        requires at { at < length self.old.objects }
        requires domain { is_domain (body_at self.old.objects at) ≡ true }
        requires set { IsHandle (known_in self.old).objects set }
        ensures objects { (name : List ℕ) → named_at self.old.objects at ≡ Some name → world_of self.new.objects ≡ after_handle (world_of self.old.objects) (name, handle_name_seen handle) (name_at (known_in self.old).objects set.set) set.line }
        ensures after { body_at self.new.objects at ≡ with_handle (handle_name_seen handle) (handle_seen (known_in self.old).objects set) (body_at self.old.objects at) }
        ensures known { known_in self.new ≡ known_in self.old }
    {
        let _differ = self.rows.len();
        put_handle(&mut self.rows.row_mut(at).body, handle, set);
    }

    /// Puts other states in the place of those of an object, and gives those that were there.
    pub fn swap_states(&mut self, at: u32, states: &mut PowerStates)
        requires at { at < length self.old.objects }
        requires stateful { has_states (body_at self.old.objects at) ≡ true }
        requires states { AreStates self.old.places states.old }
        ensures objects { (name : List ℕ) → named_at self.old.objects at ≡ Some name → world_of self.new.objects ≡ with_states_at (world_of self.old.objects) name (states_seen self.old.places states.old) }
        ensures after { body_at self.new.objects at ≡ with_states (states_seen self.old.places states.old) (body_at self.old.objects at) }
        ensures stateful { has_states (body_at self.new.objects at) ≡ true }
        ensures known { known_in self.new ≡ known_in self.old }
        ensures states { states_seen self.old.places states.new ≡ states_of (body_at self.old.objects at) }
        ensures sound { AreStates self.old.places states.new }
    {
        let _differ = self.rows.len();
        swap_states(&mut self.rows.row_mut(at).body, states);
    }

    /// Adds a row to the table of a number, under a name that no other row has.
    pub fn add_row(
        &mut self,
        at: u32,
        name: &[u8],
        cells: List<Option<Value>>,
    ) -> Result<(), Memory>
        requires at { at < length self.old.objects }
        requires table { is_table (body_at self.old.objects at) ≡ true }
        requires free { place_of (same_name name.now) (map (λ r. r.name) (rows_in (body_at self.old.objects at))) ≡ None }
        ensures ok { IfOk result (λ _. (whole : List ℕ) → named_at self.old.objects at ≡ Some whole → world_of self.new.objects ≡ with_body (world_of self.old.objects) whole (with_table_row (name.now, cells) (body_at self.old.objects at))) }
        ensures err { OnErr result (self.new ≡ self.old) }
        ensures known { known_in self.new ≡ known_in self.old }
    {
        let _differ = self.rows.len();
        add_row(&mut self.rows.row_mut(at).body, name, cells)?;
        Ok(())
    }
}
