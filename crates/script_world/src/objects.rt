//! The objects of a world, each found by its whole name.
ghost use Rattle.std.specs.Prelude.{◌≡◌, ◌<◌, ◌++◌, ◌∷◌, [], ℕ, List, true, false, None, Some, length, map, option_and_then, option_map, slice_get, IfOk, IfSome, OnErr};
ghost use Rattle.list_defs.specs.Members.{all_differ, place_of, same_name};
ghost use Rattle.script_defs.specs.LookUps.{is_taken, object_at, whole_name};
ghost use Rattle.script_defs.specs.SupplySteps.{with_body};
ghost use Rattle.script_world.specs.Changes.{body_at};
ghost use Rattle.script_world.specs.Objects.{Extends, IsNamed, is_named, known_in, made_object, named_at, simple_name, world_of};
ghost use Rattle.script_world.specs.Ranges.{IsBody, IsOrigin};
ghost use Rattle.script_world.specs.Seen.{body_seen, name_at, origin_seen};

use crate::bodies::{Body, ObjectRow};
use crate::parts::Origin;
use name_index::NameIndex;
use named_rows::NamedRows;
use pw_defs::Memory;
use std::alloc::Global;
use std::marker::Model;
use std::mem;

/// Places by number, each name once, and at most 4,294,967,295 objects in the order of making. No two objects have the same
/// whole name. An error leaves all as it was.
#[derive(Drop)]
pub struct Objects {
    pub(crate) places: NameIndex,
    pub(crate) rows: NamedRows<ObjectRow>,
}

impl Model for Objects {
    ghost use Rattle.script_world.specs.Objects.{Places, objects_seen, AreRows};
    ghost use Rattle.std.specs.Coded.{codes};
    ghost use Rattle.pw_defs.specs.contracts.terms.Term as term;

    ghost Value = { Places };

    ghost coded = { Prim.hlevel (codes, term.the_row.coded) };

    ghost view = { λ o. objects_seen o.places o.rows };

    ghost invariant = { λ o. AreRows o.places o.rows };
}

/// What stands behind the path of a scope in a whole name.
fn behind<'a>(scope: &[u8], whole: &'a [u8]) -> &'a [u8]
    requires { IsNamed scope.now whole.now }
    ensures { result.now ≡ simple_name scope.now whole.now }
{
    match scope {
        [] => whole,
        _ => &whole[scope.len() + 1..],
    }
}

/// The number of a name, which is added where it isn't there yet.
fn number(names: &mut NameIndex, name: &[u8]) -> Result<u32, Memory>
    ensures number { IfOk result (λ n. slice_get names.new n ≡ Some name.now) }
    ensures more { Extends names.old names.new }
{
    let number = names.number(name)?;
    Ok(number)
}

impl Objects {
    /// No places and no objects.
    pub fn new(alloc: Global) -> Objects
        ensures { result ≡ record { places = []; objects = [] } }
    {
        Objects {
            places: NameIndex::new(alloc),
            rows: NamedRows::new(alloc),
        }
    }

    /// The names of the places by number.
    pub fn places(&self) -> &NameIndex
        ensures { result.now ≡ self.now.places }
    {
        &self.places
    }

    /// The number of the place with a name, which is added where it isn't there yet.
    pub fn place(&mut self, name: &[u8]) -> Result<u32, Memory>
        ensures place { IfOk result (λ n. slice_get self.new.places n ≡ Some name.now) }
        ensures more { Extends self.old.places self.new.places }
        ensures objects { self.new.objects ≡ self.old.objects }
    {
        number(&mut self.places, name)
    }

    /// How many objects there are. No two of them have the same whole name.
    pub fn len(&self) -> u32
        ensures len { result ≡ length self.now.objects }
        ensures differ { all_differ same_name (map whole_name self.now.objects) ≡ true }
    {
        self.rows.len()
    }

    /// The number of the object with a whole name, from 0, which is `None` where there is none.
    pub fn find(&self, name: &[u8]) -> Option<u32>
        ensures place { result ≡ place_of (is_named name.now) self.now.objects }
        ensures object { option_and_then (slice_get self.now.objects) result ≡ object_at (world_of self.now.objects) name.now }
        ensures within { IfSome result (λ at. at < length self.now.objects) }
        ensures named { IfSome result (λ at. named_at self.now.objects at ≡ Some name.now) }
    {
        self.rows.find(name)
    }

    /// Whether an object has a whole name.
    pub fn is_taken(&self, name: &[u8]) -> bool
        ensures { result ≡ is_taken (world_of self.now.objects) name.now }
    {
        self.find(name).is_some()
    }

    /// The whole name of an object by its number, which is one of those that there are.
    pub fn whole_name(&self, at: u32) -> &[u8]
        requires { at < length self.now.objects }
        ensures { named_at self.now.objects at ≡ Some result.now }
    {
        self.rows.name(at)
    }

    /// The simple name of an object, which is what stands behind the path of its scope.
    pub fn name(&self, at: u32) -> &[u8]
        requires { at < length self.now.objects }
        ensures { option_map (λ o. o.name) (slice_get self.now.objects at) ≡ Some result.now }
    {
        let whole = self.rows.name(at);
        let scope = self.places.name(self.rows.row(at).scope);
        behind(scope, whole)
    }

    /// The place of the scope where an object was made.
    pub fn scope(&self, at: u32) -> u32
        requires { at < length self.now.objects }
        ensures { option_map (λ o. o.scope) (slice_get self.now.objects at) ≡ slice_get self.now.places result }
    {
        self.rows.row(at).scope
    }

    /// The line that made an object.
    pub fn origin(&self, at: u32) -> Origin
        requires { at < length self.now.objects }
        ensures origin { option_map (λ o. o.origin) (slice_get self.now.objects at) ≡ Some (origin_seen self.now.places result) }
        ensures sound { IsOrigin self.now.places result }
    {
        self.rows.row(at).origin
    }

    /// What an object is.
    pub fn body(&self, at: u32) -> &Body
        requires { at < length self.now.objects }
        ensures body { body_at self.now.objects at ≡ Some (body_seen (known_in self.now) result.now) }
        ensures sound { IsBody (known_in self.now) result.now }
    {
        &self.rows.row(at).body
    }

    /// Adds an object under a whole name that no other has, which is a name with the path of its scope in front, and gives
    /// its number.
    pub fn add(
        &mut self,
        scope: u32,
        whole: &[u8],
        origin: Origin,
        body: Body,
    ) -> Result<u32, Memory>
        requires free { is_taken (world_of self.old.objects) whole.now ≡ false }
        requires scope { scope < length self.old.places }
        requires named { IsNamed (name_at self.old.places scope) whole.now }
        requires origin { IsOrigin self.old.places origin }
        requires body { IsBody (known_in self.old) body }
        ensures number { IfOk result (λ at. at ≡ length self.old.objects) }
        ensures objects { IfOk result (λ _. self.new.objects ≡ self.old.objects ++ made_object self.old scope whole.now origin body ∷ []) }
        ensures places { self.new.places ≡ self.old.places }
        ensures err { OnErr result (self.new ≡ self.old) }
    {
        let at = self.rows.len();
        self.rows.add(
            whole,
            ObjectRow {
                scope,
                origin,
                body,
            },
        )?;
        Ok(at)
    }

    /// Puts another body in the place of an object's, and gives the one that was there.
    pub fn swap_body(&mut self, at: u32, body: &mut Body)
        requires at { at < length self.old.objects }
        requires body { IsBody (known_in self.old) body.old }
        ensures body { body_at self.old.objects at ≡ Some (body_seen (known_in self.old) body.new) }
        ensures sound { IsBody (known_in self.old) body.new }
        ensures objects { (name : List ℕ) → named_at self.old.objects at ≡ Some name → world_of self.new.objects ≡ with_body (world_of self.old.objects) name (body_seen (known_in self.old) body.old) }
        ensures after { body_at self.new.objects at ≡ Some (body_seen (known_in self.old) body.old) }
        ensures known { known_in self.new ≡ known_in self.old }
    {
        let _differ = self.rows.len();
        mem::swap(&mut self.rows.row_mut(at).body, body);
    }
}
