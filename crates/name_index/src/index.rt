//! Names in the order in which they were added, with the table that finds them.
ghost use Rattle.std.specs.Prelude.{◌≡◌, ◌<◌, ◌≤◌, [], ◌∷◌, ◌++◌, true, false, not, map, length, IfOk, OnErr, MatchResult, MatchOption, MatchBool, Some, slice_get};
ghost use Rattle.std.specs.List.{list_any};
ghost use Rattle.list_defs.specs.Members.{all_differ, place_of, same_name};

use crate::table::{self, Table};
use name_rows::Names;
use std::alloc::{AllocError, Global};
use std::marker::Model;

/// At most 4,294,967,295 names, no two of them the same, in the order in which they were added.
#[derive(Drop)]
pub struct NameIndex {
    names: Names,
    table: Table,
    alloc: Global,
}

impl Model for NameIndex {
    ghost use Rattle.std.specs.Prelude.{ℕ, List};
    ghost use Rattle.name_index.specs.Tables.{IsIndex};

    ghost Value = { List (List ℕ) };

    ghost view = { λ index. index.names };

    ghost invariant = { λ index. IsIndex index.names index.table };
}

impl NameIndex {
    pub fn new(alloc: Global) -> NameIndex
        ensures { result ≡ [] }
    {
        NameIndex {
            names: Names::new(alloc),
            table: table::empty(alloc),
            alloc,
        }
    }

    /// An index of the names in their order, which is `None` exactly where two of them are the same.
    pub fn from_names(alloc: Global, names: &[&[u8]]) -> Result<Option<NameIndex>, AllocError>
        ensures { IfOk result (λ index. MatchOption index
            (all_differ same_name (map (λ name. name.now) names.now) ≡ false)
            (λ index. (index ≡ map (λ name. name.now) names.now) × (all_differ same_name index ≡ true))) }
    {
        let mut index = NameIndex::new(alloc);
        for name in names {
            if !index.add(*name)? {
                return Ok(None);
            }
        }
        Ok(Some(index))
    }

    /// How many names there are. No two of them are the same.
    pub fn len(&self) -> u32
        ensures len { result ≡ length self.now }
        ensures differ { all_differ same_name self.now ≡ true }
    {
        self.names.len()
    }

    /// The place of a name, from 0, which is `None` where it has not been added.
    pub fn find(&self, name: &[u8]) -> Option<u32>
        ensures { result ≡ place_of (same_name name.now) self.now }
    {
        table::look_up(&self.table, &self.names, name, table::hash(name))
    }

    /// The name at a place, which is one of those that there are.
    pub fn name(&self, at: u32) -> &[u8]
        requires { at < length self.now }
        ensures { slice_get self.now at ≡ Some result.now }
    {
        self.names.name(at)
    }

    /// Adds a name at the end. The answer is `false` where it is there already, and it then stays at its place.
    ///
    /// An error, which comes at a new name alone, leaves the names as they were.
    pub fn add(&mut self, name: &[u8]) -> Result<bool, AllocError>
        ensures new { IfOk result (λ new. new ≡ not (list_any (same_name name.now) self.old)) }
        ensures names { MatchResult result (λ new. MatchBool new (self.new ≡ self.old ++ name.now ∷ []) (self.new ≡ self.old)) (λ _. self.new ≡ self.old) }
    {
        let hash = table::hash(name);
        if table::look_up(&self.table, &self.names, name, hash).is_some() {
            return Ok(false);
        }
        table::put_in(self.alloc, &mut self.table, &mut self.names, name, hash)?;
        Ok(true)
    }

    /// The place of a name, which is added at the end where it isn't there yet.
    ///
    /// An error leaves the names as they were.
    pub fn number(&mut self, name: &[u8]) -> Result<u32, AllocError>
        ensures number { IfOk result (λ number. place_of (same_name name.now) self.new ≡ Some number) }
        ensures names { MatchOption (place_of (same_name name.now) self.old) (MatchResult result (λ _. self.new ≡ self.old ++ name.now ∷ []) (λ _. self.new ≡ self.old)) (λ _. self.new ≡ self.old) }
    {
        let hash = table::hash(name);
        match table::look_up(&self.table, &self.names, name, hash) {
            Some(number) => return Ok(number),
            None => {}
        }
        let number = self.names.len();
        table::put_in(self.alloc, &mut self.table, &mut self.names, name, hash)?;
        Ok(number)
    }

    /// The names alone, in their order.
    pub fn into_names(self) -> Names
        ensures { result ≡ self }
    {
        let NameIndex { names, .. } = self;
        names
    }
}
