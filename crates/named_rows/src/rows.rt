//! Rows beside the index of their names.
ghost use Rattle.std.specs.Prelude.{◌≡◌, ◌<◌, ◌∷◌, ◌++◌, [], true, Some, None, length, map, slice_get, OnOk, OnErr};
ghost use Rattle.std.specs.Borrow.{Lends, sem};
ghost use Rattle.list_defs.specs.Members.{all_differ, place_of, same_name};
ghost use Rattle.named_rows.specs.Rows.{names_in, rows_in, with_row};

use name_index::NameIndex;
use plain_lists::Memory;
use std::alloc::Global;
use std::marker::Model;

/// At most 4,294,967,295 rows, each under a name that no other has.
#[derive(Drop)]
pub struct NamedRows<T> {
    names: NameIndex,
    rows: Vec<T>,
}

impl<T> Model for NamedRows<T> {
    ghost use Rattle.std.specs.Prelude.{◌≡◌, ℕ, List, length};
    ghost use Rattle.std.specs.List.{zip};
    ghost use Rattle.std.specs.Coded.{coded×, coded_list, coded_ℕ};

    ghost Value = { List (List ℕ × T) };

    ghost coded = { coded_list (coded× (coded_list coded_ℕ) T.code) };

    ghost view = { λ r. zip r.names r.rows.items };

    ghost invariant = { λ r. length r.rows.items ≡ length r.names };
}

impl<T> NamedRows<T> {
    ghost use Rattle.named_rows.specs.contracts.rows.NamedRows.{the_row};

    /// No rows.
    pub fn new(alloc: Global) -> NamedRows<T>
        ensures { result ≡ [] }
    {
        NamedRows {
            names: NameIndex::new(alloc),
            rows: Vec::new(alloc),
        }
    }

    /// How many rows there are. No two of them have the same name.
    pub fn len(&self) -> u32
        ensures len { result ≡ length self.now }
        ensures differ { all_differ same_name (names_in self.now) ≡ true }
    {
        self.names.len()
    }

    /// The place of the row with a name, from 0, which is `None` where there is none.
    pub fn find(&self, name: &[u8]) -> Option<u32>
        ensures { result ≡ place_of (same_name name.now) (names_in self.now) }
    {
        self.names.find(name)
    }

    /// The name of the row at a place, which is one of those that there are.
    pub fn name(&self, at: u32) -> &[u8]
        requires { at < length self.now }
        ensures { slice_get (names_in self.now) at ≡ Some result.now }
    {
        self.names.name(at)
    }

    /// The row at a place, which is one of those that there are.
    pub fn row(&self, at: u32) -> &T
        requires { at < length self.now }
        ensures { slice_get (rows_in self.now) at ≡ Some result.now }
    {
        &self.rows[at as usize]
    }

    /// The row at a place, to be changed. Its name stays.
    pub fn row_mut(&mut self, at: u32) -> &mut T
        requires { at < length self.old }
        ensures* writes_back { sem 𝓛 (Lends (the_row T.row) T.row self.entry result (with_row self.old at)) }
        ensures row { slice_get (rows_in self.old) at ≡ Some result.now }
    {
        &mut self.rows[at as usize]
    }
}

impl<T: Drop> NamedRows<T> {
    /// Adds a row at the end under a name that no other has. An error leaves the rows as they were.
    pub fn add(&mut self, name: &[u8], row: T) -> Result<(), Memory>
        requires { place_of (same_name name.now) (names_in self.old) ≡ None }
        ensures ok { OnOk result (self.new ≡ self.old ++ (name.now, row) ∷ []) }
        ensures err { OnErr result (self.new ≡ self.old) }
    {
        self.rows.reserve(1)?;
        self.names.number(name)?;
        self.rows.push_reserved(row);
        Ok(())
    }
}
