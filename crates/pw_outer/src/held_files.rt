//! Shelves whose files are kept in memory.
ghost use Rattle.std.specs.Prelude.{◌≡◌, ◌≢◌, ◌∷◌, [], Bool, true, Some, Err, map, MatchBool, length};
ghost use Rattle.std.specs.Option.{option_copied};
ghost use Rattle.list_defs.specs.Members.{all_differ, same_name};
ghost use Rattle.pw_outer.specs.Counts.{raised};
ghost use Rattle.pw_outer.specs.Fetches.{Fetched, LeavesBytes, counts_after, file_named};
ghost use Rattle.pw_outer.specs.Kinds.{is_listed, counts_of, counts_of_failing};

use crate::shelves::{LONGEST_FILE, Shelf, ShelfFault};
use plain_lists::{Bytes, List, Name};
use std::alloc::Global;
use std::marker::Model;

/// A shelf of files in memory that never fails.
///
/// Its files are few: a fetch looks through them in their order.
#[derive(Drop)]
pub struct SureShelf {
    files: List<(Name, Bytes)>,
    misses: u64,
    overs: u64,
}

impl Model for SureShelf {
    ghost use Rattle.pw_outer.specs.Kinds.{HeldFiles};

    ghost Value = { HeldFiles };

    ghost view = { λ shelf. record { files = shelf.files; misses = shelf.misses; overs = shelf.overs } };
}

impl SureShelf {
    /// A shelf of these files, of which no two have the same name.
    pub fn new(_alloc: Global, files: List<(Name, Bytes)>) -> SureShelf
        requires { all_differ same_name (map (λ file. file.0) files) ≡ true }
        ensures { result ≡ record { files = files; misses = 0; overs = 0 } }
    {
        SureShelf {
            files,
            misses: 0,
            overs: 0,
        }
    }
}

impl Shelf for SureShelf {
    ghost use Rattle.std.specs.Prelude.{Some};
    ghost use Rattle.pw_outer.specs.Kinds.{counts_of};

    ghost holds = { λ shelf. Some shelf.files };

    ghost counts = { counts_of };

    fn fetch(&mut self, name: &str, into: &mut Vec<u8>) -> Result<(), ShelfFault>
        requires { into.old.items ≡ [] }
        ensures same { self.new.files ≡ self.old.files }
        ensures counts { counts_of self.new ≡ counts_after (counts_of self.old) result }
        ensures left { LeavesBytes result into.new.items }
        ensures told { Fetched (file_named name.now self.old.files) result into.new.items }
    {
        match find_file(self.files.as_slice(), name.as_bytes()) {
            None => {
                self.misses = self.misses.saturating_add(1);
                Err(ShelfFault::Absent)
            }
            Some(bytes) if bytes.len() > LONGEST_FILE => {
                into.extend_from_slice(&bytes[..LONGEST_FILE + 1])?;
                self.overs = self.overs.saturating_add(1);
                Err(ShelfFault::TooLong)
            }
            Some(bytes) => {
                into.extend_from_slice(bytes)?;
                Ok(())
            }
        }
    }
}

/// The bytes of the first file of this name.
fn find_file<'a>(files: &'a [(Name, Bytes)], name: &[u8]) -> Option<&'a [u8]>
    ensures { option_copied result ≡ file_named name.now files.now }
{
    for (known, bytes) in files {
        if name == known.as_slice() {
            return Some(bytes.as_slice());
        }
    }
    None
}

/// A shelf of files in memory that fails at chosen calls.
#[derive(Drop)]
pub struct MemShelf {
    shelf: SureShelf,
    failing: List<u32>,
    calls: u64,
    faults: u64,
}

impl Model for MemShelf {
    ghost use Rattle.pw_outer.specs.Kinds.{FailingFiles};

    ghost Value = { FailingFiles };

    ghost view = { λ shelf. record { held = shelf.shelf; failing = shelf.failing; calls = shelf.calls; faults = shelf.faults } };
}

impl MemShelf {
    /// A shelf of these files, of which no two have the same name, that fails at the calls whose numbers, from 0, are listed.
    pub fn new(alloc: Global, files: List<(Name, Bytes)>, failing: List<u32>) -> MemShelf
        requires { all_differ same_name (map (λ file. file.0) files) ≡ true }
        ensures { result ≡ record { held = record { files = files; misses = 0; overs = 0 }; failing = failing; calls = 0; faults = 0 } }
    {
        MemShelf {
            shelf: SureShelf::new(alloc, files),
            failing,
            calls: 0,
            faults: 0,
        }
    }
}

impl Shelf for MemShelf {
    ghost use Rattle.std.specs.Prelude.{Some};
    ghost use Rattle.pw_outer.specs.Kinds.{counts_of_failing};

    ghost holds = { λ shelf. Some shelf.held.files };

    ghost counts = { counts_of_failing };

    fn fetch(&mut self, name: &str, into: &mut Vec<u8>) -> Result<(), ShelfFault>
        requires { into.old.items ≡ [] }
        ensures same { self.new.held.files ≡ self.old.held.files }
        ensures counts { counts_of_failing self.new ≡ counts_after (counts_of_failing self.old) result }
        ensures calls { self.new.calls ≡ raised self.old.calls }
        ensures failing { self.new.failing ≡ self.old.failing }
        ensures fails { MatchBool (is_listed self.old.failing self.old.calls) (result ≡ Err ShelfFault.Failed) (result ≢ Err ShelfFault.Failed) }
        ensures left { LeavesBytes result into.new.items }
        ensures told { Fetched (file_named name.now self.old.held.files) result into.new.items }
    {
        let call = self.calls;
        self.calls = call.saturating_add(1);
        if has_call(self.failing.as_slice(), call) {
            self.faults = self.faults.saturating_add(1);
            return Err(ShelfFault::Failed);
        }
        self.shelf.fetch(name, into)
    }
}

/// Whether a call's number is listed.
fn has_call(failing: &[u32], call: u64) -> bool
    ensures { result ≡ is_listed failing.now call }
{
    failing.iter().any(|at| u64::from(*at) == call)
}
