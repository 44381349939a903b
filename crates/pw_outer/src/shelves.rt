//! Where files come from: what every shelf promises.
ghost use Rattle.std.specs.Prelude.{◌≡◌, [], IfSome};

use std::alloc::{AllocError, AllocFailed};

/// The longest file that a shelf gives, in bytes.
pub const LONGEST_FILE: usize = 67_108_864;

/// Why a shelf gave no file.
#[derive(Clone, Copy, Debug, PartialEq, Eq)]
pub enum ShelfFault {
    /// There is no file of that name.
    Absent,
    /// The file is longer than `LONGEST_FILE`.
    TooLong,
    /// The outside failed.
    Failed,
    /// Memory ran out.
    Memory,
}

impl From<AllocError> for ShelfFault {
    ghost use Rattle.std.specs.Prelude.{◌≡◌};
    ghost use Rattle.pw_outer.specs.declared.shelves.ShelfFault.TheVariants.{Memory};

    ghost from_gives = { λ _ fault. fault ≡ Memory };

    fn from(_error: AllocError) -> ShelfFault {
        ShelfFault::Memory
    }
}

impl<T: Drop> From<AllocFailed<T>> for ShelfFault {
    ghost use Rattle.std.specs.Prelude.{◌≡◌};
    ghost use Rattle.pw_outer.specs.declared.shelves.ShelfFault.TheVariants.{Memory};

    ghost from_gives = { λ _ fault. fault ≡ Memory };

    fn from(_error: AllocFailed<T>) -> ShelfFault {
        ShelfFault::Memory
    }
}

/// A place that files come from.
///
/// A shelf may tell what it holds (`holds`). Its counts of failures, absent files and files that are too long never
/// fall, and show the causes of its answers.
pub trait Shelf {
    ghost use Rattle.std.specs.Prelude.{Option};
    ghost use Rattle.pw_outer.specs.Counts.{Counts, NoneFalls};
    ghost use Rattle.pw_outer.specs.Fetches.{Files, Fetched, HasFetchCause, LeavesBytes, file_named};

    ghost holds: { Self → Option Files };

    ghost counts: { Self → Counts };

    /// Appends the bytes of the file of this name to `into`, which is empty before.
    ///
    /// `into` is empty after `Absent`, has `LONGEST_FILE` bytes and one more after `TooLong`, and a front of the file
    /// after `Failed` and `Memory`.
    fn fetch(&mut self, name: &str, into: &mut Vec<u8>) -> Result<(), ShelfFault>
        requires { into.old.items ≡ [] }
        ensures same { holds self.new ≡ holds self.old }
        ensures counts { NoneFalls (counts self.old) (counts self.new) }
        ensures cause { HasFetchCause (counts self.old) (counts self.new) result }
        ensures left { LeavesBytes result into.new.items }
        ensures told { IfSome (holds self.old) (λ files. Fetched (file_named name.now files) result into.new.items) };
}
