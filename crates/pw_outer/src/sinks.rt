//! Where output goes: what every sink promises.
ghost use Rattle.std.specs.Prelude.{◌≡◌, ◌≤◌};

use std::alloc::{AllocError, AllocFailed};

/// Why a sink did not take all bytes.
#[derive(Clone, Copy, Debug, PartialEq, Eq)]
pub enum PutFault {
    /// The outside failed.
    Failed,
    /// Memory ran out.
    Memory,
}

impl From<AllocError> for PutFault {
    ghost use Rattle.std.specs.Prelude.{◌≡◌};
    ghost use Rattle.pw_outer.specs.declared.sinks.PutFault.TheVariants.{Memory};

    ghost from_gives = { λ _ fault. fault ≡ Memory };

    fn from(_error: AllocError) -> PutFault {
        PutFault::Memory
    }
}

impl<T: Drop> From<AllocFailed<T>> for PutFault {
    ghost use Rattle.std.specs.Prelude.{◌≡◌};
    ghost use Rattle.pw_outer.specs.declared.sinks.PutFault.TheVariants.{Memory};

    ghost from_gives = { λ _ fault. fault ≡ Memory };

    fn from(_error: AllocFailed<T>) -> PutFault {
        PutFault::Memory
    }
}

/// A place that output goes to.
///
/// A sink may tell what it took (`taken`). Its count of failures never falls.
pub trait Sink {
    ghost use Rattle.std.specs.Prelude.{ℕ, List, Option};
    ghost use Rattle.pw_outer.specs.Puts.{Took, HasPutCause};

    ghost taken: { Self → Option (List ℕ) };

    ghost faults: { Self → ℕ };

    /// Takes all bytes. After an error it has taken a front of them.
    fn put(&mut self, bytes: &[u8]) -> Result<(), PutFault>
        ensures took { Took (taken self.old) (taken self.new) bytes.now result }
        ensures count { faults self.old ≤ faults self.new }
        ensures cause { HasPutCause (faults self.old) (faults self.new) result };
}
