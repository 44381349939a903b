//! Why sets aren't gathered.

use plain_lists::DiagFault;
use std::alloc::{AllocError, AllocFailed};

/// Why several sets aren't joined to one: the walk met too many different tuples of numbers, or the table is full
/// without a part of the result, or memory ran out.
#[derive(Clone, Copy, Debug, PartialEq, Eq)]
pub enum GatherFault {
    GivenUp,
    Table(DiagFault),
}

impl From<DiagFault> for GatherFault {
    ghost use Rattle.std.specs.Prelude.{◌≡◌};
    ghost use Rattle.state_meets.specs.declared.faults.GatherFault.TheVariants.{Table as OfTable};

    ghost from_gives = { λ fault e. e ≡ OfTable fault };

    fn from(fault: DiagFault) -> GatherFault {
        GatherFault::Table(fault)
    }
}

impl From<AllocError> for GatherFault {
    ghost use Rattle.std.specs.Prelude.{◌≡◌};
    ghost use Rattle.plain_lists.specs.declared.faults.DiagFault.TheVariants.{Memory as OutOfMemory};
    ghost use Rattle.state_meets.specs.declared.faults.GatherFault.TheVariants.{Table as OfTable};

    ghost from_gives = { λ _ e. e ≡ OfTable OutOfMemory };

    fn from(_error: AllocError) -> GatherFault {
        GatherFault::Table(DiagFault::Memory)
    }
}

impl<T: Drop> From<AllocFailed<T>> for GatherFault {
    ghost use Rattle.std.specs.Prelude.{◌≡◌};
    ghost use Rattle.plain_lists.specs.declared.faults.DiagFault.TheVariants.{Memory as OutOfMemory};
    ghost use Rattle.state_meets.specs.declared.faults.GatherFault.TheVariants.{Table as OfTable};

    ghost from_gives = { λ _ e. e ≡ OfTable OutOfMemory };

    fn from(_error: AllocFailed<T>) -> GatherFault {
        GatherFault::Table(DiagFault::Memory)
    }
}
