//! Want of memory as these faults say it, so that `?` passes it on.

use crate::faults::{DiagFault, Memory};
use std::alloc::{AllocError, AllocFailed};

impl From<AllocError> for Memory {
    fn from(_error: AllocError) -> Memory {
        Memory
    }
}

impl<T: Drop> From<AllocFailed<T>> for Memory {
    fn from(_error: AllocFailed<T>) -> Memory {
        Memory
    }
}

impl From<AllocError> for DiagFault {
    ghost use Rattle.std.specs.Prelude.{◌≡◌};
    ghost use Rattle.plain_lists.specs.declared.faults.DiagFault.TheVariants.{Memory as OutOfMemory};

    ghost from_gives = { λ _ e. e ≡ OutOfMemory };

    fn from(_error: AllocError) -> DiagFault {
        DiagFault::Memory
    }
}

impl<T: Drop> From<AllocFailed<T>> for DiagFault {
    ghost use Rattle.std.specs.Prelude.{◌≡◌};
    ghost use Rattle.plain_lists.specs.declared.faults.DiagFault.TheVariants.{Memory as OutOfMemory};

    ghost from_gives = { λ _ e. e ≡ OutOfMemory };

    fn from(_error: AllocFailed<T>) -> DiagFault {
        DiagFault::Memory
    }
}

impl From<Memory> for DiagFault {
    ghost use Rattle.std.specs.Prelude.{◌≡◌};
    ghost use Rattle.plain_lists.specs.declared.faults.DiagFault.TheVariants.{Memory as OutOfMemory};

    ghost from_gives = { λ _ e. e ≡ OutOfMemory };

    fn from(_error: Memory) -> DiagFault {
        DiagFault::Memory
    }
}
