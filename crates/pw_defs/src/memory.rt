//! Want of memory as each fault says it, so that `?` passes it on.
//!
//! A private helper answers `Memory`, and each fault is made from that alone. The two faults whose callers work on
//! vectors directly are made from the errors of the allocator too.

use crate::faults::{
    CheckFault, CmdFault, DesignFault, DomainFault, LibFault, ListFault, LoadFault, MergeFault,
    ModelFault, NetFault, SupplyFault, TclFault, TermFault,
};
use plain_lists::Memory;
use std::alloc::{AllocError, AllocFailed};

impl From<AllocError> for ListFault {
    ghost use Rattle.std.specs.Prelude.{◌≡◌};
    ghost use Rattle.pw_defs.specs.declared.faults.ListFault.TheVariants.{Memory as OutOfMemory};

    ghost from_gives = { λ _ e. e ≡ OutOfMemory };

    fn from(_error: AllocError) -> ListFault {
        ListFault::Memory
    }
}

impl<T: Drop> From<AllocFailed<T>> for ListFault {
    ghost use Rattle.std.specs.Prelude.{◌≡◌};
    ghost use Rattle.pw_defs.specs.declared.faults.ListFault.TheVariants.{Memory as OutOfMemory};

    ghost from_gives = { λ _ e. e ≡ OutOfMemory };

    fn from(_error: AllocFailed<T>) -> ListFault {
        ListFault::Memory
    }
}

impl From<Memory> for ListFault {
    ghost use Rattle.std.specs.Prelude.{◌≡◌};
    ghost use Rattle.pw_defs.specs.declared.faults.ListFault.TheVariants.{Memory as OutOfMemory};

    ghost from_gives = { λ _ e. e ≡ OutOfMemory };

    fn from(_error: Memory) -> ListFault {
        ListFault::Memory
    }
}

impl From<AllocError> for CheckFault {
    ghost use Rattle.std.specs.Prelude.{◌≡◌};
    ghost use Rattle.pw_defs.specs.declared.faults.CheckFault.TheVariants.{Memory as OutOfMemory};

    ghost from_gives = { λ _ e. e ≡ OutOfMemory };

    fn from(_error: AllocError) -> CheckFault {
        CheckFault::Memory
    }
}

impl<T: Drop> From<AllocFailed<T>> for CheckFault {
    ghost use Rattle.std.specs.Prelude.{◌≡◌};
    ghost use Rattle.pw_defs.specs.declared.faults.CheckFault.TheVariants.{Memory as OutOfMemory};

    ghost from_gives = { λ _ e. e ≡ OutOfMemory };

    fn from(_error: AllocFailed<T>) -> CheckFault {
        CheckFault::Memory
    }
}

impl From<Memory> for CheckFault {
    ghost use Rattle.std.specs.Prelude.{◌≡◌};
    ghost use Rattle.pw_defs.specs.declared.faults.CheckFault.TheVariants.{Memory as OutOfMemory};

    ghost from_gives = { λ _ e. e ≡ OutOfMemory };

    fn from(_error: Memory) -> CheckFault {
        CheckFault::Memory
    }
}

impl From<Memory> for LibFault {
    ghost use Rattle.std.specs.Prelude.{◌≡◌};
    ghost use Rattle.pw_defs.specs.declared.faults.LibFault.TheVariants.{Memory as OutOfMemory};

    ghost from_gives = { λ _ e. e ≡ OutOfMemory };

    fn from(_error: Memory) -> LibFault {
        LibFault::Memory
    }
}

impl From<Memory> for NetFault {
    ghost use Rattle.std.specs.Prelude.{◌≡◌};
    ghost use Rattle.pw_defs.specs.declared.faults.NetFault.TheVariants.{Memory as OutOfMemory};

    ghost from_gives = { λ _ e. e ≡ OutOfMemory };

    fn from(_error: Memory) -> NetFault {
        NetFault::Memory
    }
}

impl From<Memory> for DesignFault {
    ghost use Rattle.std.specs.Prelude.{◌≡◌};
    ghost use Rattle.pw_defs.specs.declared.faults.DesignFault.TheVariants.{Memory as OutOfMemory};

    ghost from_gives = { λ _ e. e ≡ OutOfMemory };

    fn from(_error: Memory) -> DesignFault {
        DesignFault::Memory
    }
}

impl From<Memory> for TclFault {
    ghost use Rattle.std.specs.Prelude.{◌≡◌};
    ghost use Rattle.pw_defs.specs.declared.faults.TclFault.TheVariants.{Memory as OutOfMemory};

    ghost from_gives = { λ _ e. e ≡ OutOfMemory };

    fn from(_error: Memory) -> TclFault {
        TclFault::Memory
    }
}

impl From<Memory> for CmdFault {
    ghost use Rattle.std.specs.Prelude.{◌≡◌};
    ghost use Rattle.pw_defs.specs.declared.faults.CmdFault.TheVariants.{Memory as OutOfMemory};

    ghost from_gives = { λ _ e. e ≡ OutOfMemory };

    fn from(_error: Memory) -> CmdFault {
        CmdFault::Memory
    }
}

impl From<Memory> for SupplyFault {
    ghost use Rattle.std.specs.Prelude.{◌≡◌};
    ghost use Rattle.pw_defs.specs.declared.faults.SupplyFault.TheVariants.{Memory as OutOfMemory};

    ghost from_gives = { λ _ e. e ≡ OutOfMemory };

    fn from(_error: Memory) -> SupplyFault {
        SupplyFault::Memory
    }
}

impl From<Memory> for TermFault {
    ghost use Rattle.std.specs.Prelude.{◌≡◌};
    ghost use Rattle.pw_defs.specs.declared.faults.TermFault.TheVariants.{Memory as OutOfMemory};

    ghost from_gives = { λ _ e. e ≡ OutOfMemory };

    fn from(_error: Memory) -> TermFault {
        TermFault::Memory
    }
}

impl From<Memory> for DomainFault {
    ghost use Rattle.std.specs.Prelude.{◌≡◌};
    ghost use Rattle.pw_defs.specs.declared.faults.DomainFault.TheVariants.{Memory as OutOfMemory};

    ghost from_gives = { λ _ e. e ≡ OutOfMemory };

    fn from(_error: Memory) -> DomainFault {
        DomainFault::Memory
    }
}

impl From<Memory> for MergeFault {
    ghost use Rattle.std.specs.Prelude.{◌≡◌};
    ghost use Rattle.pw_defs.specs.declared.faults.MergeFault.TheVariants.{Memory as OutOfMemory};

    ghost from_gives = { λ _ e. e ≡ OutOfMemory };

    fn from(_error: Memory) -> MergeFault {
        MergeFault::Memory
    }
}

impl From<Memory> for LoadFault {
    ghost use Rattle.std.specs.Prelude.{◌≡◌};
    ghost use Rattle.pw_defs.specs.declared.faults.LoadFault.TheVariants.{Memory as OutOfMemory};

    ghost from_gives = { λ _ e. e ≡ OutOfMemory };

    fn from(_error: Memory) -> LoadFault {
        LoadFault::Memory
    }
}

impl From<Memory> for ModelFault {
    ghost use Rattle.std.specs.Prelude.{◌≡◌};
    ghost use Rattle.pw_defs.specs.declared.faults.ModelFault.TheVariants.{Memory as OutOfMemory};

    ghost from_gives = { λ _ e. e ≡ OutOfMemory };

    fn from(_error: Memory) -> ModelFault {
        ModelFault::Memory
    }
}
