//! The module that is the top.
ghost use Rattle.std.specs.Prelude.{◌≡◌, Some, IfOk, IfErr};
ghost use Rattle.design_defs.specs.DesignFaults.{FaultKind, HasNoneBefore};
ghost use Rattle.design_defs.specs.Hierarchy.{Sources, module_named};
ghost use Rattle.net_hierarchy.specs.Firstness.{IsCause};
ghost use Rattle.net_hierarchy.specs.Kinds.{AreKinds};

use crate::kinds::Kinds;
use pw_defs::{AtModule, DesignFault, Memory, Name};
use std::alloc::Global;

/// A name that is refused at no line.
fn at_no_line(alloc: Global, name: &[u8]) -> Result<AtModule, Memory>
    ensures { IfOk result (λ at. at ≡ record { «module» = 0; line = 0; name = name.now }) }
{
    Ok(AtModule {
        module: 0,
        line: 0,
        name: Name::from_slice(alloc, name)?,
    })
}

/// The number of the module that has the name of the top.
pub fn top_number(alloc: Global, kinds: &Kinds, top: &[u8]) -> Result<u32, DesignFault>
    ensures named { IfOk result (λ number. (s : Sources) → AreKinds s.modules s.cells s.models kinds.now → s.top ≡ top.now → module_named s s.top ≡ Some number) }
    ensures cause { IfErr result (λ fault. (s : Sources) → AreKinds s.modules s.cells s.models kinds.now → s.top ≡ top.now
        → HasNoneBefore FaultKind.recursion s → IsCause s fault) }
{
    match kinds.module_named(top) {
        Some(number) => Ok(number),
        None => {
            let at = at_no_line(alloc, top)?;
            Err(DesignFault::N5(at))
        }
    }
}
