//! An instance of a type that isn't there, as an answer.
ghost use Rattle.std.specs.Prelude.{◌≡◌, ◌<◌, ◌↔◌, ℕ, IsTrue, IfOk, IfErr, Some, None, length, map, slice_get};
ghost use Rattle.design_defs.specs.DesignFaults.{FaultKind, HasNoneBefore};
ghost use Rattle.design_defs.specs.Hierarchy.{Sources, module_named, type_of, AreNamedInsts};
ghost use Rattle.module_rows.specs.Reads.{module_at};
ghost use Rattle.net_hierarchy.specs.Firstness.{IsCause};
ghost use Rattle.net_hierarchy.specs.Graph.{AreInstsApart, IsOrder, types_of};
ghost use Rattle.net_least.specs.OwnFaults.{AreOwn};
ghost use Rattle.net_least.specs.Lines.{IsLeastLine, IsUnknown};

use crate::firsts::first_of_kind;
use crate::own::{OwnFault, with_inst};
use module_rows::Modules;
use pw_defs::{Body, DesignFault, List, Memory};
use std::alloc::Global;

/// Whether an instance is of a type that isn't there.
fn is_unknown(row: &[Option<Body>], inst: u32) -> bool
    ensures { IsTrue result ↔ (slice_get row.now inst ≡ Some None) }
{
    match row.get(inst as usize) {
        Some(item) => item.is_none(),
        None => false,
    }
}

/// The first line of a module that makes an instance of a type that isn't there.
fn first_unknown(modules: &Modules, row: &[Option<Body>], holder: u32) -> Option<OwnFault>
    requires { holder < length modules.now.modules }
    ensures { (s : Sources) → row.now ≡ map (λ i. type_of s i.kind) (module_at modules.now holder).insts
        → IsLeastLine (IsUnknown s) modules.now.symbols (module_at modules.now holder).insts result }
{
    let mut least = None;
    for inst in 0..modules.module(holder).insts {
        least = with_inst(modules, least, holder, inst, is_unknown(row, inst));
    }
    least
}

/// The first such line of each module.
fn unknown_in(
    alloc: Global,
    modules: &Modules,
    types: &List<List<Option<Body>>>,
) -> Result<Vec<Option<OwnFault>>, Memory>
    ensures { IfOk result (λ own. (s : Sources) → (top : ℕ) → s.modules ≡ modules.now.modules → types.now ≡ types_of s → module_named s s.top ≡ Some top → AreOwn s FaultKind.unknown_type modules.now.symbols own.items) }
{
    let mut own = Vec::new(alloc);
    for holder in 0..modules.len() {
        match types.get(holder) {
            Some(row) => own.push(first_unknown(modules, row.as_slice(), holder))?,
            None => return Err(Memory),
        }
    }
    Ok(own)
}

/// The fault of an instance of a type that isn't there: the first by its path, then by its line and the name of the type.
///
/// The modules below the top are given in order, each behind those that it holds. Errors: the fault, or want of memory.
pub fn unknown_fault(
    alloc: Global,
    modules: &Modules,
    types: &List<List<Option<Body>>>,
    order: &[u32],
    top: u32,
) -> Result<(), DesignFault>
    ensures none { IfOk result (λ _. (s : Sources) → s.modules ≡ modules.now.modules → types.now ≡ types_of s → module_named s s.top ≡ Some top
        → AreInstsApart s → AreNamedInsts s → IsOrder (types_of s) top order.now → HasNoneBefore FaultKind.unknown_type s → HasNoneBefore FaultKind.size s) }
    ensures cause { IfErr result (λ fault. (s : Sources) → s.modules ≡ modules.now.modules → types.now ≡ types_of s → module_named s s.top ≡ Some top
        → AreInstsApart s → AreNamedInsts s → IsOrder (types_of s) top order.now → HasNoneBefore FaultKind.unknown_type s → IsCause s fault) }
{
    let own = unknown_in(alloc, modules, types)?;
    match first_of_kind(alloc, modules, types, order, top, own.as_slice())? {
        Some(at) => Err(DesignFault::N5(at)),
        None => Ok(()),
    }
}
