//! The first fault of a kind that modules have wherever they stand, as an answer.
ghost use Rattle.std.specs.Prelude.{◌≡◌, ℕ, List, Some, IfOk, slice_get};
ghost use Rattle.design_defs.specs.DesignFaults.{FaultKind, HasNoneBefore};
ghost use Rattle.design_defs.specs.Hierarchy.{Sources, module_named, AreNamedInsts};
ghost use Rattle.net_hierarchy.specs.Graph.{AreInstsApart, IsOrder, types_of};
ghost use Rattle.net_least.specs.OwnFaults.{AreOwn, IsFirstOf, IsOfLines, own_at};

use crate::nearest::nearest_module;
use crate::own::OwnFault;
use module_rows::Modules;
use pw_defs::{AtModule, Body, List, Memory, Name};
use std::alloc::Global;

/// The fault of its own that a module has.
fn own_at(own: &[Option<OwnFault>], number: u32) -> Option<OwnFault>
    ensures { result ≡ own_at own.now number }
{
    match own.get(number as usize) {
        Some(fault) => *fault,
        None => None,
    }
}

/// A fault of a module as an answer.
pub(crate) fn answer_at(
    alloc: Global,
    modules: &Modules,
    number: u32,
    own: OwnFault,
) -> Result<AtModule, Memory>
    ensures { IfOk result (λ at. (name : List ℕ) → slice_get modules.now.symbols own.name ≡ Some name → at ≡ record { «module» = number; line = own.line; name = name }) }
{
    if own.name >= modules.symbols() {
        return Err(Memory);
    }
    Ok(AtModule {
        module: number,
        line: own.line,
        name: Name::from_slice(alloc, modules.spelling(own.name))?,
    })
}

/// The first fault of a kind that modules have wherever they stand, by the least of them in each module: it is at the least
/// way to a module that has one.
///
/// The modules below the top are given in order, each behind those that it holds. Each is looked at once, so that a
/// hierarchy of any number of instances is answered at once.
pub fn first_of_kind(
    alloc: Global,
    modules: &Modules,
    types: &List<List<Option<Body>>>,
    order: &[u32],
    top: u32,
    own: &[Option<OwnFault>],
) -> Result<Option<AtModule>, Memory>
    ensures { IfOk result (λ found. (s : Sources) → (kind : FaultKind) → s.modules ≡ modules.now.modules → types.now ≡ types_of s → module_named s s.top ≡ Some top
        → AreInstsApart s → AreNamedInsts s → IsOrder (types_of s) top order.now → IsOfLines kind → HasNoneBefore kind s
        → AreOwn s kind modules.now.symbols own.now → IsFirstOf s kind found) }
{
    match nearest_module(alloc, modules, types, order, top, own)? {
        Some(number) => match own_at(own, number) {
            Some(fault) => {
                let at = answer_at(alloc, modules, number, fault)?;
                Ok(Some(at))
            }
            None => Ok(None),
        },
        None => Ok(None),
    }
}
