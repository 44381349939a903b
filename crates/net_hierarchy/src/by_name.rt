//! The faults that names of modules make: two modules of one name, a module and a cell of one name, and a module that has
//! other ports than its model.
ghost use Rattle.std.specs.Prelude.{◌≡◌, ℕ, ◌<◌, OnOk, IfErr, IfSome, MatchOption, length};
ghost use Rattle.design_defs.specs.Hierarchy.{Sources};
ghost use Rattle.design_defs.specs.DesignFaults.{FaultKind, HasNoneBefore};
ghost use Rattle.net_hierarchy.specs.Kinds.{AreKinds};
ghost use Rattle.net_hierarchy.specs.ByName.{is_twice, lesser, AreNamedApart, IsFirstTwice, HasOtherPorts, IsOtherAmong};
ghost use Rattle.net_hierarchy.specs.Firstness.{IsCause};

use crate::kinds::Kinds;
use crate::rows::{has_ports, name_of, place_of};
use module_rows::Modules;
use pw_defs::{DesignFault, List, Memory, Model};
use std::alloc::Global;

/// Whether a module has the name of a cell, or isn't the first of its name.
fn is_twice(kinds: &Kinds, place: u32, name: &[u8]) -> bool
    ensures { result ≡ is_twice kinds.now place name.now }
{
    if kinds.cell_named(name).is_some() {
        return true;
    }
    match kinds.module_named(name) {
        Some(first) => first != place,
        None => true,
    }
}

/// The number of the first module that has the name of a cell or of an earlier module.
fn first_twice(kinds: &Kinds, modules: &Modules) -> Option<u32>
    ensures { MatchOption result (AreNamedApart kinds.now modules.now.modules) (IsFirstTwice kinds.now modules.now.modules) }
{
    for place in 0..modules.len() {
        if is_twice(kinds, place, name_of(modules, place)) {
            return Some(place);
        }
    }
    None
}

/// The number of the module of a model that has other ports.
fn other_place(kinds: &Kinds, modules: &Modules, model: &Model) -> Option<u32>
    ensures { MatchOption result ((n : ℕ) → HasOtherPorts kinds.now modules.now.modules model.now n → ⊥) (HasOtherPorts kinds.now modules.now.modules model.now) }
{
    let place = kinds.module_named(model.module.as_slice())?;
    if place >= modules.len() || has_ports(modules, place, model.ports.as_slice()) {
        return None;
    }
    Some(place)
}

/// The lesser of two numbers, where there are two.
fn lesser(left: Option<u32>, right: Option<u32>) -> Option<u32>
    ensures { result ≡ lesser left right }
{
    match left {
        Some(a) => match right {
            Some(b) => Some(a.min(b)),
            None => left,
        },
        None => right,
    }
}

/// The least number of a module that has other ports than a model of it.
fn first_other(kinds: &Kinds, modules: &Modules, models: &[Model]) -> Option<u32>
    ensures { IsOtherAmong kinds.now modules.now.modules models.now result }
{
    let mut least = None;
    for model in models {
        least = lesser(least, other_place(kinds, modules, model));
    }
    least
}

/// The first fault that the names of modules make. Where there is none, a fault of another kind may follow.
pub fn first_by_name(
    alloc: Global,
    kinds: &Kinds,
    modules: &Modules,
    models: &List<Model>,
) -> Result<(), DesignFault>
    ensures none { OnOk result ((s : Sources) → AreKinds s.modules s.cells s.models kinds.now → s.modules ≡ modules.now.modules → s.models ≡ models.now → HasNoneBefore FaultKind.recursion s) }
    ensures cause { IfErr result (λ fault. (s : Sources) → AreKinds s.modules s.cells s.models kinds.now → s.modules ≡ modules.now.modules → s.models ≡ models.now → IsCause s fault) }
{
    match first_twice(kinds, modules) {
        Some(number) => return Err(DesignFault::N11(place_of(alloc, modules, number)?)),
        None => {}
    }
    match first_other(kinds, modules, models.as_slice()) {
        Some(number) => return Err(DesignFault::M5(place_of(alloc, modules, number)?)),
        None => {}
    }
    Ok(())
}
