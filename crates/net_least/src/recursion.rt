//! An instance of a module that it is inside, as an answer: the first by its path, found by a walk down from the top through
//! the instances with the least names.
ghost use Rattle.std.specs.Prelude.{◌≡◌, ◌<◌, ◌↔◌, ℕ, IfOk, IsTrue, Some, length, map};
ghost use Rattle.design_defs.specs.DesignFaults.{FaultKind, HasFirstFault, HasNoneBefore};
ghost use Rattle.design_defs.specs.Hierarchy.{Sources, module_named, type_of, AreNamedInsts};
ghost use Rattle.pw_defs.specs.declared.faults.DesignFault.TheVariants.{N9};
ghost use Rattle.module_rows.specs.Reads.{module_at};
ghost use Rattle.net_hierarchy.specs.Firstness.{IsCause};
ghost use Rattle.net_hierarchy.specs.Graph.{AreInstsApart, types_of};
ghost use Rattle.net_least.specs.Lines.{IsLeastLine};
ghost use Rattle.net_least.specs.Recursion.{AreFree, Closes, IsBegun, IsMarked, IsOfMarked, module_in};

use crate::branches::{closes, module_in, next_module};
use crate::firsts::answer_at;
use crate::marks::{free_marks, is_marked, set_mark};
use crate::own::{OwnFault, with_inst};
use module_rows::Modules;
use pw_defs::{AtModule, Body, DesignFault, List, Memory};
use std::alloc::Global;

/// Whether an instance of a row is of a marked module.
fn is_closing(row: &[Option<Body>], marks: &[bool], inst: u32) -> bool
    ensures { IsTrue result ↔ ((k : ℕ) × (module_in row.now inst ≡ Some k) × IsMarked marks.now k) }
{
    match module_in(row, inst) {
        Some(number) => is_marked(marks, number),
        None => false,
    }
}

/// The first line of a module that makes an instance of a marked module.
fn first_closing(
    modules: &Modules,
    row: &[Option<Body>],
    marks: &[bool],
    holder: u32,
) -> Option<OwnFault>
    requires { holder < length modules.now.modules }
    ensures { (s : Sources) → row.now ≡ map (λ i. type_of s i.kind) (module_at modules.now holder).insts
        → IsLeastLine (IsOfMarked s marks.now) modules.now.symbols (module_at modules.now holder).insts result }
{
    let mut least = None;
    for inst in 0..modules.module(holder).insts {
        least = with_inst(modules, least, holder, inst, is_closing(row, marks, inst));
    }
    least
}

/// The fault at the end of the walk, as an answer.
fn answer_here(
    alloc: Global,
    modules: &Modules,
    types: &List<List<Option<Body>>>,
    marks: &[bool],
    holder: u32,
) -> Result<AtModule, Memory>
    ensures { IfOk result (λ at. (s : Sources) → AreInstsApart s → AreNamedInsts s → s.modules ≡ modules.now.modules → types.now ≡ types_of s
        → HasNoneBefore FaultKind.recursion s → IsBegun s marks.now holder → HasFirstFault s (N9 at)) }
{
    if holder >= modules.len() {
        return Err(Memory);
    }
    match types.get(holder) {
        Some(row) => match first_closing(modules, row.as_slice(), marks, holder) {
            Some(own) => {
                let at = answer_at(alloc, modules, holder, own)?;
                Ok(at)
            }
            None => Err(Memory),
        },
        None => Err(Memory),
    }
}

/// Goes on to the next module of the walk, and marks it.
fn go_on(
    alloc: Global,
    modules: &Modules,
    types: &List<List<Option<Body>>>,
    free: &[bool],
    marks: &mut Vec<bool>,
    holder: u32,
) -> Result<u32, Memory>
    ensures { IfOk result (λ number. (s : Sources) → (top : ℕ) → AreInstsApart s → AreNamedInsts s → s.modules ≡ modules.now.modules → types.now ≡ types_of s
        → module_named s s.top ≡ Some top → AreFree types.now free.now → (Closes types.now marks.old.items holder → ⊥) → length marks.old.items ≡ length s.modules
        → IsBegun s marks.old.items holder → IsBegun s marks.new.items number × (length marks.new.items ≡ length s.modules)) }
{
    let number = next_module(alloc, modules, types, free, marks.as_slice(), holder)?;
    set_mark(marks, number);
    Ok(number)
}

/// The first recursion below the top.
fn first_recursion(
    alloc: Global,
    modules: &Modules,
    types: &List<List<Option<Body>>>,
    top: u32,
) -> Result<AtModule, Memory>
    ensures { IfOk result (λ at. (s : Sources) → AreInstsApart s → AreNamedInsts s → s.modules ≡ modules.now.modules → types.now ≡ types_of s
        → module_named s s.top ≡ Some top → HasNoneBefore FaultKind.recursion s → HasFirstFault s (N9 at)) }
{
    let free = free_marks(alloc, types, top)?;
    let mut marks = vec![in alloc; false; modules.len() as usize]?;
    set_mark(&mut marks, top);
    let mut number = top;
    for _ in 0..modules.len() {
        if closes(types, marks.as_slice(), number) {
            let at = answer_here(alloc, modules, types, marks.as_slice(), number)?;
            return Ok(at);
        }
        number = go_on(alloc, modules, types, free.as_slice(), &mut marks, number)?;
    }
    Err(Memory)
}

/// The fault of a hierarchy in which an instance is of a module that it is inside: the first by its path, then by its line
/// and the name of the module.
pub fn recursion_fault(
    alloc: Global,
    modules: &Modules,
    types: &List<List<Option<Body>>>,
    top: u32,
) -> DesignFault
    ensures { (s : Sources) → AreInstsApart s → AreNamedInsts s → s.modules ≡ modules.now.modules → types.now ≡ types_of s
        → module_named s s.top ≡ Some top → HasNoneBefore FaultKind.recursion s → IsCause s result }
{
    match first_recursion(alloc, modules, types, top) {
        Ok(at) => DesignFault::N9(at),
        Err(_) => DesignFault::Memory,
    }
}
