//! Soft macros, and the units that they make.
ghost use Rattle.std.specs.Prelude.{◌≡◌, ◌<◌, ◌≤◌, [], ◌∷◌, Some, filter, length, map, not, MatchOption, OnOk};
ghost use Rattle.list_defs.specs.Members.{same_name};
ghost use Rattle.design_defs.specs.Joined.{path_of};
ghost use Rattle.script_defs.specs.Closing.{has_some};
ghost use Rattle.script_defs.specs.Scopes.{is_soft_macro, nesting, unit_of};
ghost use Rattle.script_scopes.specs.Marked.{marked};
ghost use Rattle.script_scopes.specs.Standing.{own_path};
ghost use Rattle.script_scopes.specs.Units.{IsInnermost, is_nesting_mark, is_unit, macros_from};

use crate::bodies::{is_modelled, outer};
use crate::instances::Hierarchy;
use crate::marks::Marks;
use pw_defs::Memory;

/// Whether an instance is a soft macro: it is marked, or a model stands for it. The top is none.
pub fn is_soft_macro(hierarchy: &Hierarchy, marks: &Marks, n: u32) -> bool
    requires { n < length hierarchy.now.insts }
    ensures { result ≡ is_soft_macro hierarchy.now (marked hierarchy.now marks.now) (own_path hierarchy.now n) }
{
    hierarchy.sound();
    if n == 0 {
        return false;
    }
    if marks.has(n) {
        return true;
    }
    is_modelled(hierarchy, n)
}

/// Whether an instance has a unit of its own: the top and each soft macro.
pub fn is_unit(hierarchy: &Hierarchy, marks: &Marks, n: u32) -> bool
    requires { n < length hierarchy.now.insts }
    ensures { result ≡ is_unit hierarchy.now (marked hierarchy.now marks.now) (own_path hierarchy.now n) }
{
    hierarchy.sound();
    if n == 0 {
        return true;
    }
    is_soft_macro(hierarchy, marks, n)
}

/// The instance of the unit at or above an instance: the innermost soft macro there, else the top.
pub fn unit_of(hierarchy: &Hierarchy, marks: &Marks, inst: u32) -> u32
    requires { inst < length hierarchy.now.insts }
    ensures within { result < length hierarchy.now.insts }
    ensures unit { path_of hierarchy.now result ≡ Some (unit_of hierarchy.now (marked hierarchy.now marks.now) (own_path hierarchy.now inst)) }
{
    hierarchy.sound();
    let mut at = inst;
    while !is_unit(hierarchy, marks, at) {
        at = outer(hierarchy, at);
    }
    at
}

/// How often an instance below the top counts for the nesting of marks.
fn mark_count(hierarchy: &Hierarchy, marks: &Marks, n: u32) -> u32
    requires later { 0 < n }
    requires within { n < length hierarchy.now.insts }
    ensures count { result ≡ length (filter (is_nesting_mark (marked hierarchy.now marks.now)) (own_path hierarchy.now n ∷ [])) }
    ensures few { result ≤ 1 }
{
    hierarchy.sound();
    if marks.has(n) { 1 } else { 0 }
}

/// How many soft macros are marked at or above an instance, the top not counted.
pub fn nesting(hierarchy: &Hierarchy, marks: &Marks, inst: u32) -> u32
    requires { inst < length hierarchy.now.insts }
    ensures { result ≡ nesting hierarchy.now (marked hierarchy.now marks.now) (own_path hierarchy.now inst) }
{
    hierarchy.sound();
    let mut count = 0;
    let mut at = inst;
    while at > 0 {
        count += mark_count(hierarchy, marks, at);
        at = outer(hierarchy, at);
    }
    count
}

/// The innermost soft macro at or above an instance that is further in than a unit.
pub fn macro_inside(hierarchy: &Hierarchy, marks: &Marks, unit: u32, inst: u32) -> Option<u32>
    requires unit { unit < length hierarchy.now.insts }
    requires within { inst < length hierarchy.now.insts }
    ensures { MatchOption result (macros_from hierarchy.now (marked hierarchy.now marks.now) unit inst ≡ [])
        (λ n. IsInnermost hierarchy.now (marked hierarchy.now marks.now) unit inst n) }
{
    hierarchy.sound();
    let mut at = inst;
    while at > 0 {
        if at == unit {
            return None;
        }
        if is_soft_macro(hierarchy, marks, at) {
            return Some(at);
        }
        at = outer(hierarchy, at);
    }
    None
}

/// The soft macros at or above an instance that are further in than a unit, from the inside out, in place of what was in
/// the list.
pub fn macros_inside(
    hierarchy: &Hierarchy,
    marks: &Marks,
    unit: u32,
    inst: u32,
    inside: &mut Vec<u32>,
) -> Result<(), Memory>
    requires unit { unit < length hierarchy.now.insts }
    requires within { inst < length hierarchy.now.insts }
    ensures { OnOk result (map (own_path hierarchy.now) inside.new.items ≡ macros_from hierarchy.now (marked hierarchy.now marks.now) unit inst) }
{
    inside.clear();
    let mut at = inst;
    while let Some(n) = macro_inside(hierarchy, marks, unit, at) {
        inside.push(n)?;
        at = outer(hierarchy, n);
    }
    Ok(())
}

/// Whether an instance is at or below a soft macro that is further in than a unit.
pub fn is_inside(hierarchy: &Hierarchy, marks: &Marks, unit: u32, inst: u32) -> bool
    requires unit { unit < length hierarchy.now.insts }
    requires within { inst < length hierarchy.now.insts }
    ensures { result ≡ has_some (macros_from hierarchy.now (marked hierarchy.now marks.now) unit inst) }
{
    hierarchy.sound();
    macro_inside(hierarchy, marks, unit, inst).is_some()
}

/// Whether an instance is below a soft macro that is further in than a unit.
pub fn is_far_inside(hierarchy: &Hierarchy, marks: &Marks, unit: u32, inst: u32) -> bool
    requires unit { unit < length hierarchy.now.insts }
    requires within { inst < length hierarchy.now.insts }
    ensures { result ≡ has_some (filter (λ macro. not (same_name macro (own_path hierarchy.now inst)))
        (macros_from hierarchy.now (marked hierarchy.now marks.now) unit inst)) }
{
    hierarchy.sound();
    if inst == 0 {
        return false;
    }
    if inst == unit {
        return false;
    }
    is_inside(hierarchy, marks, unit, outer(hierarchy, inst))
}
