//! What the words of a script stand for in a design: instances, ports and pins, and bits of vector ports.
ghost use Rattle.std.specs.Prelude.{◌≡◌, ◌<◌, ℕ, List, [], Some, length, IfSome, MatchOption};
ghost use Rattle.std.specs.Option.{option_map};
ghost use Rattle.design_defs.specs.Joined.{path_of};
ghost use Rattle.script_defs.specs.DesignParts.{body_of_part, is_whole_port, part_at, part_from};
ghost use Rattle.script_defs.specs.Scopes.{above, at_or_above, is_one_of, path_from};
ghost use Rattle.script_scopes.specs.Parts.{DoOthersNot, DoWordsResolve, owner_of, part_of};
ghost use Rattle.script_scopes.specs.Standing.{named_inst, own_path};

use crate::bodies::{body_of, is_leaf_cell};
use crate::instances::Hierarchy;
use crate::joining::is_dot;
use design_paths::{is_at_or_below, resolve};
use pw_defs::{Body, Named};

/// The part of the design with a whole name.
pub fn part_at(hierarchy: &Hierarchy, name: &[u8]) -> Option<Named>
    ensures part { part_at hierarchy.now name.now ≡ option_map (part_of hierarchy.now name.now) result }
    ensures within { IfSome result (λ x. owner_of x < length hierarchy.now.insts) }
    ensures path { IfSome (named_inst result) (λ n. path_of hierarchy.now n ≡ Some name.now) }
{
    hierarchy.sound();
    resolve(hierarchy.design(), 0, name)
}

/// The part of the design that a word names from the instance of a scope; `.` is that instance itself.
pub fn part_from(hierarchy: &Hierarchy, scope: u32, word: &[u8]) -> Option<Named>
    requires { scope < length hierarchy.now.insts }
    ensures part { part_from hierarchy.now (own_path hierarchy.now scope) word.now
        ≡ option_map (part_of hierarchy.now (path_from (own_path hierarchy.now scope) word.now)) result }
    ensures within { IfSome result (λ x. owner_of x < length hierarchy.now.insts) }
    ensures path { IfSome (named_inst result) (λ n. path_of hierarchy.now n ≡ Some (path_from (own_path hierarchy.now scope) word.now)) }
{
    hierarchy.sound();
    if is_dot(word) {
        return Some(Named::Instance(scope));
    }
    resolve(hierarchy.design(), scope, word)
}

/// A word other than `.` names from a scope exactly what it stands for below the instance of the scope.
pub fn words_resolve(hierarchy: &Hierarchy)
    ensures named { DoWordsResolve hierarchy.now }
    ensures nothing { DoOthersNot hierarchy.now }
{
    hierarchy.sound();
}

/// The instance that a part is, or that it is a part of.
pub fn owner_of(named: Named) -> u32
    ensures { result ≡ owner_of named }
{
    match named {
        Named::Instance(n) => n,
        Named::Port { inst, .. } => inst,
        Named::PortBit(bit) => bit.inst,
    }
}

/// What the instance is an instance of, where the part is an instance.
pub fn body_of_part(hierarchy: &Hierarchy, part: Option<Named>) -> Option<Body>
    ensures { (name : List ℕ) → result ≡ body_of_part hierarchy.now (option_map (part_of hierarchy.now name) part) }
{
    match part {
        Some(Named::Instance(n)) => body_of(hierarchy, n),
        Some(Named::Port { .. }) => None,
        Some(Named::PortBit(_)) => None,
        None => None,
    }
}

/// Whether a part is a whole port of an instance that is no leaf cell.
pub fn is_whole_port(hierarchy: &Hierarchy, part: Option<Named>) -> bool
    ensures { (name : List ℕ) → result ≡ is_whole_port hierarchy.now (option_map (part_of hierarchy.now name) part) }
{
    match part {
        Some(Named::Port { inst, .. }) => !is_leaf_cell(body_of(hierarchy, inst)),
        Some(Named::Instance(_)) => false,
        Some(Named::PortBit(_)) => false,
        None => false,
    }
}

/// Whether a scope is one of the instances at or above another one.
pub fn stands_in(hierarchy: &Hierarchy, scope: u32, inst: u32) -> bool
    requires scope { scope < length hierarchy.now.insts }
    requires within { inst < length hierarchy.now.insts }
    ensures { result ≡ is_one_of (own_path hierarchy.now scope) (at_or_above hierarchy.now (own_path hierarchy.now inst)) }
{
    hierarchy.sound();
    is_at_or_below(hierarchy.design(), scope, inst)
}

/// What an instance is inside: what stands above the one stands at or above the other. Nothing stands above the top.
pub fn outer_of(hierarchy: &Hierarchy, inst: u32) -> Option<u32>
    requires { inst < length hierarchy.now.insts }
    ensures { MatchOption result (above hierarchy.now (own_path hierarchy.now inst) ≡ [])
        (λ outer. (outer < length hierarchy.now.insts) × (above hierarchy.now (own_path hierarchy.now inst) ≡ at_or_above hierarchy.now (own_path hierarchy.now outer))) }
{
    hierarchy.sound();
    hierarchy.design().parent(inst)
}
