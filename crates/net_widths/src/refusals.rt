//! The first of the names that are refused at the lines of a module.
ghost use Rattle.std.specs.Prelude.{◌≡◌, ℕ, ◌∷◌, [], List, Some, slice_get};
ghost use Rattle.net_widths.specs.Refusals.{Finds, IsFirstName, at_one_line, first_of, unequal};
ghost use Rattle.net_widths.specs.Sides.{refused};

use module_rows::Modules;
use net_least::{OwnFault, first_own};

/// The first of what was found so far and a name that is refused at a line.
fn refuse(modules: &Modules, best: Option<OwnFault>, line: u32, name: u32) -> Option<OwnFault>
    ensures { (x : List ℕ) → slice_get modules.now.symbols name ≡ Some x → Finds modules.now.symbols best result ((line, x) ∷ []) }
{
    Some(first_own(modules, best, OwnFault { line, name }))
}

/// The first of what was found so far and the first of some names, if there are any.
pub(crate) fn refuse_first(
    modules: &Modules,
    best: Option<OwnFault>,
    line: u32,
    name: Option<u32>,
) -> Option<OwnFault>
    ensures { (names : List (List ℕ)) → IsFirstName modules.now.symbols names name → Finds modules.now.symbols best result (at_one_line line (first_of names)) }
{
    match name {
        Some(symbol) => refuse(modules, best, line, symbol),
        None => best,
    }
}

/// The same where there is no width.
pub(crate) fn refuse_unless(
    modules: &Modules,
    best: Option<OwnFault>,
    line: u32,
    width: Option<u64>,
    name: Option<u32>,
) -> Option<OwnFault>
    ensures { (names : List (List ℕ)) → IsFirstName modules.now.symbols names name → Finds modules.now.symbols best result (at_one_line line (refused width names)) }
{
    match width {
        Some(_) => best,
        None => refuse_first(modules, best, line, name),
    }
}

/// The same where there are two widths that differ.
pub(crate) fn refuse_unequal(
    modules: &Modules,
    best: Option<OwnFault>,
    line: u32,
    left: Option<u64>,
    right: Option<u64>,
    name: Option<u32>,
) -> Option<OwnFault>
    ensures { (names : List (List ℕ)) → IsFirstName modules.now.symbols names name → Finds modules.now.symbols best result (at_one_line line (unequal left right names)) }
{
    match left {
        Some(count) => match right {
            Some(other) => {
                if count == other {
                    best
                } else {
                    refuse_first(modules, best, line, name)
                }
            }
            None => best,
        },
        None => best,
    }
}
