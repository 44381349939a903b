//! Faults that a module has wherever it stands, and which of two in one module comes first.
ghost use Rattle.std.specs.Prelude.{◌≡◌, ◌<◌, ℕ, List, Some, None, length, slice_get, true, false};
ghost use Rattle.list_defs.specs.Orders.{name_cmp};
ghost use Rattle.module_rows.specs.Reads.{inst_at, module_at};
ghost use Rattle.net_least.specs.Lines.{IsFirstOwn, IsNextOwn};
ghost use Rattle.net_least.specs.OwnFaults.{line_cmp};

use module_rows::Modules;
use std::cmp::Ordering;

/// A fault that a module has wherever it stands: its line, and the symbol of the name that is refused.
#[derive(Clone, Copy)]
pub struct OwnFault {
    pub line: u32,
    pub name: u32,
}

/// The order of the spellings of two symbols.
fn spelling_order(modules: &Modules, left: u32, right: u32) -> Ordering
    ensures { (x y : List ℕ) → slice_get modules.now.symbols left ≡ Some x → slice_get modules.now.symbols right ≡ Some y → result ≡ name_cmp x y }
{
    if left >= modules.symbols() || right >= modules.symbols() {
        return Ordering::Equal;
    }
    modules.spelling(left).cmp(modules.spelling(right))
}

/// The order of two faults in one module: by line, then by name.
fn line_order(modules: &Modules, left: OwnFault, right: OwnFault) -> Ordering
    ensures { (x y : List ℕ) → slice_get modules.now.symbols left.name ≡ Some x → slice_get modules.now.symbols right.name ≡ Some y
        → result ≡ line_cmp (left.line, x) (right.line, y) }
{
    match left.line.cmp(&right.line) {
        Ordering::Less => Ordering::Less,
        Ordering::Greater => Ordering::Greater,
        Ordering::Equal => spelling_order(modules, left.name, right.name),
    }
}

/// The first of the fault that was found so far in a module, if any, and the next one.
pub fn first_own(modules: &Modules, best: Option<OwnFault>, next: OwnFault) -> OwnFault
    ensures one { best ≡ None → result ≡ next }
    ensures first { IsFirstOwn modules.now.symbols best next result }
{
    match best {
        Some(before) => match line_order(modules, next, before) {
            Ordering::Less => next,
            Ordering::Equal | Ordering::Greater => before,
        },
        None => next,
    }
}

/// The first of what was found so far and the line of one more instance, if it counts.
pub(crate) fn with_inst(
    modules: &Modules,
    least: Option<OwnFault>,
    holder: u32,
    inst: u32,
    counts: bool,
) -> Option<OwnFault>
    requires holder { holder < length modules.now.modules }
    requires inst { inst < length (module_at modules.now holder).insts }
    ensures skip { counts ≡ false → result ≡ least }
    ensures next { counts ≡ true → IsNextOwn modules.now.symbols (inst_at modules.now holder inst) least result }
{
    if !counts {
        return least;
    }
    let head = modules.inst(holder, inst);
    let next = OwnFault {
        line: head.line,
        name: head.kind,
    };
    Some(first_own(modules, least, next))
}
