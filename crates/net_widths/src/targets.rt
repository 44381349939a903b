//! Left sides of assignments that name nothing.
ghost use Rattle.std.specs.Prelude.{◌<◌, ◌↔◌, IsTrue, length};
ghost use Rattle.pw_defs.specs.declared.netlist.Module.{Module as PlainModule};
ghost use Rattle.list_defs.specs.Members.{IsIn};
ghost use Rattle.module_rows.specs.Reads.{module_at};
ghost use Rattle.net_widths.specs.WiredLines.{HasTargets};

use crate::names::first_name;
use module_rows::Modules;

/// Whether each assignment of a module names something on its left side.
fn has_targets(modules: &Modules, holder: u32) -> bool
    requires { holder < length modules.now.modules }
    ensures { IsTrue result ↔ HasTargets (module_at modules.now holder) }
{
    for assign in 0..modules.module(holder).assigns {
        let left = modules.assign(holder, assign).left;
        if first_name(modules, left).is_none() {
            return false;
        }
    }
    true
}

/// Whether each assignment of each module names something on its left side, as in what is read from a text.
pub fn have_targets(modules: &Modules) -> bool
    ensures { IsTrue result ↔ ((m : PlainModule) → IsIn m modules.now.modules → HasTargets m) }
{
    for holder in 0..modules.len() {
        if !has_targets(modules, holder) {
            return false;
        }
    }
    true
}
