//! The sides of connections and assignments: how wide they are, and which names they select wrongly.
ghost use Rattle.std.specs.Prelude.{◌≡◌, ◌<◌, ℕ, IfOk, length};
ghost use Rattle.pw_defs.specs.declared.netlist.Module.{Module as PlainModule};
ghost use Rattle.list_defs.specs.Members.{IsIn};
ghost use Rattle.design_defs.specs.Hierarchy.{Sources};
ghost use Rattle.design_defs.specs.Places.{exprs_in};
ghost use Rattle.module_rows.specs.Leaves.{own_leaf};
ghost use Rattle.module_rows.specs.Reads.{numbered_expr};
ghost use Rattle.net_runs.specs.Known.{IsOpen};
ghost use Rattle.net_runs.specs.Leaves.{StandsIn};
ghost use Rattle.net_widths.specs.Sides.{both_widths, AddsLeaves, IsLeafWidth, IsSide};

use crate::names::name_of;
use crate::refusals::refuse_unless;
use module_rows::Modules;
use net_least::OwnFault;
use net_runs::Lookup;
use pw_defs::Memory;

/// What an expression says: the first name that is refused, of those before it too, and its width where nothing is
/// selected wrongly.
#[derive(Clone, Copy)]
pub(crate) struct Side {
    pub(crate) best: Option<OwnFault>,
    pub(crate) width: Option<u64>,
}

/// How many bits a name or a constant of the module that is open has, where it isn't selected wrongly.
fn leaf_width(lookup: &Lookup, leaf: u32) -> Option<u64>
    requires { leaf < length lookup.now.netlist.exprs }
    ensures { (s : Sources) → (m : PlainModule) → IsOpen s lookup.now m → StandsIn lookup.now.netlist m leaf
        → IsLeafWidth m (own_leaf (numbered_expr lookup.now.netlist leaf)) result }
{
    match lookup.leaf(leaf) {
        Some(run) => Some(run.count()),
        None => None,
    }
}

/// Two widths together, where both are there.
fn sum_of(left: Option<u64>, right: Option<u64>) -> Result<Option<u64>, Memory>
    ensures { IfOk result (λ sum. sum ≡ both_widths left right) }
{
    match left {
        Some(bits) => match right {
            Some(more) => {
                let sum = bits.checked_add(more).ok_or(Memory)?;
                Ok(Some(sum))
            }
            None => Ok(None),
        },
        None => Ok(None),
    }
}

/// An expression with one name or constant more.
fn add_leaf(
    modules: &Modules,
    lookup: &Lookup,
    leaf: u32,
    line: u32,
    side: Side,
) -> Result<Side, Memory>
    requires netlist { lookup.now.netlist ≡ modules.now }
    requires leaf { leaf < length modules.now.exprs }
    ensures { IfOk result (λ after. (s : Sources) → (m : PlainModule) → IsOpen s lookup.now m → StandsIn modules.now m leaf
        → AddsLeaves modules.now.symbols m line side after (own_leaf (numbered_expr modules.now leaf))) }
{
    let name = name_of(modules.expr(leaf));
    let width = leaf_width(lookup, leaf);
    Ok(Side {
        best: refuse_unless(modules, side.best, line, width, name),
        width: sum_of(side.width, width)?,
    })
}

/// What an expression of the module that is open says, behind what was found before.
pub(crate) fn side_of(
    modules: &Modules,
    lookup: &Lookup,
    expr: u32,
    line: u32,
    best: Option<OwnFault>,
) -> Result<Side, Memory>
    requires netlist { lookup.now.netlist ≡ modules.now }
    requires expr { expr < length modules.now.exprs }
    ensures { IfOk result (λ side. (s : Sources) → (m : PlainModule) → IsOpen s lookup.now m → IsIn (numbered_expr modules.now expr) (exprs_in m)
        → IsSide modules.now.symbols m line best side (numbered_expr modules.now expr)) }
{
    let mut side = Side {
        best,
        width: Some(0),
    };
    for leaf in modules.first_leaf(expr)..expr {
        side = add_leaf(modules, lookup, leaf, line, side)?;
    }
    let whole = add_leaf(modules, lookup, expr, line, side)?;
    Ok(whole)
}
