//! The names in expressions.
ghost use Rattle.std.specs.Prelude.{◌<◌, length};
ghost use Rattle.std.specs.List.{flat_map};
ghost use Rattle.pw_defs.specs.declared.netlist.Expr.{Expr as PlainExpr};
ghost use Rattle.design_defs.specs.Places.{names_in};
ghost use Rattle.module_rows.specs.declared.plain.Netlist.{Netlist as PlainNetlist};
ghost use Rattle.module_rows.specs.Leaves.{own_leaf};
ghost use Rattle.module_rows.specs.Reads.{numbered_expr, IsExprHead};
ghost use Rattle.net_widths.specs.Refusals.{IsFirstName};

use module_rows::{ExprHead, Modules};

/// The symbol of the name that an expression is, with its select, if it is one.
pub(crate) fn name_of(head: ExprHead) -> Option<u32>
    ensures { (n : PlainNetlist) → (e : PlainExpr) → IsExprHead n e head → IsFirstName n.symbols (flat_map names_in (own_leaf e)) result }
{
    match head {
        ExprHead::Whole(name) => Some(name),
        ExprHead::Bit(name, _) => Some(name),
        ExprHead::Part(name, _, _) => Some(name),
        ExprHead::Const(_) => None,
        ExprHead::Join => None,
    }
}

/// The symbol of the first name in an expression, if there is one.
pub(crate) fn first_name(modules: &Modules, expr: u32) -> Option<u32>
    requires { expr < length modules.now.exprs }
    ensures { IsFirstName modules.now.symbols (names_in (numbered_expr modules.now expr)) result }
{
    let mut name = None;
    for leaf in modules.first_leaf(expr)..expr {
        name = name.or(name_of(modules.expr(leaf)));
    }
    name.or(name_of(modules.expr(expr)))
}
