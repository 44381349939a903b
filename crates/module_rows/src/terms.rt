//! Spellings and expressions that are added.
ghost use Rattle.std.specs.Prelude.{◌≡◌, ◌∷◌, [], ◌<◌, Some, length, slice_get, IfOk, OnOk, OnErr};
ghost use Rattle.pw_defs.specs.declared.netlist.Expr.TheVariants.{Whole, Bit, Part, Const, Join};
ghost use Rattle.module_rows.specs.Growth.{Grows, HasExprs, IsConnected, IsExpr};
ghost use Rattle.module_rows.specs.Sound.{AreTerms, IsLeafRow, leaf_of};

use crate::tables::{ExprRow, Terms};
use pw_defs::{Expr, List, Name};
use std::alloc::AllocError;

/// The symbol of a name, which is added where it isn't there yet.
pub fn symbol(terms: &mut Terms, name: &[u8]) -> Result<u32, AllocError>
    requires { AreTerms terms.old }
    ensures grown { HasExprs terms.old terms.new [] }
    ensures named { IfOk result (λ symbol. slice_get terms.new.symbols symbol ≡ Some name.now) }
{
    terms.symbols.number(name)
}

/// Adds a name with its select, or a constant.
fn put_leaf(terms: &mut Terms, row: ExprRow) -> Result<(), AllocError>
    requires terms { AreTerms terms.old }
    requires leaf { IsLeafRow terms.old.symbols row }
    ensures grown { Grows terms.old terms.new }
    ensures ok { OnOk result (HasExprs terms.old terms.new (leaf_of terms.old.symbols row)) }
{
    terms.exprs.push(row)?;
    Ok(())
}

/// Adds a whole name.
fn put_whole(terms: &mut Terms, name: &Name) -> Result<(), AllocError>
    requires { AreTerms terms.old }
    ensures grown { Grows terms.old terms.new }
    ensures ok { OnOk result (HasExprs terms.old terms.new (Whole name.now ∷ [])) }
{
    let name = symbol(terms, name.as_slice())?;
    put_leaf(terms, ExprRow::Whole(name))?;
    Ok(())
}

/// Adds a bit of a name.
fn put_bit(terms: &mut Terms, name: &Name, index: u32) -> Result<(), AllocError>
    requires { AreTerms terms.old }
    ensures grown { Grows terms.old terms.new }
    ensures ok { OnOk result (HasExprs terms.old terms.new (Bit name.now index ∷ [])) }
{
    let name = symbol(terms, name.as_slice())?;
    put_leaf(terms, ExprRow::Bit(name, index))?;
    Ok(())
}

/// Adds a part of a name.
fn put_part(terms: &mut Terms, name: &Name, left: u32, right: u32) -> Result<(), AllocError>
    requires { AreTerms terms.old }
    ensures grown { Grows terms.old terms.new }
    ensures ok { OnOk result (HasExprs terms.old terms.new (Part name.now left right ∷ [])) }
{
    let name = symbol(terms, name.as_slice())?;
    put_leaf(terms, ExprRow::Part(name, left, right))?;
    Ok(())
}

/// Adds a concatenation behind its parts.
#[cycle(put_expr)]
fn put_join(terms: &mut Terms, parts: &List<Expr>) -> Result<(), AllocError>
    requires { AreTerms terms.old }
    ensures grown { Grows terms.old terms.new }
    ensures ok { OnOk result (HasExprs terms.old terms.new (Join parts.now ∷ [])) }
{
    let first = terms.exprs.len();
    let count = parts.len();
    put_parts(terms, parts.as_slice())?;
    terms.exprs.push(ExprRow::Join { first, count })?;
    Ok(())
}

/// Adds expressions one behind another.
#[cycle(put_expr)]
fn put_parts(terms: &mut Terms, parts: &[Expr]) -> Result<(), AllocError>
    requires { AreTerms terms.old }
    ensures grown { Grows terms.old terms.new }
    ensures ok { OnOk result (HasExprs terms.old terms.new parts.now) }
{
    for part in parts {
        put_expr(terms, part)?;
    }
    Ok(())
}

/// Adds an expression. Its parts may nest as deep as a reader lets them.
#[cycle(put_expr)]
fn put_expr(terms: &mut Terms, expr: &Expr) -> Result<(), AllocError>
    requires { AreTerms terms.old }
    ensures grown { Grows terms.old terms.new }
    ensures ok { OnOk result (HasExprs terms.old terms.new (expr.now ∷ [])) }
{
    match expr {
        Expr::Whole(name) => put_whole(terms, name),
        Expr::Bit(name, index) => put_bit(terms, name, *index),
        Expr::Part(name, left, right) => put_part(terms, name, *left, *right),
        Expr::Const(count) => put_leaf(terms, ExprRow::Const(*count)),
        Expr::Join(parts) => put_join(terms, parts),
    }
}

/// Adds an expression, and answers its number.
pub fn number(terms: &mut Terms, expr: &Expr) -> Result<u32, AllocError>
    requires { AreTerms terms.old }
    ensures grown { Grows terms.old terms.new }
    ensures expr { IfOk result (λ n. IsExpr terms.new expr.now n) }
{
    put_expr(terms, expr)?;
    Ok(terms.exprs.len() - 1)
}

/// Adds the expression of a connection. The answer is 0 for an empty one, and else one more than the number.
pub fn connected(terms: &mut Terms, expr: &Option<Expr>) -> Result<u32, AllocError>
    requires { AreTerms terms.old }
    ensures grown { Grows terms.old terms.new }
    ensures expr { IfOk result (λ n. IsConnected terms.new expr.now n) }
{
    match expr {
        None => Ok(0),
        Some(expr) => {
            put_expr(terms, expr)?;
            Ok(terms.exprs.len())
        }
    }
}
