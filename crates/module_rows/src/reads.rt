//! Rows that are read by number.
ghost use Rattle.std.specs.Prelude.{◌≡◌, ◌+◌, ◌<◌, MatchOption, Some, length, slice_get};
ghost use Rattle.module_rows.specs.Reads.{assign_at, conn_at, inst_at, module_at, net_at, numbered_expr, port_at, HasLeavesFrom, IsAssign, IsConn, IsExprHead, IsInst, IsModule, IsNet, IsPort};
ghost use Rattle.module_rows.specs.Sound.{AreRows, IsInstRow, IsModuleRow};
ghost use Rattle.module_rows.specs.View.{first_row, head_of_row, inst_of, module_of, netlist_of};

use crate::heads::{ConnHead, ExprHead, InstHead, ModuleHead};
use crate::tables::{AssignRow, ConnRow, ExprRow, InstRow, ModuleRow, NetRow, PortRow, Rows};

impl Rows {
    fn port_row(&self, at: u32) -> PortRow
        requires { at < length self.now.ports }
        ensures { slice_get self.now.ports at ≡ Some result }
    {
        self.ports.as_slice()[at as usize]
    }

    fn net_row(&self, at: u32) -> NetRow
        requires { at < length self.now.nets }
        ensures { slice_get self.now.nets at ≡ Some result }
    {
        self.nets.as_slice()[at as usize]
    }

    fn assign_row(&self, at: u32) -> AssignRow
        requires { at < length self.now.assigns }
        ensures { slice_get self.now.assigns at ≡ Some result }
    {
        self.assigns.as_slice()[at as usize]
    }

    fn inst_row(&self, at: u32) -> InstRow
        requires { at < length self.now.insts }
        ensures { slice_get self.now.insts at ≡ Some result }
    {
        self.insts.as_slice()[at as usize]
    }

    fn conn_row(&self, at: u32) -> ConnRow
        requires { at < length self.now.conns }
        ensures { slice_get self.now.conns at ≡ Some result }
    {
        self.conns.as_slice()[at as usize]
    }

    /// The row of a module.
    fn module_row(&self, holder: u32) -> ModuleRow
        requires rows { AreRows self.now }
        requires within { holder < length self.now.modules }
        ensures fits { IsModuleRow self.now result }
        ensures is { module_at (netlist_of self.now) holder ≡ module_of self.now result }
    {
        self.modules.as_slice()[holder as usize]
    }

    /// What is read of a module.
    pub fn module(&self, holder: u32) -> ModuleHead
        requires rows { AreRows self.now }
        requires within { holder < length self.now.modules }
        ensures { IsModule (netlist_of self.now) (module_at (netlist_of self.now) holder) result }
    {
        let row = self.module_row(holder);
        ModuleHead {
            name: row.name,
            line: row.line,
            ports: row.end.ports - row.first.ports,
            nets: row.end.nets - row.first.nets,
            assigns: row.end.assigns - row.first.assigns,
            insts: row.end.insts - row.first.insts,
        }
    }

    /// A port of a module.
    pub fn port(&self, holder: u32, port: u32) -> PortRow
        requires rows { AreRows self.now }
        requires holder { holder < length self.now.modules }
        requires port { port < length (module_at (netlist_of self.now) holder).ports }
        ensures { IsPort (netlist_of self.now) (port_at (netlist_of self.now) holder port) result }
    {
        let row = self.module_row(holder);
        self.port_row(row.first.ports + port)
    }

    /// A declared wire of a module.
    pub fn net(&self, holder: u32, net: u32) -> NetRow
        requires rows { AreRows self.now }
        requires holder { holder < length self.now.modules }
        requires net { net < length (module_at (netlist_of self.now) holder).nets }
        ensures { IsNet (netlist_of self.now) (net_at (netlist_of self.now) holder net) result }
    {
        let row = self.module_row(holder);
        self.net_row(row.first.nets + net)
    }

    /// An assignment of a module.
    pub fn assign(&self, holder: u32, assign: u32) -> AssignRow
        requires rows { AreRows self.now }
        requires holder { holder < length self.now.modules }
        requires assign { assign < length (module_at (netlist_of self.now) holder).assigns }
        ensures { IsAssign (netlist_of self.now) (assign_at (netlist_of self.now) holder assign) result }
    {
        let row = self.module_row(holder);
        self.assign_row(row.first.assigns + assign)
    }

    /// The row of an instance of a module.
    fn inst_in(&self, holder: u32, inst: u32) -> InstRow
        requires rows { AreRows self.now }
        requires holder { holder < length self.now.modules }
        requires inst { inst < length (module_at (netlist_of self.now) holder).insts }
        ensures fits { IsInstRow self.now.terms self.now.conns result }
        ensures is { inst_at (netlist_of self.now) holder inst ≡ inst_of self.now.terms self.now.conns result }
    {
        let row = self.module_row(holder);
        self.inst_row(row.first.insts + inst)
    }

    /// What is read of an instance of a module.
    pub fn inst(&self, holder: u32, inst: u32) -> InstHead
        requires rows { AreRows self.now }
        requires holder { holder < length self.now.modules }
        requires inst { inst < length (module_at (netlist_of self.now) holder).insts }
        ensures { IsInst (netlist_of self.now) (inst_at (netlist_of self.now) holder inst) result }
    {
        let row = self.inst_in(holder, inst);
        InstHead {
            kind: row.kind,
            name: row.name,
            line: row.line,
            conns: row.conns_end - row.conns_first,
        }
    }

    /// A connection of an instance of a module.
    pub fn conn(&self, holder: u32, inst: u32, conn: u32) -> ConnHead
        requires rows { AreRows self.now }
        requires holder { holder < length self.now.modules }
        requires inst { inst < length (module_at (netlist_of self.now) holder).insts }
        requires conn { conn < length (inst_at (netlist_of self.now) holder inst).conns }
        ensures { IsConn (netlist_of self.now) (conn_at (netlist_of self.now) holder inst conn) result }
    {
        let row = self.inst_in(holder, inst);
        let conn = self.conn_row(row.conns_first + conn);
        ConnHead {
            port: conn.port,
            expr: numbered(conn.expr),
        }
    }

    fn expr_row(&self, at: u32) -> ExprRow
        requires { at < length self.now.terms.exprs }
        ensures { slice_get self.now.terms.exprs at ≡ Some result }
    {
        self.terms.exprs.as_slice()[at as usize]
    }

    /// What is read of an expression.
    pub fn expr(&self, expr: u32) -> ExprHead
        requires rows { AreRows self.now }
        requires within { expr < length (netlist_of self.now).exprs }
        ensures { IsExprHead (netlist_of self.now) (numbered_expr (netlist_of self.now) expr) result }
    {
        head(self.expr_row(expr))
    }

    /// The number from which on the expressions, up to this one, are the names and constants in it. Concatenations among
    /// them are passed over.
    pub fn first_leaf(&self, expr: u32) -> u32
        requires rows { AreRows self.now }
        requires within { expr < length (netlist_of self.now).exprs }
        ensures { HasLeavesFrom (netlist_of self.now) expr result }
    {
        first(expr, self.expr_row(expr))
    }
}

/// The number of the expression of a connection, `None` for an empty one.
fn numbered(expr: u32) -> Option<u32>
    ensures { MatchOption result (expr ≡ 0) (λ n. n + 1 ≡ expr) }
{
    expr.checked_sub(1)
}

/// What is read of the row of an expression.
fn head(row: ExprRow) -> ExprHead
    ensures { result ≡ head_of_row row }
{
    match row {
        ExprRow::Whole(name) => ExprHead::Whole(name),
        ExprRow::Bit(name, index) => ExprHead::Bit(name, index),
        ExprRow::Part(name, left, right) => ExprHead::Part(name, left, right),
        ExprRow::Const(count) => ExprHead::Const(count),
        ExprRow::Join { .. } => ExprHead::Join,
    }
}

/// The first row of an expression that ends with a row.
fn first(at: u32, row: ExprRow) -> u32
    ensures { result ≡ first_row at row }
{
    match row {
        ExprRow::Join { first, .. } => first,
        ExprRow::Whole(_) | ExprRow::Bit(..) | ExprRow::Part(..) | ExprRow::Const(_) => at,
    }
}
