//! Modules that are whole.
ghost use Rattle.std.specs.Prelude.{◌≡◌, ◌<◌, true, Some, IfOk, length, map, slice_get};
ghost use Rattle.design_defs.specs.Designs.{head_of};
ghost use Rattle.list_defs.specs.Members.{all_differ, place_of, same_name};
ghost use Rattle.module_rows.specs.Reads.{assign_at, conn_at, inst_at, module_at, net_at, numbered_expr, port_at, HasLeavesFrom, IsAssign, IsConn, IsExprHead, IsInst, IsModule, IsNet, IsPort};
ghost use Rattle.module_rows.specs.Sound.{AreRows};
ghost use Rattle.module_rows.specs.View.{netlist_of};

use crate::heads::{ConnHead, ExprHead, InstHead, ModuleHead};
use crate::tables::{AssignRow, NetRow, PortRow, Rows};
use pw_defs::{List, Memory, Module};
use std::alloc::Global;
use std::marker::Model;

/// The modules of a job, seen as the plain modules with their symbols and expressions.
#[derive(Drop)]
pub struct Modules {
    rows: Rows,
}

impl Model for Modules {
    ghost use Rattle.module_rows.specs.declared.plain.Netlist.{Netlist as PlainNetlist};
    ghost use Rattle.std.specs.Coded.{codes};
    ghost use Rattle.pw_defs.specs.contracts.netlist.Expr as expr;

    ghost Value = { PlainNetlist };

    ghost coded = { Prim.hlevel (codes, expr.the_row.coded) };

    ghost use Rattle.module_rows.specs.Sound.{AreRows};
    ghost use Rattle.module_rows.specs.View.{netlist_of};

    ghost view = { λ m. netlist_of m.rows };

    ghost invariant = { λ m. AreRows m.rows };
}

impl Modules {
    /// The modules of rows.
    pub fn new(rows: Rows) -> Modules
        requires { AreRows rows }
        ensures { result ≡ netlist_of rows }
    {
        Modules { rows }
    }

    /// How many modules there are.
    pub fn len(&self) -> u32
        ensures { result ≡ length self.now.modules }
    {
        self.rows.modules.len()
    }

    /// How many symbols there are. No two of them are spelled the same.
    pub fn symbols(&self) -> u32
        ensures len { result ≡ length self.now.symbols }
        ensures differ { all_differ same_name self.now.symbols ≡ true }
    {
        self.rows.terms.symbols.len()
    }

    /// The symbol of a spelling, `None` where nothing is spelled so.
    pub fn symbol(&self, name: &[u8]) -> Option<u32>
        ensures { result ≡ place_of (same_name name.now) self.now.symbols }
    {
        self.rows.terms.symbols.find(name)
    }

    /// The spelling of a symbol.
    pub fn spelling(&self, symbol: u32) -> &[u8]
        requires { symbol < length self.now.symbols }
        ensures { slice_get self.now.symbols symbol ≡ Some result.now }
    {
        self.rows.terms.symbols.name(symbol)
    }

    /// What is read of a module by its number, which the calls below name `holder`.
    pub fn module(&self, holder: u32) -> ModuleHead
        requires { holder < length self.now.modules }
        ensures { IsModule self.now (module_at self.now holder) result }
    {
        self.rows.module(holder)
    }

    /// A port of a module.
    pub fn port(&self, holder: u32, port: u32) -> PortRow
        requires holder { holder < length self.now.modules }
        requires port { port < length (module_at self.now holder).ports }
        ensures { IsPort self.now (port_at self.now holder port) result }
    {
        self.rows.port(holder, port)
    }

    /// A declared wire of a module.
    pub fn net(&self, holder: u32, net: u32) -> NetRow
        requires holder { holder < length self.now.modules }
        requires net { net < length (module_at self.now holder).nets }
        ensures { IsNet self.now (net_at self.now holder net) result }
    {
        self.rows.net(holder, net)
    }

    /// An assignment of a module.
    pub fn assign(&self, holder: u32, assign: u32) -> AssignRow
        requires holder { holder < length self.now.modules }
        requires assign { assign < length (module_at self.now holder).assigns }
        ensures { IsAssign self.now (assign_at self.now holder assign) result }
    {
        self.rows.assign(holder, assign)
    }

    /// What is read of an instance of a module.
    pub fn inst(&self, holder: u32, inst: u32) -> InstHead
        requires holder { holder < length self.now.modules }
        requires inst { inst < length (module_at self.now holder).insts }
        ensures { IsInst self.now (inst_at self.now holder inst) result }
    {
        self.rows.inst(holder, inst)
    }

    /// A connection of an instance of a module.
    pub fn conn(&self, holder: u32, inst: u32, conn: u32) -> ConnHead
        requires holder { holder < length self.now.modules }
        requires inst { inst < length (module_at self.now holder).insts }
        requires conn { conn < length (inst_at self.now holder inst).conns }
        ensures { IsConn self.now (conn_at self.now holder inst conn) result }
    {
        self.rows.conn(holder, inst, conn)
    }

    /// How many expressions there are, in all modules.
    pub fn exprs(&self) -> u32
        ensures { result ≡ length self.now.exprs }
    {
        self.rows.terms.exprs.len()
    }

    /// What is read of an expression.
    pub fn expr(&self, expr: u32) -> ExprHead
        requires { expr < length self.now.exprs }
        ensures { IsExprHead self.now (numbered_expr self.now expr) result }
    {
        self.rows.expr(expr)
    }

    /// The number from which on the expressions, up to this one, are the names and constants in it. Concatenations among
    /// them are passed over.
    pub fn first_leaf(&self, expr: u32) -> u32
        requires { expr < length self.now.exprs }
        ensures { HasLeavesFrom self.now expr result }
    {
        self.rows.first_leaf(expr)
    }

    /// The name, the ports and the line of each module.
    pub fn heads(&self, alloc: Global) -> Result<List<Module>, Memory>
        ensures { IfOk result (λ heads. heads ≡ map head_of self.now.modules) }
    {
        self.rows.heads(alloc)
    }
}
