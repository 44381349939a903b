//! The nets of one module at a time, and what the names and constants of its expressions stand for.
ghost use Rattle.std.specs.Prelude.{◌≡◌, ◌<◌, IfOk, MatchOption, None, length};
ghost use Rattle.std.specs.List.{flat_map};
ghost use Rattle.pw_defs.specs.declared.design.Body.TheVariants.{Module as ModuleBody};
ghost use Rattle.pw_defs.specs.declared.netlist.Expr.TheVariants.{Whole as WholeExpr};
ghost use Rattle.pw_defs.specs.declared.netlist.Module.{Module as PlainModule};
ghost use Rattle.list_defs.specs.Members.{IsIn};
ghost use Rattle.design_defs.specs.Hierarchy.{Sources};
ghost use Rattle.design_defs.specs.Places.{declared_range, exprs_in, names_alone, selected};
ghost use Rattle.module_rows.specs.Reads.{numbered_expr};
ghost use Rattle.module_rows.specs.View.{name_at};
ghost use Rattle.net_places.specs.Nets.{own_net};
ghost use Rattle.net_runs.specs.Known.{AreUnknown, IsNetRow, IsOpen};
ghost use Rattle.net_runs.specs.Leaves.{AddsRun, AreRuns, IsLeafRun, IsRun, IsSelection, StandsIn};

use crate::known::{Known, known_at, note_nets};
use crate::runs::{Run, part_run};
use module_rows::{ExprHead, Modules};
use net_places::{NetRow, Plans, width};
use pw_defs::{Body, Memory};
use std::alloc::Global;
use std::marker::Model;

/// The nets of one module at a time, by the symbols of their names. It is made once for all modules, and `open` goes on to
/// the next.
#[derive(Drop)]
pub struct Lookup<'a> {
    modules: &'a Modules,
    plans: &'a Plans,
    holder: u32,
    known: Vec<Option<Known>>,
}

impl<'a> Model for Lookup<'a> {
    ghost use Rattle.net_runs.specs.declared.plain.Opened.{Opened as PlainOpened};
    ghost use Rattle.std.specs.Coded.{codes};
    ghost use Rattle.pw_defs.specs.contracts.netlist.Expr as expr;
    ghost use Rattle.net_runs.specs.Known.{AreAllKnown};

    ghost Value = { PlainOpened };

    ghost coded = { Prim.hlevel (codes, expr.the_row.coded) };

    ghost view = { λ l. record { netlist = l.modules.now; plans = l.plans.now; holder = l.holder } };

    ghost invariant = { λ l. AreAllKnown l.modules.now.symbols l.plans.now l.holder l.known.items };
}

/// Nothing is known of any symbol.
fn nothing(alloc: Global, modules: &Modules) -> Result<Vec<Option<Known>>, Memory>
    ensures { IfOk result (λ known. AreUnknown modules.now.symbols known.items) }
{
    let known = vec![in alloc; None; modules.symbols() as usize]?;
    Ok(known)
}

impl<'a> Lookup<'a> {
    /// A lookup of these modules with their plans. The first module is open.
    pub fn new(alloc: Global, modules: &'a Modules, plans: &'a Plans) -> Result<Lookup<'a>, Memory>
        ensures { IfOk result (λ lookup. lookup ≡ record { netlist = modules.now; plans = plans.now; holder = 0 }) }
    {
        let mut known = nothing(alloc, modules)?;
        note_nets(plans, 0, &mut known);
        Ok(Lookup {
            modules,
            plans,
            holder: 0,
            known,
        })
    }

    /// Opens a module, whose nets are looked up from now on. This takes the time of its nets alone.
    pub fn open(&mut self, holder: u32)
        ensures { self.new ≡ record self.old { holder = holder } }
    {
        note_nets(self.plans, holder, &mut self.known);
        self.holder = holder;
    }

    /// The net of a name in the module that is open, by the name's symbol, `None` where the module has no such net.
    pub fn net(&self, symbol: u32) -> Option<NetRow>
        requires { symbol < length self.now.netlist.symbols }
        ensures { (s : Sources) → (m : PlainModule) → IsOpen s self.now m
            → MatchOption result (own_net s (ModuleBody self.now.holder) (name_at self.now.netlist.symbols symbol) ≡ None)
            (IsNetRow s (ModuleBody self.now.holder) (name_at self.now.netlist.symbols symbol)) }
    {
        let known = known_at(self.known.as_slice(), symbol)?;
        if known.holder == self.holder {
            self.plans.net(Body::Module(self.holder), known.net)
        } else {
            None
        }
    }

    /// What a name that stands alone stands for.
    fn whole(&self, symbol: u32) -> Option<Run>
        requires { symbol < length self.now.netlist.symbols }
        ensures { (s : Sources) → (m : PlainModule) → IsOpen s self.now m
            → IsIn (name_at self.now.netlist.symbols symbol) (flat_map names_alone (exprs_in m))
            → IsRun s self.now.holder m (WholeExpr (name_at self.now.netlist.symbols symbol)) result }
    {
        let row = self.net(symbol)?;
        Some(Run::Bits {
            first: row.first,
            count: width(row.range),
        })
    }

    /// What a select of a name stands for.
    fn selected(&self, symbol: u32, left: u32, right: u32) -> Option<Run>
        requires { symbol < length self.now.netlist.symbols }
        ensures { (s : Sources) → (m : PlainModule) → IsOpen s self.now m
            → IsSelection s self.now.holder (selected (name_at self.now.netlist.symbols symbol) (declared_range m (name_at self.now.netlist.symbols symbol)) left right) result }
    {
        let row = self.net(symbol)?;
        part_run(row, left, right)
    }

    /// What an expression of the module that is open stands for, which is a name, with a select or without, or a constant.
    /// A concatenation has an empty run, since what is in it is read by the numbers of the expressions before it.
    ///
    /// `None` where the name is selected outside its range, against its direction or of a scalar, where a name with a
    /// select is not declared, and where a name alone is that of an instance.
    pub fn leaf(&self, expr: u32) -> Option<Run>
        requires { expr < length self.now.netlist.exprs }
        ensures { (s : Sources) → (m : PlainModule) → IsOpen s self.now m → StandsIn self.now.netlist m expr
            → IsLeafRun s self.now.holder m (numbered_expr self.now.netlist expr) result }
    {
        match self.modules.expr(expr) {
            ExprHead::Whole(name) => self.whole(name),
            ExprHead::Bit(name, index) => self.selected(name, index, index),
            ExprHead::Part(name, left, right) => self.selected(name, left, right),
            ExprHead::Const(count) => Some(Run::Constants {
                count: u64::from(count),
            }),
            ExprHead::Join => Some(Run::Constants { count: 0 }),
        }
    }

    /// Adds the run of an expression, and says whether it is there.
    fn add_run(&self, expr: u32, runs: &mut Vec<Run>) -> Result<bool, Memory>
        requires { expr < length self.now.netlist.exprs }
        ensures { IfOk result (λ there. (s : Sources) → (m : PlainModule) → IsOpen s self.now m → StandsIn self.now.netlist m expr
            → AddsRun s self.now.holder m (numbered_expr self.now.netlist expr) runs.old.items runs.new.items there) }
    {
        match self.leaf(expr) {
            Some(run) => {
                runs.push(run)?;
                Ok(true)
            }
            None => Ok(false),
        }
    }

    /// What an expression in the lines of the module that is open stands for, from the left, in `runs` in place of what is
    /// there. The answer is whether all of it is there: `false` where a name is selected wrongly.
    pub fn runs(&self, expr: u32, runs: &mut Vec<Run>) -> Result<bool, Memory>
        requires { expr < length self.now.netlist.exprs }
        ensures { IfOk result (λ there. (s : Sources) → (m : PlainModule) → IsOpen s self.now m → IsIn (numbered_expr self.now.netlist expr) (exprs_in m)
            → AreRuns s self.now.holder m (numbered_expr self.now.netlist expr) runs.new.items there) }
    {
        runs.clear();
        for leaf in self.modules.first_leaf(expr)..expr {
            if !self.add_run(leaf, runs)? {
                return Ok(false);
            }
        }
        let all = self.add_run(expr, runs)?;
        Ok(all)
    }
}
