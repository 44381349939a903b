//! The rows of connections and assignments.
ghost use Rattle.std.specs.Prelude.{◌≡◌, ◌+◌, ◌<◌, ◌≤◌, ◌++◌, ℕ, [], IfOk, Some, length};
ghost use Rattle.std.specs.List.{flat_map};
ghost use Rattle.pw_defs.specs.declared.netlist.Expr.{Expr as PlainExpr};
ghost use Rattle.pw_defs.specs.declared.netlist.Inst.{Inst as PlainInst};
ghost use Rattle.pw_defs.specs.declared.netlist.Module.{Module as PlainModule};
ghost use Rattle.pw_defs.specs.declared.netlist.Port.{Port as PlainPort};
ghost use Rattle.list_defs.specs.Members.{IsIn};
ghost use Rattle.design_defs.specs.Hierarchy.{Sources};
ghost use Rattle.design_defs.specs.Links.{links_between, links_of_assign, links_of_conn};
ghost use Rattle.design_defs.specs.Places.{exprs_in, misselected, signals};
ghost use Rattle.design_defs.specs.Ranges.{width};
ghost use Rattle.module_rows.specs.Reads.{assign_at, conn_at, inst_at, module_at, numbered_expr};
ghost use Rattle.net_links.specs.Adding.{AddsLinks, AreSourcesOf, HasOpen, HasPortBits, IsLinkable};
ghost use Rattle.net_links.specs.LocalLinks.{locals};
ghost use Rattle.net_links.specs.RunLinks.{AreFew, locals_of_port};
ghost use Rattle.net_runs.specs.Leaves.{runs_bits};
ghost use Rattle.net_runs.specs.LocalNumbers.{HasFewBits};

use crate::pieces::{InstLine, put_inputs, put_outputs, put_sides};
use crate::ports::{Linker, PortPlace, port_at};
use crate::rows::LinkRow;
use net_runs::Run;
use pw_defs::{Dir, List, Memory};

/// Adds the rows of runs that are connected to a port.
fn put_port(
    inst: InstLine,
    port: PortPlace,
    runs: &[Run],
    rows: &mut List<LinkRow>,
) -> Result<(), Memory>
    ensures { IfOk result (λ _. AreFew (runs_bits runs.now) → port.first + length (runs_bits runs.now) ≤ 4294967295
        → locals rows.new ≡ locals rows.old ++ locals_of_port port.dir inst.number inst.line port.first (runs_bits runs.now)) }
{
    match port.dir {
        Dir::Input => {
            put_inputs(inst, port.first, runs, rows)?;
            Ok(())
        }
        Dir::Output => {
            put_outputs(inst, port.first, runs, rows)?;
            Ok(())
        }
    }
}

/// Adds the rows of an expression that is connected to a port.
fn add_connected(
    linker: &Linker,
    inst: InstLine,
    port: PortPlace,
    expr: u32,
    runs: &mut Vec<Run>,
    rows: &mut List<LinkRow>,
) -> Result<(), Memory>
    requires { expr < length linker.now.lookup.netlist.exprs }
    ensures { IfOk result (λ _. (s : Sources) → AreSourcesOf linker.now s → (number : ℕ) → HasOpen linker.now number → (m : PlainModule) → IsLinkable s number m
        → (i : PlainInst) → i.line ≡ inst.line → (p : PlainPort) → port.dir ≡ p.dir → (has : HasPortBits s m inst.number i p port.first) → HasFewBits s has.body
        → (e : PlainExpr) → numbered_expr linker.now.lookup.netlist expr ≡ e → IsIn e (exprs_in m) → misselected m e ≡ [] → length (signals m e) ≡ width p.range
        → AddsLinks s number m (links_between m i (Some p) (Some e)) rows.old rows.new) }
{
    if !linker.lookup.runs(expr, runs)? {
        return Ok(());
    }
    put_port(inst, port, runs.as_slice(), rows)?;
    Ok(())
}

/// Adds the rows of a connection.
fn add_conn(
    linker: &Linker,
    holder: u32,
    inst: InstLine,
    conn: u32,
    runs: &mut Vec<Run>,
    rows: &mut List<LinkRow>,
) -> Result<(), Memory>
    requires open { HasOpen linker.now holder }
    requires holder { holder < length linker.now.spellings.modules.now.modules }
    requires inst { inst.number < length (module_at linker.now.spellings.modules.now holder).insts }
    requires conn { conn < length (inst_at linker.now.spellings.modules.now holder inst.number).conns }
    requires line { inst.line ≡ (inst_at linker.now.spellings.modules.now holder inst.number).line }
    ensures { IfOk result (λ _. (s : Sources) → AreSourcesOf linker.now s → (m : PlainModule) → IsLinkable s holder m
        → AddsLinks s holder m (links_of_conn s m (inst_at linker.now.spellings.modules.now holder inst.number) (conn_at linker.now.spellings.modules.now holder inst.number conn)) rows.old rows.new) }
{
    let head = linker.spellings.modules.conn(holder, inst.number, conn);
    let Some(expr) = head.expr else {
        return Ok(());
    };
    let Some(port) = port_at(linker, holder, inst.number, head.port) else {
        return Ok(());
    };
    add_connected(linker, inst, port, expr, runs, rows)?;
    Ok(())
}

/// Adds the rows of the connections of an instance.
fn add_conns(
    linker: &Linker,
    holder: u32,
    inst: u32,
    runs: &mut Vec<Run>,
    rows: &mut List<LinkRow>,
) -> Result<(), Memory>
    requires open { HasOpen linker.now holder }
    requires holder { holder < length linker.now.spellings.modules.now.modules }
    requires inst { inst < length (module_at linker.now.spellings.modules.now holder).insts }
    ensures { IfOk result (λ _. (s : Sources) → AreSourcesOf linker.now s → (m : PlainModule) → IsLinkable s holder m
        → AddsLinks s holder m (flat_map (links_of_conn s m (inst_at linker.now.spellings.modules.now holder inst)) (inst_at linker.now.spellings.modules.now holder inst).conns) rows.old rows.new) }
{
    let head = linker.spellings.modules.inst(holder, inst);
    let line = InstLine {
        number: inst,
        line: head.line,
    };
    for conn in 0..head.conns {
        add_conn(linker, holder, line, conn, runs, rows)?;
    }
    Ok(())
}

/// Adds the rows of the connections of all instances of a module.
pub(crate) fn add_insts(
    linker: &Linker,
    holder: u32,
    runs: &mut Vec<Run>,
    rows: &mut List<LinkRow>,
) -> Result<(), Memory>
    requires open { HasOpen linker.now holder }
    requires holder { holder < length linker.now.spellings.modules.now.modules }
    ensures { IfOk result (λ _. (s : Sources) → AreSourcesOf linker.now s → (m : PlainModule) → IsLinkable s holder m
        → AddsLinks s holder m (flat_map (λ (i : PlainInst). flat_map (links_of_conn s m i) i.conns) m.insts) rows.old rows.new) }
{
    for inst in 0..linker.spellings.modules.module(holder).insts {
        add_conns(linker, holder, inst, runs, rows)?;
    }
    Ok(())
}

/// Adds the rows of an assignment.
fn add_assign(
    linker: &Linker,
    holder: u32,
    assign: u32,
    left: &mut Vec<Run>,
    right: &mut Vec<Run>,
    rows: &mut List<LinkRow>,
) -> Result<(), Memory>
    requires open { HasOpen linker.now holder }
    requires holder { holder < length linker.now.spellings.modules.now.modules }
    requires assign { assign < length (module_at linker.now.spellings.modules.now holder).assigns }
    ensures { IfOk result (λ _. (s : Sources) → AreSourcesOf linker.now s → (m : PlainModule) → IsLinkable s holder m
        → AddsLinks s holder m (links_of_assign m (assign_at linker.now.spellings.modules.now holder assign)) rows.old rows.new) }
{
    let sides = linker.spellings.modules.assign(holder, assign);
    if !linker.lookup.runs(sides.left, left)? {
        return Ok(());
    }
    if !linker.lookup.runs(sides.right, right)? {
        return Ok(());
    }
    left.reverse();
    right.reverse();
    put_sides(left, right, sides.line, rows)?;
    Ok(())
}

/// Adds the rows of the assignments of a module.
pub(crate) fn add_assigns(
    linker: &Linker,
    holder: u32,
    left: &mut Vec<Run>,
    right: &mut Vec<Run>,
    rows: &mut List<LinkRow>,
) -> Result<(), Memory>
    requires open { HasOpen linker.now holder }
    requires holder { holder < length linker.now.spellings.modules.now.modules }
    ensures { IfOk result (λ _. (s : Sources) → AreSourcesOf linker.now s → (m : PlainModule) → IsLinkable s holder m
        → AddsLinks s holder m (flat_map (links_of_assign m) m.assigns) rows.old rows.new) }
{
    for assign in 0..linker.spellings.modules.module(holder).assigns {
        add_assign(linker, holder, assign, left, right, rows)?;
    }
    Ok(())
}
