//! What the lines of a module mention: ports, declared wires, instances, and names that stand alone in an expression.
ghost use Rattle.std.specs.Prelude.{◌<◌, IfOk, IfSome, length, map};
ghost use Rattle.std.specs.List.{flat_map};
ghost use Rattle.pw_defs.specs.declared.netlist.Conn.{Conn};
ghost use Rattle.module_rows.specs.Reads.{assign_at, inst_at, module_at, numbered_expr, IsNumbered};
ghost use Rattle.net_places.specs.Gathered.{Gathers};
ghost use Rattle.net_places.specs.Mentions.{of_assign, of_conn, of_conns, of_expr, of_inst, of_leaf, of_module, of_ports, of_wire};

use crate::gathering::{Gathering, mention_inst, mention_net};
use crate::rows::NetRow;
use module_rows::{ExprHead, Modules};
use pw_defs::Memory;

/// The ports of a module.
fn mention_ports<'a>(
    modules: &'a Modules,
    holder: u32,
    mark: u32,
    gathering: &mut Gathering<'a>,
) -> Result<(), Memory>
    requires { holder < length modules.now.modules }
    ensures { IfOk result (λ _. Gathers modules.now.symbols mark gathering.old gathering.new (of_ports 0 (module_at modules.now holder).ports)) }
{
    for number in 0..modules.module(holder).ports {
        let port = modules.port(holder, number);
        let row = NetRow {
            name: port.name,
            range: port.range,
            port: Some(number),
            first: 0,
        };
        mention_net(modules, mark, row, gathering)?;
    }
    Ok(())
}

/// The declared wires of a module.
fn mention_wires<'a>(
    modules: &'a Modules,
    holder: u32,
    mark: u32,
    gathering: &mut Gathering<'a>,
) -> Result<(), Memory>
    requires { holder < length modules.now.modules }
    ensures { IfOk result (λ _. Gathers modules.now.symbols mark gathering.old gathering.new (map of_wire (module_at modules.now holder).nets)) }
{
    for number in 0..modules.module(holder).nets {
        let wire = modules.net(holder, number);
        let row = NetRow {
            name: wire.name,
            range: wire.range,
            port: None,
            first: 0,
        };
        mention_net(modules, mark, row, gathering)?;
    }
    Ok(())
}

/// The instances of a module.
fn mention_insts(modules: &Modules, holder: u32, mark: u32, gathering: &mut Gathering)
    requires { holder < length modules.now.modules }
    ensures { Gathers modules.now.symbols mark gathering.old gathering.new (map of_inst (module_at modules.now holder).insts) }
{
    for number in 0..modules.module(holder).insts {
        mention_inst(modules, mark, modules.inst(holder, number).name, gathering);
    }
}

/// An expression that is a name alone.
fn mention_leaf<'a>(
    modules: &'a Modules,
    leaf: u32,
    mark: u32,
    gathering: &mut Gathering<'a>,
) -> Result<(), Memory>
    requires { leaf < length modules.now.exprs }
    ensures { IfOk result (λ _. Gathers modules.now.symbols mark gathering.old gathering.new (of_leaf (numbered_expr modules.now leaf))) }
{
    match modules.expr(leaf) {
        ExprHead::Whole(name) => {
            let row = NetRow {
                name,
                range: None,
                port: None,
                first: 0,
            };
            mention_net(modules, mark, row, gathering)?;
            Ok(())
        }
        ExprHead::Bit(..) => Ok(()),
        ExprHead::Part(..) => Ok(()),
        ExprHead::Const(_) => Ok(()),
        ExprHead::Join => Ok(()),
    }
}

/// The names that stand alone in an expression.
fn mention_expr<'a>(
    modules: &'a Modules,
    expr: u32,
    mark: u32,
    gathering: &mut Gathering<'a>,
) -> Result<(), Memory>
    requires { expr < length modules.now.exprs }
    ensures { IfOk result (λ _. Gathers modules.now.symbols mark gathering.old gathering.new (of_expr (numbered_expr modules.now expr))) }
{
    for leaf in modules.first_leaf(expr)..expr {
        mention_leaf(modules, leaf, mark, gathering)?;
    }
    mention_leaf(modules, expr, mark, gathering)?;
    Ok(())
}

/// The names that stand alone in what is connected to an instance.
fn mention_conns<'a>(
    modules: &'a Modules,
    holder: u32,
    inst: u32,
    mark: u32,
    gathering: &mut Gathering<'a>,
) -> Result<(), Memory>
    requires holder { holder < length modules.now.modules }
    requires inst { inst < length (module_at modules.now holder).insts }
    ensures { IfOk result (λ _. Gathers modules.now.symbols mark gathering.old gathering.new (of_conns (inst_at modules.now holder inst))) }
{
    for conn in 0..modules.inst(holder, inst).conns {
        mention_conn(
            modules,
            modules.conn(holder, inst, conn).expr,
            mark,
            gathering,
        )?;
    }
    Ok(())
}

/// The names that stand alone in what is connected, if anything is.
fn mention_conn<'a>(
    modules: &'a Modules,
    expr: Option<u32>,
    mark: u32,
    gathering: &mut Gathering<'a>,
) -> Result<(), Memory>
    requires { IfSome expr (λ n. n < length modules.now.exprs) }
    ensures { IfOk result (λ _. (c : Conn) → IsNumbered modules.now.exprs c.expr expr → Gathers modules.now.symbols mark gathering.old gathering.new (of_conn c)) }
{
    match expr {
        Some(expr) => {
            mention_expr(modules, expr, mark, gathering)?;
            Ok(())
        }
        None => Ok(()),
    }
}

/// The names that stand alone in what is connected to all instances of a module.
fn mention_connected<'a>(
    modules: &'a Modules,
    holder: u32,
    mark: u32,
    gathering: &mut Gathering<'a>,
) -> Result<(), Memory>
    requires { holder < length modules.now.modules }
    ensures { IfOk result (λ _. Gathers modules.now.symbols mark gathering.old gathering.new (flat_map of_conns (module_at modules.now holder).insts)) }
{
    for inst in 0..modules.module(holder).insts {
        mention_conns(modules, holder, inst, mark, gathering)?;
    }
    Ok(())
}

/// The names that stand alone in an assignment of a module.
fn mention_assign<'a>(
    modules: &'a Modules,
    holder: u32,
    assign: u32,
    mark: u32,
    gathering: &mut Gathering<'a>,
) -> Result<(), Memory>
    requires holder { holder < length modules.now.modules }
    requires assign { assign < length (module_at modules.now holder).assigns }
    ensures { IfOk result (λ _. Gathers modules.now.symbols mark gathering.old gathering.new (of_assign (assign_at modules.now holder assign))) }
{
    let sides = modules.assign(holder, assign);
    mention_expr(modules, sides.left, mark, gathering)?;
    mention_expr(modules, sides.right, mark, gathering)?;
    Ok(())
}

/// The names that stand alone in the assignments of a module.
fn mention_assigns<'a>(
    modules: &'a Modules,
    holder: u32,
    mark: u32,
    gathering: &mut Gathering<'a>,
) -> Result<(), Memory>
    requires { holder < length modules.now.modules }
    ensures { IfOk result (λ _. Gathers modules.now.symbols mark gathering.old gathering.new (flat_map of_assign (module_at modules.now holder).assigns)) }
{
    for assign in 0..modules.module(holder).assigns {
        mention_assign(modules, holder, assign, mark, gathering)?;
    }
    Ok(())
}

/// All that a module mentions.
pub(crate) fn mention_module<'a>(
    modules: &'a Modules,
    holder: u32,
    mark: u32,
    gathering: &mut Gathering<'a>,
) -> Result<(), Memory>
    requires { holder < length modules.now.modules }
    ensures { IfOk result (λ _. Gathers modules.now.symbols mark gathering.old gathering.new (of_module (module_at modules.now holder))) }
{
    mention_ports(modules, holder, mark, gathering)?;
    mention_wires(modules, holder, mark, gathering)?;
    mention_insts(modules, holder, mark, gathering);
    mention_connected(modules, holder, mark, gathering)?;
    mention_assigns(modules, holder, mark, gathering)?;
    Ok(())
}
