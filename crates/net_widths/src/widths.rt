//! Lines whose sides have different widths, or select names wrongly.
ghost use Rattle.std.specs.Prelude.{◌≡◌, ◌<◌, ℕ, IfOk, IfSome, None, Some, length, map, slice_get};
ghost use Rattle.std.specs.List.{flat_map};
ghost use Rattle.pw_defs.specs.declared.netlist.Conn.{Conn as PlainConn};
ghost use Rattle.pw_defs.specs.declared.netlist.Inst.{Inst as PlainInst};
ghost use Rattle.pw_defs.specs.declared.netlist.Module.{Module as PlainModule};
ghost use Rattle.list_defs.specs.Members.{IsIn};
ghost use Rattle.design_defs.specs.DesignFaults.{FaultKind};
ghost use Rattle.design_defs.specs.Hierarchy.{Sources, type_of};
ghost use Rattle.module_rows.specs.Reads.{assign_at, inst_at, module_at, IsConn};
ghost use Rattle.net_hierarchy.specs.Graph.{types_of};
ghost use Rattle.net_least.specs.OwnFaults.{AreOwn};
ghost use Rattle.net_places.specs.Plans.{ArePlans, IsOf};
ghost use Rattle.net_runs.specs.Known.{IsOpen};
ghost use Rattle.net_widths.specs.Ports.{IsSeen};
ghost use Rattle.net_widths.specs.Refusals.{Finds, widths_of_assign, widths_of_conn, widths_of_inst, widths_of_module};

use crate::names::first_name;
use crate::ports::{type_in, type_width};
use crate::refusals::refuse_unequal;
use crate::sides::side_of;
use module_rows::ConnHead;
use net_least::OwnFault;
use net_places::{Plans, Spellings};
use net_runs::Lookup;
use pw_defs::{Body, List, Memory};
use std::alloc::Global;

/// What is connected to a port of an instance.
fn conn_width(
    plans: &Plans,
    spellings: &Spellings,
    lookup: &Lookup,
    kind: Option<Body>,
    line: u32,
    conn: ConnHead,
    best: Option<OwnFault>,
) -> Result<Option<OwnFault>, Memory>
    requires netlist { lookup.now.netlist ≡ spellings.now.modules.now }
    requires expr { IfSome conn.expr (λ n. n < length spellings.now.modules.now.exprs) }
    ensures { IfOk result (λ after. (s : Sources) → (m : PlainModule) → (i : PlainInst) → (c : PlainConn) → IsSeen s spellings.now plans.now → IsOpen s lookup.now m
        → IsIn i m.insts → IsIn c i.conns → kind ≡ type_of s i.kind → line ≡ i.line → IsConn spellings.now.modules.now c conn
        → Finds spellings.now.modules.now.symbols best after (widths_of_conn s m i c)) }
{
    match conn.expr {
        Some(expr) => {
            let side = side_of(spellings.modules, lookup, expr, line, best)?;
            let width = type_width(plans, spellings, kind, conn.port);
            let found = refuse_unequal(
                spellings.modules,
                side.best,
                line,
                side.width,
                width,
                Some(conn.port),
            );
            Ok(found)
        }
        None => Ok(best),
    }
}

/// What is connected to an instance.
fn inst_widths(
    plans: &Plans,
    spellings: &Spellings,
    lookup: &Lookup,
    kind: Option<Body>,
    holder: u32,
    inst: u32,
    best: Option<OwnFault>,
) -> Result<Option<OwnFault>, Memory>
    requires netlist { lookup.now.netlist ≡ spellings.now.modules.now }
    requires holder { holder < length spellings.now.modules.now.modules }
    requires inst { inst < length (module_at spellings.now.modules.now holder).insts }
    ensures { IfOk result (λ after. (s : Sources) → IsSeen s spellings.now plans.now → IsOpen s lookup.now (module_at spellings.now.modules.now holder)
        → kind ≡ type_of s (inst_at spellings.now.modules.now holder inst).kind
        → Finds spellings.now.modules.now.symbols best after
        (widths_of_inst s (module_at spellings.now.modules.now holder) (inst_at spellings.now.modules.now holder inst))) }
{
    let head = spellings.modules.inst(holder, inst);
    let mut least = best;
    for number in 0..head.conns {
        let conn = spellings.modules.conn(holder, inst, number);
        least = conn_width(plans, spellings, lookup, kind, head.line, conn, least)?;
    }
    Ok(least)
}

/// What is connected to the instances of a module.
fn insts_widths(
    plans: &Plans,
    spellings: &Spellings,
    lookup: &Lookup,
    row: &[Option<Body>],
    holder: u32,
) -> Result<Option<OwnFault>, Memory>
    requires netlist { lookup.now.netlist ≡ spellings.now.modules.now }
    requires holder { holder < length spellings.now.modules.now.modules }
    ensures { IfOk result (λ after. (s : Sources) → IsSeen s spellings.now plans.now → IsOpen s lookup.now (module_at spellings.now.modules.now holder)
        → row.now ≡ map (λ i. type_of s i.kind) (module_at spellings.now.modules.now holder).insts
        → Finds spellings.now.modules.now.symbols None after
        (flat_map (widths_of_inst s (module_at spellings.now.modules.now holder)) (module_at spellings.now.modules.now holder).insts)) }
{
    let mut least = None;
    for inst in 0..spellings.modules.module(holder).insts {
        let kind = type_in(row, inst);
        least = inst_widths(plans, spellings, lookup, kind, holder, inst, least)?;
    }
    Ok(least)
}

/// An assignment of a module.
fn assign_width(
    spellings: &Spellings,
    lookup: &Lookup,
    holder: u32,
    assign: u32,
    best: Option<OwnFault>,
) -> Result<Option<OwnFault>, Memory>
    requires netlist { lookup.now.netlist ≡ spellings.now.modules.now }
    requires holder { holder < length spellings.now.modules.now.modules }
    requires assign { assign < length (module_at spellings.now.modules.now holder).assigns }
    ensures { IfOk result (λ after. (s : Sources) → IsOpen s lookup.now (module_at spellings.now.modules.now holder)
        → Finds spellings.now.modules.now.symbols best after
        (widths_of_assign (module_at spellings.now.modules.now holder) (assign_at spellings.now.modules.now holder assign))) }
{
    let sides = spellings.modules.assign(holder, assign);
    let left = side_of(spellings.modules, lookup, sides.left, sides.line, best)?;
    let right = side_of(
        spellings.modules,
        lookup,
        sides.right,
        sides.line,
        left.best,
    )?;
    let found = refuse_unequal(
        spellings.modules,
        right.best,
        sides.line,
        left.width,
        right.width,
        first_name(spellings.modules, sides.left),
    );
    Ok(found)
}

/// The assignments of a module.
fn assigns_widths(
    spellings: &Spellings,
    lookup: &Lookup,
    holder: u32,
    best: Option<OwnFault>,
) -> Result<Option<OwnFault>, Memory>
    requires netlist { lookup.now.netlist ≡ spellings.now.modules.now }
    requires holder { holder < length spellings.now.modules.now.modules }
    ensures { IfOk result (λ after. (s : Sources) → IsOpen s lookup.now (module_at spellings.now.modules.now holder)
        → Finds spellings.now.modules.now.symbols best after
        (flat_map (widths_of_assign (module_at spellings.now.modules.now holder)) (module_at spellings.now.modules.now holder).assigns)) }
{
    let mut least = best;
    for assign in 0..spellings.modules.module(holder).assigns {
        least = assign_width(spellings, lookup, holder, assign, least)?;
    }
    Ok(least)
}

/// All lines of a module.
fn module_widths(
    plans: &Plans,
    spellings: &Spellings,
    lookup: &Lookup,
    row: &[Option<Body>],
    holder: u32,
) -> Result<Option<OwnFault>, Memory>
    requires netlist { lookup.now.netlist ≡ spellings.now.modules.now }
    requires holder { holder < length spellings.now.modules.now.modules }
    ensures { IfOk result (λ after. (s : Sources) → IsSeen s spellings.now plans.now → IsOpen s lookup.now (module_at spellings.now.modules.now holder)
        → row.now ≡ map (λ i. type_of s i.kind) (module_at spellings.now.modules.now holder).insts
        → Finds spellings.now.modules.now.symbols None after (widths_of_module s (module_at spellings.now.modules.now holder))) }
{
    let connected = insts_widths(plans, spellings, lookup, row, holder)?;
    let found = assigns_widths(spellings, lookup, holder, connected)?;
    Ok(found)
}

/// The first line of each module, by line, then by the name that is refused, that selects a name wrongly, or connects to a
/// port or assigns something of another width.
///
/// Each name and constant is looked at once, and each port is looked up by halves of the nets of the type. Errors: want of
/// memory.
pub fn width_faults(
    alloc: Global,
    spellings: &Spellings,
    types: &List<List<Option<Body>>>,
    plans: &Plans,
) -> Result<Vec<Option<OwnFault>>, Memory>
    ensures { IfOk result (λ own. (s : Sources) → IsOf spellings.now.modules.now spellings.now.cells.now spellings.now.models.now s → types.now ≡ types_of s
        → ArePlans s spellings.now.modules.now.symbols plans.now → AreOwn s FaultKind.wrong_width spellings.now.modules.now.symbols own.items) }
{
    let mut own = Vec::new(alloc);
    let mut lookup = Lookup::new(alloc, spellings.modules, plans)?;
    for holder in 0..spellings.modules.len() {
        lookup.open(holder);
        match types.get(holder) {
            Some(row) => {
                let found = module_widths(plans, spellings, &lookup, row.as_slice(), holder)?;
                own.push(found)?;
            }
            None => return Err(Memory),
        }
    }
    Ok(own)
}
