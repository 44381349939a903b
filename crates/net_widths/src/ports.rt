//! Connections that name no port of the type of their instance.
ghost use Rattle.std.specs.Prelude.{◌≡◌, ◌<◌, ℕ, IfOk, List, None, Some, length, map, slice_get};
ghost use Rattle.pw_defs.specs.declared.netlist.Conn.{Conn as PlainConn};
ghost use Rattle.pw_defs.specs.declared.netlist.Inst.{Inst as PlainInst};
ghost use Rattle.design_defs.specs.DesignFaults.{FaultKind};
ghost use Rattle.design_defs.specs.Hierarchy.{Sources, type_of};
ghost use Rattle.module_rows.specs.Reads.{inst_at, module_at};
ghost use Rattle.net_hierarchy.specs.Graph.{types_of};
ghost use Rattle.net_least.specs.OwnFaults.{AreOwn};
ghost use Rattle.net_places.specs.Plans.{ArePlans, IsOf};
ghost use Rattle.net_widths.specs.Refusals.{Finds, ports_of_conn, ports_of_inst, ports_of_module};
ghost use Rattle.net_widths.specs.Ports.{width_if_port, width_of_port, IsSeen};

use crate::refusals::refuse_unless;
use net_least::OwnFault;
use net_places::{NetRow, Plans, Spellings, width};
use net_runs::net_of;
use pw_defs::{Body, List, Memory};
use std::alloc::Global;

/// How many bits a net has, where it is a port.
fn row_width(row: NetRow) -> Option<u64>
    ensures { result ≡ width_if_port row.port row.range }
{
    match row.port {
        Some(_) => Some(width(row.range)),
        None => None,
    }
}

/// How many bits the port of a name of a type has, where there is one.
fn port_width(plans: &Plans, spellings: &Spellings, body: Body, name: u32) -> Option<u64>
    ensures { (s : Sources) → (kind spelling : List ℕ) → IsSeen s spellings.now plans.now → type_of s kind ≡ Some body
        → slice_get spellings.now.modules.now.symbols name ≡ Some spelling → result ≡ width_of_port s (Some body) spelling }
{
    if name >= spellings.modules.symbols() {
        return None;
    }
    let row = net_of(plans, spellings, body, spellings.modules.spelling(name))?;
    row_width(row)
}

/// How many bits the port of a name has, where the type is there and has one.
pub(crate) fn type_width(
    plans: &Plans,
    spellings: &Spellings,
    kind: Option<Body>,
    name: u32,
) -> Option<u64>
    ensures { (s : Sources) → (i : PlainInst) → (c : PlainConn) → IsSeen s spellings.now plans.now → kind ≡ type_of s i.kind
        → slice_get spellings.now.modules.now.symbols name ≡ Some c.port → result ≡ width_of_port s (type_of s i.kind) c.port }
{
    match kind {
        Some(body) => port_width(plans, spellings, body, name),
        None => None,
    }
}

/// What an instance of a row is of.
pub(crate) fn type_in(row: &[Option<Body>], inst: u32) -> Option<Body>
    ensures { (s : Sources) → (insts : List PlainInst) → (i : PlainInst) → row.now ≡ map (λ x. type_of s x.kind) insts → slice_get insts inst ≡ Some i
        → result ≡ type_of s i.kind }
{
    match row.get(inst as usize) {
        Some(item) => *item,
        None => None,
    }
}

/// A connection of an instance.
fn conn_port(
    plans: &Plans,
    spellings: &Spellings,
    kind: Option<Body>,
    line: u32,
    name: u32,
    best: Option<OwnFault>,
) -> Option<OwnFault>
    ensures { (s : Sources) → (i : PlainInst) → (c : PlainConn) → IsSeen s spellings.now plans.now → kind ≡ type_of s i.kind → line ≡ i.line
        → slice_get spellings.now.modules.now.symbols name ≡ Some c.port → Finds spellings.now.modules.now.symbols best result (ports_of_conn s i c) }
{
    match kind {
        Some(body) => {
            let width = port_width(plans, spellings, body, name);
            refuse_unless(spellings.modules, best, line, width, Some(name))
        }
        None => best,
    }
}

/// The connections of an instance.
fn inst_ports(
    plans: &Plans,
    spellings: &Spellings,
    kind: Option<Body>,
    holder: u32,
    inst: u32,
    best: Option<OwnFault>,
) -> Option<OwnFault>
    requires holder { holder < length spellings.now.modules.now.modules }
    requires inst { inst < length (module_at spellings.now.modules.now holder).insts }
    ensures { (s : Sources) → IsSeen s spellings.now plans.now → kind ≡ type_of s (inst_at spellings.now.modules.now holder inst).kind
        → Finds spellings.now.modules.now.symbols best result (ports_of_inst s (inst_at spellings.now.modules.now holder inst)) }
{
    let head = spellings.modules.inst(holder, inst);
    let mut least = best;
    for conn in 0..head.conns {
        let name = spellings.modules.conn(holder, inst, conn).port;
        least = conn_port(plans, spellings, kind, head.line, name, least);
    }
    least
}

/// The connections of all instances of a module.
fn module_ports(
    plans: &Plans,
    spellings: &Spellings,
    row: &[Option<Body>],
    holder: u32,
) -> Option<OwnFault>
    requires { holder < length spellings.now.modules.now.modules }
    ensures { (s : Sources) → IsSeen s spellings.now plans.now → row.now ≡ map (λ i. type_of s i.kind) (module_at spellings.now.modules.now holder).insts
        → Finds spellings.now.modules.now.symbols None result (ports_of_module s (module_at spellings.now.modules.now holder)) }
{
    let mut least = None;
    for inst in 0..spellings.modules.module(holder).insts {
        let kind = type_in(row, inst);
        least = inst_ports(plans, spellings, kind, holder, inst, least);
    }
    least
}

/// The first connection of each module, by line, then by name, that names no port of the type of its instance. An instance
/// of a type that isn't there is passed over.
///
/// Each connection is looked up once, by halves of the nets of the type. Errors: want of memory.
pub fn port_faults(
    alloc: Global,
    spellings: &Spellings,
    types: &List<List<Option<Body>>>,
    plans: &Plans,
) -> Result<Vec<Option<OwnFault>>, Memory>
    ensures { IfOk result (λ own. (s : Sources) → IsOf spellings.now.modules.now spellings.now.cells.now spellings.now.models.now s → types.now ≡ types_of s
        → ArePlans s spellings.now.modules.now.symbols plans.now → AreOwn s FaultKind.unknown_port spellings.now.modules.now.symbols own.items) }
{
    let mut own = Vec::new(alloc);
    for holder in 0..spellings.modules.len() {
        match types.get(holder) {
            Some(row) => own.push(module_ports(plans, spellings, row.as_slice(), holder))?,
            None => return Err(Memory),
        }
    }
    Ok(own)
}
