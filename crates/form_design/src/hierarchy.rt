//! The instances at and below the top.
ghost use Rattle.std.specs.Prelude.{◌≡◌, ◌++◌, ◌≤◌, ◌<◌, length, IfOk, OnOk, MatchOption};
ghost use Rattle.std.specs.List.{filter_map, flat_map, enumerate_from};
ghost use Rattle.form_design.specs.Names.{inst_of};
ghost use Rattle.form_design.specs.Hierarchy.{join_of, held_under, held_by, helds, children, held_below, top_held};
ghost use Rattle.design_defs.specs.Names.{joined};

use crate::names::Names;
use line_forms::{ConnWords, InstLine, ItemLine, ModuleLines};
use pw_defs::{Body, List, Memory, Name};
use std::alloc::Global;

/// At most this many instances are looked at.
const MAX_INSTANCES: usize = 1_000_000;

/// An instance of the design. `joins` has, for each connection to a net, the place of the port and the place of the net
/// among the nets of the parent's module.
#[derive(Drop)]
pub(crate) struct Held {
    pub path: Name,
    pub parent: Option<u32>,
    pub body: Body,
    pub joins: List<(u32, u32)>,
}

/// The places that a connection joins, where it names a net.
fn join_of(names: &Names, holder: u32, body: Body, conn: &ConnWords) -> Option<(u32, u32)>
    ensures { result ≡ join_of names.now holder body conn.now }
{
    let port = names.port_place(body, conn.port.as_slice())?;
    match &conn.net {
        None => None,
        Some(net) => {
            let place = names.net_place(holder, net.as_slice())?;
            Some((port, place))
        }
    }
}

fn joins_of(
    alloc: Global,
    names: &Names,
    holder: u32,
    body: Body,
    conns: &[ConnWords],
) -> Result<List<(u32, u32)>, Memory>
    ensures { IfOk result (λ joins. joins ≡ filter_map (join_of names.now holder body) conns.now) }
{
    let mut joins = List::new(alloc);
    for conn in conns {
        if let Some(join) = join_of(names, holder, body, conn) {
            joins.push(join)?;
        }
    }
    Ok(joins)
}

/// The path of what stands under a path.
pub(crate) fn joined(alloc: Global, path: &[u8], name: &[u8]) -> Result<Name, Memory>
    ensures { IfOk result (λ whole. whole ≡ joined path.now name.now) }
{
    if path.is_empty() {
        return Ok(Name::from_slice(alloc, name)?);
    }
    let mut whole = Vec::from_slice(alloc, path)?;
    whole.push(b'/')?;
    whole.extend_from_slice(name)?;
    Name::from_vec(whole).ok_or(Memory)
}

/// The instance of a line, where its type is known.
fn held_under(
    alloc: Global,
    names: &Names,
    holder: u32,
    path: &[u8],
    parent: u32,
    line: &InstLine,
) -> Result<Option<Held>, Memory>
    ensures { IfOk result (λ held. held ≡ held_under names.now holder path.now parent line.now) }
{
    match names.body_named(line.kind.as_slice()) {
        None => Ok(None),
        Some(body) => {
            let path = joined(alloc, path, line.name.as_slice())?;
            let joins = joins_of(alloc, names, holder, body, line.conns.as_slice())?;
            Ok(Some(Held {
                path,
                parent: Some(parent),
                body,
                joins,
            }))
        }
    }
}

/// Adds the instances of the lines of a module, under the instance `parent` of it.
fn add_under(
    alloc: Global,
    names: &Names,
    holder: u32,
    path: &[u8],
    parent: u32,
    items: &[ItemLine],
    out: &mut Vec<Held>,
) -> Result<(), Memory>
    ensures { OnOk result (out.new.items ≡ out.old.items ++ filter_map (held_under names.now holder path.now parent) (filter_map inst_of items.now)) }
{
    for item in items {
        if let ItemLine::Inst(line) = item {
            if let Some(held) = held_under(alloc, names, holder, path, parent, line)? {
                out.push(held)?;
            }
        }
    }
    Ok(())
}

/// Adds the instances directly in an instance of `body`.
fn add_held(
    alloc: Global,
    names: &Names,
    modules: &List<ModuleLines>,
    path: &[u8],
    parent: u32,
    body: Body,
    out: &mut Vec<Held>,
) -> Result<(), Memory>
    ensures { OnOk result (out.new.items ≡ out.old.items ++ held_by names.now modules.now path.now parent body) }
{
    match body {
        Body::Module(holder) => match modules.get(holder) {
            Some(lines) => add_under(
                alloc,
                names,
                holder,
                path,
                parent,
                lines.items.as_slice(),
                out,
            ),
            None => Ok(()),
        },
        Body::Cell(_) => Ok(()),
        Body::Model(_) => Ok(()),
    }
}

/// The instances in the children of the top, which is `None` where there are more than the limit.
fn below(
    alloc: Global,
    names: &Names,
    modules: &List<ModuleLines>,
    children: &[Held],
) -> Result<Option<Vec<Held>>, Memory>
    requires { length children.now ≤ 1000000 }
    ensures { IfOk result (λ r. MatchOption r
        (1000000 < length (flat_map (held_below names.now modules.now) (enumerate_from 1 children.now)))
        (λ hs. hs.items ≡ flat_map (held_below names.now modules.now) (enumerate_from 1 children.now))) }
{
    let mut below = Vec::new(alloc);
    for (i, child) in children.iter().enumerate() {
        let parent = (i + 1) as u32;
        add_held(
            alloc,
            names,
            modules,
            child.path.as_slice(),
            parent,
            child.body,
            &mut below,
        )?;
        if below.len() > MAX_INSTANCES {
            return Ok(None);
        }
    }
    Ok(Some(below))
}

/// The instances in the top.
pub(crate) fn children(
    alloc: Global,
    names: &Names,
    modules: &List<ModuleLines>,
    top: u32,
) -> Result<Vec<Held>, Memory>
    ensures { IfOk result (λ held. held.items ≡ children names.now modules.now top) }
{
    let mut children = Vec::new(alloc);
    add_held(
        alloc,
        names,
        modules,
        &[],
        0,
        Body::Module(top),
        &mut children,
    )?;
    Ok(children)
}

/// All instances, which is `None` where there are more than the limit.
pub(crate) fn helds(
    alloc: Global,
    names: &Names,
    modules: &List<ModuleLines>,
    top: u32,
    mut in_top: Vec<Held>,
) -> Result<Option<Vec<Held>>, Memory>
    requires { in_top.items ≡ children names.now modules.now top }
    ensures { IfOk result (λ r. MatchOption r
        (1000000 < length (helds names.now modules.now top))
        (λ hs. (hs.items ≡ helds names.now modules.now top) × (length hs.items ≤ 1000000))) }
{
    if in_top.len() >= MAX_INSTANCES {
        return Ok(None);
    }
    let Some(mut below) = below(alloc, names, modules, in_top.as_slice())? else {
        return Ok(None);
    };
    if below.len() >= MAX_INSTANCES - in_top.len() {
        return Ok(None);
    }
    let mut all = Vec::new(alloc);
    all.push(top_held(alloc, top)?)?;
    all.append(&mut in_top)?;
    all.append(&mut below)?;
    Ok(Some(all))
}

/// The top itself.
fn top_held(alloc: Global, top: u32) -> Result<Held, Memory>
    ensures { IfOk result (λ held. held ≡ top_held top) }
{
    Ok(Held {
        path: Name::from_slice(alloc, &[])?,
        parent: None,
        body: Body::Module(top),
        joins: List::new(alloc),
    })
}
