//! A walk through all instances by their names: each instance before what is inside it, and what is inside it where its
//! name with a slash behind it stands among the names beside it.
ghost use Rattle.std.specs.Prelude.{◌<◌, length};

use crate::texts::{alike, by_first};
use crate::tree::{Tree, spelling, type_at};
use module_rows::Modules;
use pw_defs::{Body, List, Memory};
use std::alloc::Global;
use std::cmp::Ordering;

/// Where a walk through a module stops: at an instance, or at what is inside it.
#[derive(Clone, Copy)]
struct Stop {
    name: u32,
    inst: u32,
    inside: bool,
}

/// Where the walk is: at an instance, before the next stop of its module.
#[derive(Clone, Copy)]
struct Stand {
    at: u32,
    next: u32,
}

/// The byte of a name at a place; behind the name comes a slash, where something inside the instance is meant.
fn byte_at(name: &[u8], at: usize, inside: bool) -> Option<u8> {
    match name.get(at) {
        Some(byte) => Some(*byte),
        None => { if inside { Some(b'/') } else { None } }
    }
}

/// Which of two stops comes first.
fn compare_stops(modules: &Modules, left: Stop, right: Stop) -> Ordering {
    let first = spelling(modules, left.name);
    let second = spelling(modules, right.name);
    let at = alike(first, second);
    match by_first(
        byte_at(first, at, left.inside),
        byte_at(second, at, right.inside),
    ) {
        Some(order) => order,
        None => first.len().cmp(&second.len()),
    }
}

/// The stops of a module, in their order.
fn stops_of(
    alloc: Global,
    modules: &Modules,
    types: &List<List<Option<Body>>>,
    holder: u32,
) -> Result<Vec<Stop>, Memory>
    requires { holder < length modules.now.modules }
{
    let mut stops = Vec::new(alloc);
    let head = modules.module(holder);
    for inst in 0..head.insts {
        let name = modules.inst(holder, inst).name;
        stops.push(Stop {
            name,
            inst,
            inside: false,
        })?;
        match type_at(types, holder, inst) {
            Some(Body::Module(_)) => stops.push(Stop {
                name,
                inst,
                inside: true,
            })?,
            _ => {}
        }
    }
    stops.sort_by(|left, right| compare_stops(modules, *left, *right))?;
    Ok(stops)
}

/// The stops of all modules.
fn all_stops(
    alloc: Global,
    modules: &Modules,
    types: &List<List<Option<Body>>>,
) -> Result<Vec<Vec<Stop>>, Memory> {
    let mut all = Vec::new(alloc);
    for holder in 0..modules.len() {
        all.push(stops_of(alloc, modules, types, holder)?)?;
    }
    Ok(all)
}

/// The next stop at an instance.
fn next_stop(tree: &Tree, stops: &[Vec<Stop>], stand: Stand) -> Option<Stop> {
    match tree.rows.get(stand.at)?.body {
        Body::Module(holder) => {
            let of_module = stops.get(holder as usize)?;
            let stop = of_module.get(stand.next as usize)?;
            Some(*stop)
        }
        Body::Cell(_) | Body::Model(_) => None,
    }
}

/// The number of an instance inside another, by the number of its line.
fn child(tree: &Tree, at: u32, inst: u32) -> u32 {
    match tree.firsts.get(at) {
        Some(first) => first.saturating_add(inst),
        None => inst,
    }
}

/// Goes through all instances.
///
/// Nothing is promised of the order: who calls this looks whether it is the order of the paths.
pub(crate) fn walk_of(
    alloc: Global,
    modules: &Modules,
    types: &List<List<Option<Body>>>,
    tree: &Tree,
) -> Result<Vec<u32>, Memory> {
    let stops = all_stops(alloc, modules, types)?;
    let mut order = Vec::with_capacity(alloc, tree.rows.len() as usize)?;
    let mut stands = Vec::new(alloc);
    order.push(0)?;
    stands.push(Stand { at: 0, next: 0 })?;
    for _ in 0..u64::MAX {
        let stand = match stands.pop() {
            Some(stand) => stand,
            None => return Ok(order),
        };
        match next_stop(tree, stops.as_slice(), stand) {
            Some(stop) => {
                stands.push(Stand {
                    at: stand.at,
                    next: stand.next.saturating_add(1),
                })?;
                let inner = child(tree, stand.at, stop.inst);
                if stop.inside {
                    stands.push(Stand { at: inner, next: 0 })?;
                } else {
                    order.push(inner)?;
                }
            }
            None => {}
        }
    }
    Err(Memory)
}
