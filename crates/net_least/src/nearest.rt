//! The least way from the top to a module that has a fault of its own, found on the modules alone: each module goes on by
//! the least of the ways through its instances. Below an instance ways are in the order of what is behind it, so each
//! module is looked at once.
ghost use Rattle.std.specs.Prelude.{◌≡◌, ◌≢◌, ◌<◌, ◌↔◌, ◌++◌, ◌∷◌, [], ℕ, List, Option, IfOk, IsTrue, Some, length, map, set, slice_get};
ghost use Rattle.pw_defs.specs.declared.design.Body.TheVariants.{Module as ModuleBody};
ghost use Rattle.pw_defs.specs.declared.netlist.Inst.{Inst as PlainInst};
ghost use Rattle.design_defs.specs.Hierarchy.{Sources, module_named, type_of, AreNamedInsts};
ghost use Rattle.list_defs.specs.Members.{IsIn};
ghost use Rattle.module_rows.specs.Reads.{module_at};
ghost use Rattle.net_hierarchy.specs.Graph.{AreInstsApart, Holds, IsOrder, types_of};
ghost use Rattle.net_least.specs.Nearest.{AreAllNear, AreHeldNear, HasMark, IsEnd, IsNear, IsNearBelow, IsNearest, IsWayBy, IsWayTo, near_at, near_below};
ghost use Rattle.net_least.specs.declared.links.Link.{Link as PlainLink};
ghost use Rattle.net_least.specs.declared.own.OwnFault.{OwnFault as PlainOwn};

use crate::links::{Link, is_before};
use crate::own::OwnFault;
use module_rows::Modules;
use pw_defs::{Body, List, Memory};
use std::alloc::Global;

/// The least way below a module: its first link, and the number of the module where it ends.
#[derive(Clone, Copy)]
pub(crate) struct Near {
    pub(crate) at: Option<u32>,
    pub(crate) end: u32,
}

/// Whether a module has a fault of its own.
fn has_mark(own: &[Option<OwnFault>], number: u32) -> bool
    ensures { IsTrue result ↔ HasMark own.now number }
{
    match own.get(number as usize) {
        Some(mark) => mark.is_some(),
        None => false,
    }
}

/// What is known of a module.
fn near_at(nears: &[Option<Near>], number: u32) -> Option<Near>
    ensures { result ≡ near_at nears.now number }
{
    match nears.get(number as usize) {
        Some(near) => *near,
        None => None,
    }
}

/// What is known of what an instance is an instance of.
fn near_below(nears: &[Option<Near>], row: &[Option<Body>], inst: u32) -> Option<Near>
    ensures { result ≡ near_below nears.now row.now inst }
{
    match row.get(inst as usize) {
        Some(item) => match *item {
            Some(body) => match body {
                Body::Module(number) => near_at(nears, number),
                Body::Cell(_) | Body::Model(_) => None,
            },
            None => None,
        },
        None => None,
    }
}

/// The lesser of the way that was found before and the way through one more instance, by the symbol of its name.
fn nearer(
    alloc: Global,
    modules: &Modules,
    links: &mut List<Link>,
    best: Option<Near>,
    inner: Near,
    name: u32,
) -> Result<Near, Memory>
    ensures grown { IfOk result (λ _. (more : List PlainLink) × (links.new ≡ links.old ++ more)) }
    ensures near { IfOk result (λ near. (s : Sources) → (own : List (Option PlainOwn)) → (insts : List PlainInst) → (i : PlainInst) → (k : ℕ) → AreNamedInsts s
        → i.name ≢ [] → slice_get modules.now.symbols name ≡ Some i.name → type_of s i.kind ≡ Some (ModuleBody k)
        → IsNear modules.now.symbols links.old (IsWayBy s own insts) best → IsNearest modules.now.symbols links.old (IsWayTo s own k) inner
        → IsNearest modules.now.symbols links.new (IsWayBy s own (insts ++ i ∷ [])) near) }
{
    let through = Near {
        at: Some(links.len()),
        end: inner.end,
    };
    links.push(Link {
        name,
        next: inner.at,
    })?;
    match best {
        Some(before) => {
            if is_before(alloc, modules, links.as_slice(), through.at, before.at)? {
                return Ok(through);
            }
            Ok(before)
        }
        None => Ok(through),
    }
}

/// The lesser of the way that was found before and the least way through one more instance, if it leads anywhere.
fn nearer_by(
    alloc: Global,
    modules: &Modules,
    below: Option<Near>,
    links: &mut List<Link>,
    best: Option<Near>,
    name: u32,
) -> Result<Option<Near>, Memory>
    ensures grown { IfOk result (λ _. (more : List PlainLink) × (links.new ≡ links.old ++ more)) }
    ensures near { IfOk result (λ near. (s : Sources) → (own : List (Option PlainOwn)) → (insts : List PlainInst) → (i : PlainInst) → AreNamedInsts s
        → i.name ≢ [] → slice_get modules.now.symbols name ≡ Some i.name → IsNearBelow s own modules.now.symbols links.old i below
        → IsNear modules.now.symbols links.old (IsWayBy s own insts) best → IsNear modules.now.symbols links.new (IsWayBy s own (insts ++ i ∷ [])) near) }
{
    match below {
        Some(inner) => {
            let near = nearer(alloc, modules, links, best, inner, name)?;
            Ok(Some(near))
        }
        None => Ok(best),
    }
}

/// The least of the ways through the instances of a module.
fn nearest_by(
    alloc: Global,
    modules: &Modules,
    row: &[Option<Body>],
    nears: &[Option<Near>],
    links: &mut List<Link>,
    holder: u32,
) -> Result<Option<Near>, Memory>
    requires { holder < length modules.now.modules }
    ensures grown { IfOk result (λ _. (more : List PlainLink) × (links.new ≡ links.old ++ more)) }
    ensures near { IfOk result (λ near. (s : Sources) → (own : List (Option PlainOwn)) → AreNamedInsts s → s.modules ≡ modules.now.modules
        → row.now ≡ map (λ i. type_of s i.kind) (module_at modules.now holder).insts
        → AreHeldNear s own modules.now.symbols links.old nears.now holder
        → IsNear modules.now.symbols links.new (IsWayBy s own (module_at modules.now holder).insts) near) }
{
    let mut best = None;
    for inst in 0..modules.module(holder).insts {
        let below = near_below(nears, row, inst);
        let name = modules.inst(holder, inst).name;
        best = nearer_by(alloc, modules, below, links, best, name)?;
    }
    Ok(best)
}

/// The least way below a module, which ends at once where the module has a fault of its own.
fn nearest_below(
    alloc: Global,
    modules: &Modules,
    types: &List<List<Option<Body>>>,
    own: &[Option<OwnFault>],
    nears: &[Option<Near>],
    links: &mut List<Link>,
    number: u32,
) -> Result<Option<Near>, Memory>
    requires { number < length modules.now.modules }
    ensures grown { IfOk result (λ _. (more : List PlainLink) × (links.new ≡ links.old ++ more)) }
    ensures near { IfOk result (λ near. (s : Sources) → AreNamedInsts s → AreInstsApart s → s.modules ≡ modules.now.modules → types.now ≡ types_of s
        → AreHeldNear s own.now modules.now.symbols links.old nears.now number → IsNear modules.now.symbols links.new (IsWayTo s own.now number) near) }
{
    if has_mark(own, number) {
        return Ok(Some(Near {
            at: None,
            end: number,
        }));
    }
    match types.get(number) {
        Some(row) => {
            let near = nearest_by(alloc, modules, row.as_slice(), nears, links, number)?;
            Ok(near)
        }
        None => Ok(None),
    }
}

/// Sets what is known of a module, where there is a place for it.
fn set_near(nears: &mut Vec<Option<Near>>, number: u32, near: Option<Near>)
    ensures { nears.new.items ≡ set nears.old.items number near }
{
    if (number as usize) < nears.len() {
        nears[number as usize] = near;
    }
}

/// Finds the least way below one more module, once those that it holds are done.
fn put_nearest(
    alloc: Global,
    modules: &Modules,
    types: &List<List<Option<Body>>>,
    own: &[Option<OwnFault>],
    nears: &mut Vec<Option<Near>>,
    links: &mut List<Link>,
    number: u32,
) -> Result<(), Memory>
    ensures { IfOk result (λ _. (s : Sources) → (done : List ℕ) → AreNamedInsts s → AreInstsApart s → s.modules ≡ modules.now.modules
        → types.now ≡ types_of s → number < length s.modules → ((k : ℕ) → Holds (types_of s) number k → IsIn k done)
        → AreAllNear s own.now modules.now.symbols links.old nears.old.items done → AreAllNear s own.now modules.now.symbols links.new nears.new.items (done ++ number ∷ [])) }
{
    if number >= modules.len() {
        return Err(Memory);
    }
    let near = nearest_below(alloc, modules, types, own, nears.as_slice(), links, number)?;
    set_near(nears, number, near);
    Ok(())
}

/// The number of the module where the least way from the top to one with a fault of its own ends.
pub(crate) fn nearest_module(
    alloc: Global,
    modules: &Modules,
    types: &List<List<Option<Body>>>,
    order: &[u32],
    top: u32,
    own: &[Option<OwnFault>],
) -> Result<Option<u32>, Memory>
    ensures { IfOk result (λ end. (s : Sources) → AreNamedInsts s → AreInstsApart s → s.modules ≡ modules.now.modules → types.now ≡ types_of s
        → module_named s s.top ≡ Some top → IsOrder (types_of s) top order.now → IsEnd (IsWayTo s own.now top) end) }
{
    let mut links = List::new(alloc);
    let mut nears = vec![in alloc; None; modules.len() as usize]?;
    for number in order {
        put_nearest(alloc, modules, types, own, &mut nears, &mut links, *number)?;
    }
    match near_at(nears.as_slice(), top) {
        Some(near) => Ok(Some(near.end)),
        None => Ok(None),
    }
}
