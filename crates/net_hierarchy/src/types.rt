//! The types of the instances of each module.
ghost use Rattle.std.specs.Prelude.{◌≡◌, ◌<◌, length, map, IfOk};
ghost use Rattle.design_defs.specs.Hierarchy.{Sources};
ghost use Rattle.module_rows.specs.Reads.{module_at};
ghost use Rattle.net_hierarchy.specs.Graph.{types_of};
ghost use Rattle.net_hierarchy.specs.Kinds.{AreKinds, type_in, types_by};

use crate::kinds::Kinds;
use crate::rows::kind_of;
use module_rows::Modules;
use pw_defs::{Body, List, Memory};
use std::alloc::Global;

/// The types of the instances of one module, in their order.
fn types_in(
    alloc: Global,
    kinds: &Kinds,
    modules: &Modules,
    holder: u32,
) -> Result<List<Option<Body>>, Memory>
    requires { holder < length modules.now.modules }
    ensures { IfOk result (λ types. types ≡ map (λ i. type_in kinds.now i.kind) (module_at modules.now holder).insts) }
{
    let mut types = List::new(alloc);
    for inst in 0..modules.module(holder).insts {
        types.push(kinds.type_of(kind_of(modules, holder, inst)))?;
    }
    Ok(types)
}

/// The types of the instances of each of some modules.
fn rows_of(
    alloc: Global,
    kinds: &Kinds,
    modules: &Modules,
) -> Result<List<List<Option<Body>>>, Memory>
    ensures { IfOk result (λ types. types ≡ types_by kinds.now modules.now.modules) }
{
    let mut types = List::new(alloc);
    for holder in 0..modules.len() {
        types.push(types_in(alloc, kinds, modules, holder)?)?;
    }
    Ok(types)
}

/// The types of the instances of each module, in their order.
pub fn types_of(
    alloc: Global,
    kinds: &Kinds,
    modules: &Modules,
) -> Result<List<List<Option<Body>>>, Memory>
    ensures { IfOk result (λ types. (s : Sources) → AreKinds s.modules s.cells s.models kinds.now → s.modules ≡ modules.now.modules → types ≡ types_of s) }
{
    let types = rows_of(alloc, kinds, modules)?;
    Ok(types)
}
