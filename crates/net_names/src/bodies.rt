//! Whether the names of the instances and ports of one body may make a joined name twice.
ghost use Rattle.std.specs.Prelude.{◌≡◌, ◌<◌, ℕ, List, [], Some, false, length, slice_get, IfOk, IfSome};
ghost use Rattle.design_defs.specs.Inputs.{IsReadModule};
ghost use Rattle.design_defs.specs.Models.{HasWellFormedFields};
ghost use Rattle.list_defs.specs.Members.{IsIn};
ghost use Rattle.module_rows.specs.Reads.{module_at};
ghost use Rattle.net_names.specs.Apart.{AreApart, GoesOn, inst_names, port_names};
ghost use Rattle.net_names.specs.Bodies.{AreFree, HasMarks, IsMarkedFor};

use crate::fronts::{goes_on, has_bracket};
use crate::marks::{mark_insts, mark_vectors};
use module_rows::Modules;
use name_index::NameIndex;
use pw_defs::{Memory, Model, Port};
use std::alloc::Global;

/// For each symbol a mark for the module in which it last named an instance, and one for a vector port.
#[derive(Drop)]
pub(crate) struct Marks {
    pub(crate) insts: Vec<u32>,
    pub(crate) vectors: Vec<u32>,
}

/// Whether a symbol of a module is spelled as the name of an instance with a slash behind it and more, or of a vector port
/// with an opening bracket.
fn is_longer(modules: &Modules, marks: &Marks, stamp: u32, symbol: u32) -> bool
    requires { symbol < length modules.now.symbols }
    ensures { result ≡ false → (name : List ℕ) → slice_get modules.now.symbols symbol ≡ Some name → AreFree modules.now.symbols marks.now stamp name }
{
    let name = modules.spelling(symbol);
    goes_on(modules, marks.insts.as_slice(), stamp, b'/', name)
        || goes_on(modules, marks.vectors.as_slice(), stamp, b'[', name)
}

/// Whether the name of an instance of a module is such a longer one.
fn has_longer_inst(modules: &Modules, holder: u32, marks: &Marks, stamp: u32) -> bool
    requires { holder < length modules.now.modules }
    ensures { result ≡ false → (name : List ℕ) → IsIn name (inst_names (module_at modules.now holder)) → AreFree modules.now.symbols marks.now stamp name }
{
    for inst in 0..modules.module(holder).insts {
        if is_longer(modules, marks, stamp, modules.inst(holder, inst).name) {
            return true;
        }
    }
    false
}

/// Whether the name of a port of a module is such a longer one.
fn has_longer_port(modules: &Modules, holder: u32, marks: &Marks, stamp: u32) -> bool
    requires { holder < length modules.now.modules }
    ensures { result ≡ false → (name : List ℕ) → IsIn name (port_names (module_at modules.now holder).ports) → AreFree modules.now.symbols marks.now stamp name }
{
    for number in 0..modules.module(holder).ports {
        if is_longer(modules, marks, stamp, modules.port(holder, number).name) {
            return true;
        }
    }
    false
}

/// Whether the name of an instance or a port of a module is such a longer one.
fn has_longer(modules: &Modules, holder: u32, marks: &Marks, stamp: u32) -> bool
    requires { holder < length modules.now.modules }
    ensures insts { result ≡ false → (name : List ℕ) → IsIn name (inst_names (module_at modules.now holder)) → AreFree modules.now.symbols marks.now stamp name }
    ensures ports { result ≡ false → (name : List ℕ) → IsIn name (port_names (module_at modules.now holder).ports) → AreFree modules.now.symbols marks.now stamp name }
{
    has_longer_inst(modules, holder, marks, stamp) || has_longer_port(modules, holder, marks, stamp)
}

/// Marks the names of the instances and the vector ports of a module.
fn mark_module(modules: &Modules, holder: u32, stamp: u32, marks: &mut Marks)
    requires { holder < length modules.now.modules }
    ensures { HasMarks modules.now.symbols marks.old → IsMarkedFor modules.now holder stamp marks.new }
{
    mark_insts(modules, holder, stamp, &mut marks.insts);
    mark_vectors(modules, holder, stamp, &mut marks.vectors);
}

/// Whether the names of the instances and ports of a module may make a joined name twice.
///
/// The mark is one that no symbol bears yet.
pub(crate) fn module_may_clash(
    modules: &Modules,
    holder: u32,
    stamp: u32,
    marks: &mut Marks,
) -> bool
    requires { holder < length modules.now.modules }
    ensures ready { HasMarks modules.now.symbols marks.old → HasMarks modules.now.symbols marks.new }
    ensures apart { result ≡ false → HasMarks modules.now.symbols marks.old → IsReadModule (module_at modules.now holder)
        → AreApart (inst_names (module_at modules.now holder)) (module_at modules.now holder).ports }
{
    mark_module(modules, holder, stamp, marks);
    let longer = has_longer(modules, holder, marks, stamp);
    longer
}

/// The names of ports, `None` where two of them are the same.
fn port_index(alloc: Global, ports: &[Port]) -> Result<Option<NameIndex>, Memory>
    ensures { IfOk result (λ found. IfSome found (λ index. index ≡ port_names ports.now)) }
{
    let mut index = NameIndex::new(alloc);
    for port in ports {
        if !index.add(port.name.as_slice())? {
            return Ok(None);
        }
    }
    Ok(Some(index))
}

/// Whether the name of a port goes on with an opening bracket behind one of the index.
fn has_bracketed(index: &NameIndex, ports: &[Port]) -> bool
    ensures { result ≡ false → (name front : List ℕ) → IsIn name (port_names ports.now) → GoesOn 91 front name → IsIn front index.now → ⊥ }
{
    for port in ports {
        if has_bracket(index, port.name.as_slice()) {
            return true;
        }
    }
    false
}

/// Whether the names of the ports of a model may make a joined name twice.
pub(crate) fn model_may_clash(alloc: Global, model: &Model) -> Result<bool, Memory>
    ensures { IfOk result (λ may. may ≡ false → HasWellFormedFields model.now → AreApart [] model.now.ports) }
{
    match port_index(alloc, model.ports.as_slice())? {
        Some(index) => Ok(has_bracketed(&index, model.ports.as_slice())),
        None => Ok(true),
    }
}
