//! Whether the names of a hierarchy may make a joined name twice.
ghost use Rattle.std.specs.Prelude.{◌≡◌, ◌<◌, ℕ, [], false, length, IfOk};
ghost use Rattle.pw_defs.specs.declared.model.Model.{Model as PlainModel};
ghost use Rattle.design_defs.specs.DesignFaults.{FaultKind};
ghost use Rattle.design_defs.specs.Hierarchy.{Sources, AreNamedInsts};
ghost use Rattle.design_defs.specs.Inputs.{AreReadSources, IsReadModule};
ghost use Rattle.design_defs.specs.Models.{HasWellFormedFields};
ghost use Rattle.list_defs.specs.Members.{IsIn};
ghost use Rattle.module_rows.specs.Reads.{module_at};
ghost use Rattle.net_hierarchy.specs.Ordered.{HasNoneOf};
ghost use Rattle.net_names.specs.Apart.{AreApart, inst_names};
ghost use Rattle.net_names.specs.Bodies.{HasMarks};

use crate::bodies::{Marks, model_may_clash, module_may_clash};
use module_rows::Modules;
use pw_defs::{List, Memory, Model};
use std::alloc::Global;

/// No marks.
fn no_marks(alloc: Global, modules: &Modules) -> Result<Marks, Memory>
    ensures { IfOk result (λ marks. HasMarks modules.now.symbols marks) }
{
    let insts = vec![in alloc; 0; modules.symbols() as usize]?;
    let vectors = vec![in alloc; 0; modules.symbols() as usize]?;
    Ok(Marks { insts, vectors })
}

/// Whether those of a module may.
fn some_module_may(alloc: Global, modules: &Modules) -> Result<bool, Memory>
    ensures { IfOk result (λ may. may ≡ false → (n : ℕ) → n < length modules.now.modules → IsReadModule (module_at modules.now n)
        → AreApart (inst_names (module_at modules.now n)) (module_at modules.now n).ports) }
{
    let mut marks = no_marks(alloc, modules)?;
    for holder in 0..modules.len() {
        if module_may_clash(modules, holder, holder + 1, &mut marks) {
            return Ok(true);
        }
    }
    Ok(false)
}

/// Whether those of a model may.
fn some_model_may(alloc: Global, models: &[Model]) -> Result<bool, Memory>
    ensures { IfOk result (λ may. may ≡ false → (m : PlainModel) → IsIn m models.now → HasWellFormedFields m → AreApart [] m.ports) }
{
    for model in models {
        let may = model_may_clash(alloc, model)?;
        if may {
            return Ok(true);
        }
    }
    Ok(false)
}

/// Whether the names of a hierarchy may make a joined name twice: `false` says that no two instances, ports or vector bits
/// have one joined name, `true` says nothing.
///
/// Each name is looked at once in its module. It is `true` where one goes on behind the name of an instance of its module
/// with a slash, or behind that of a vector port with an opening bracket, where two ports of a model have one name, and
/// where a name has more than 1,024 bytes.
pub fn may_clash(alloc: Global, modules: &Modules, models: &List<Model>) -> Result<bool, Memory>
    ensures { IfOk result (λ may. (s : Sources) → may ≡ false → s.modules ≡ modules.now.modules → s.models ≡ models.now → AreReadSources s → AreNamedInsts s
        → HasNoneOf s FaultKind.path_twice) }
{
    let by_module = some_module_may(alloc, modules)?;
    if by_module {
        return Ok(true);
    }
    let may = some_model_may(alloc, models.as_slice())?;
    Ok(may)
}
