//! The first joined name that two things have, as an answer.
ghost use Rattle.std.specs.Prelude.{◌≡◌, IfOk, MatchOption};
ghost use Rattle.pw_defs.specs.declared.faults.DesignFault.TheVariants.{N12};
ghost use Rattle.design_defs.specs.DesignFaults.{FaultKind, HasFirstFault, HasNoneBefore};
ghost use Rattle.design_defs.specs.Hierarchy.{Sources, AreNamedInsts};
ghost use Rattle.design_defs.specs.Inputs.{AreReadSources};
ghost use Rattle.net_hierarchy.specs.Ordered.{HasNoneOf};
ghost use Rattle.net_instances.specs.Instances.{AreInstances};
ghost use Rattle.net_names.specs.Answers.{IsAnswer};
ghost use Rattle.net_sizes.specs.declared.sizes.Counts.{Counts};

use crate::clashes::may_clash;
use crate::meeting::{Meeting, NameAt};
use crate::walking::{meet_all, row_at};
use module_rows::Modules;
use net_instances::{InstanceRow, Instances};
use pw_defs::{AtModule, Body, Cells, List, Memory, Model};
use std::alloc::Global;

/// A name that was met again, with the module that has the line.
fn answer(rows: &List<InstanceRow>, at: NameAt) -> Result<AtModule, Memory>
    ensures { IfOk result (λ found. IsAnswer rows.now at found) }
{
    let NameAt { place, name } = at;
    let row = row_at(rows, place.holder)?;
    match row.body {
        Body::Module(module) => Ok(AtModule {
            module,
            line: place.line,
            name,
        }),
        Body::Cell(_) | Body::Model(_) => Err(Memory),
    }
}

/// The first instance, port or vector bit, by its line, whose joined name another one has. It is `None` where no two have one.
///
/// Joined names are gone through only where the names of some module or model allow that two are the same, which takes
/// memory for all of them.
pub fn path_fault(
    alloc: Global,
    modules: &Modules,
    cells: &Cells,
    models: &List<Model>,
    instances: &Instances,
) -> Result<Option<AtModule>, Memory>
    ensures { IfOk result (λ found. (s : Sources) → (bits : Counts) → s.modules ≡ modules.now.modules → s.cells ≡ cells.now → s.models ≡ models.now → AreReadSources s
        → AreNamedInsts s → AreInstances s modules.now bits instances.now
        → MatchOption found (HasNoneOf s FaultKind.path_twice) (λ at. HasNoneBefore FaultKind.path_twice s → HasFirstFault s (N12 at))) }
{
    if !may_clash(alloc, modules, models)? {
        return Ok(None);
    }
    let meeting = meet_all(alloc, modules, cells, models, instances)?;
    let Meeting { first, .. } = meeting;
    match first {
        Some(at) => {
            let found = answer(&instances.rows, at)?;
            Ok(Some(found))
        }
        None => Ok(None),
    }
}
