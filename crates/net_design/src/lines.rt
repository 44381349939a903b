//! The faults that lines of modules have wherever the modules stand: wrong ports and wrong widths.
ghost use Rattle.std.specs.Prelude.{◌≡◌, IfErr, IfOk};
ghost use Rattle.design_defs.specs.DesignFaults.{FaultKind, HasNoneBefore};
ghost use Rattle.design_defs.specs.Hierarchy.{Sources};
ghost use Rattle.design_defs.specs.Inputs.{AreReadSources};
ghost use Rattle.design_laws.specs.FullNames.{HaveFullNames};
ghost use Rattle.net_hierarchy.specs.Firstness.{IsCause};
ghost use Rattle.net_least.specs.OwnFaults.{IsFirstOf};
ghost use Rattle.net_outline.specs.Outline.{IsOutline};
ghost use Rattle.net_places.specs.Plans.{IsOf};

use net_least::first_of_kind;
use net_outline::Outline;
use net_places::Spellings;
use net_widths::{port_faults, width_faults};
use pw_defs::{AtModule, DesignFault, Memory};
use std::alloc::Global;

/// The first connection that names no port of its type.
fn first_port(
    alloc: Global,
    spellings: &Spellings,
    outline: &Outline,
) -> Result<Option<AtModule>, Memory>
    ensures { IfOk result (λ found. (s : Sources) → IsOf spellings.now.modules.now spellings.now.cells.now spellings.now.models.now s → AreReadSources s
        → HaveFullNames s → IsOutline s spellings.now.modules.now outline.now → IsFirstOf s FaultKind.unknown_port found) }
{
    let own = port_faults(alloc, spellings, &outline.types, &outline.plans)?;
    let found = first_of_kind(
        alloc,
        spellings.modules,
        &outline.types,
        outline.order.as_slice(),
        outline.top,
        own.as_slice(),
    )?;
    Ok(found)
}

/// The first line of wrong bits or of a wrong width.
fn first_width(
    alloc: Global,
    spellings: &Spellings,
    outline: &Outline,
) -> Result<Option<AtModule>, Memory>
    ensures { IfOk result (λ found. (s : Sources) → IsOf spellings.now.modules.now spellings.now.cells.now spellings.now.models.now s → AreReadSources s
        → HaveFullNames s → IsOutline s spellings.now.modules.now outline.now → HasNoneBefore FaultKind.wrong_width s → IsFirstOf s FaultKind.wrong_width found) }
{
    let own = width_faults(alloc, spellings, &outline.types, &outline.plans)?;
    let found = first_of_kind(
        alloc,
        spellings.modules,
        &outline.types,
        outline.order.as_slice(),
        outline.top,
        own.as_slice(),
    )?;
    Ok(found)
}

/// The faults that lines of modules have wherever the modules stand.
///
/// Errors: the first connection that names no port of its type, else the first line of wrong bits or of a wrong width; or
/// want of memory.
pub(crate) fn check_lines(
    alloc: Global,
    spellings: &Spellings,
    outline: &Outline,
) -> Result<(), DesignFault>
    ensures none { IfOk result (λ _. (s : Sources) → IsOf spellings.now.modules.now spellings.now.cells.now spellings.now.models.now s → AreReadSources s
        → HaveFullNames s → IsOutline s spellings.now.modules.now outline.now → HasNoneBefore FaultKind.path_twice s) }
    ensures cause { IfErr result (λ fault. (s : Sources) → IsOf spellings.now.modules.now spellings.now.cells.now spellings.now.models.now s → AreReadSources s
        → HaveFullNames s → IsOutline s spellings.now.modules.now outline.now → IsCause s fault) }
{
    match first_port(alloc, spellings, outline)? {
        Some(at) => return Err(DesignFault::N6(at)),
        None => {}
    }
    match first_width(alloc, spellings, outline)? {
        Some(at) => return Err(DesignFault::N7(at)),
        None => {}
    }
    Ok(())
}
