//! The rows of all modules.
ghost use Rattle.std.specs.Prelude.{◌≡◌, ◌<◌, ◌++◌, ◌∷◌, ℕ, List, [], IfOk, OnOk, Some, length, slice_index_or};
ghost use Rattle.pw_defs.specs.declared.netlist.Module.{Module as PlainModule};
ghost use Rattle.design_defs.specs.Hierarchy.{Sources, module_at};
ghost use Rattle.design_defs.specs.Inputs.{AreReadSources};
ghost use Rattle.net_links.specs.declared.rows.LinkRow.{LinkRow as Row};
ghost use Rattle.net_links.specs.Adding.{AreParts, AreSourcesOf, HasFewBitsAround, HasOpen, IsLinkable};
ghost use Rattle.net_links.specs.LocalLinks.{AreLocalLinks, locals};
ghost use Rattle.net_runs.specs.Wired.{IsWired};

use crate::lines::{add_assigns, add_insts};
use crate::ports::Linker;
use crate::rows::{LinkRow, Links};
use module_rows::Modules;
use net_places::{Plans, Spellings};
use net_runs::{Lookup, Run};
use pw_defs::{Body, Cells, List, Memory, Model};
use std::alloc::Global;

/// The rows of a module.
fn rows_of(
    alloc: Global,
    linker: &Linker,
    holder: u32,
    left: &mut Vec<Run>,
    right: &mut Vec<Run>,
) -> Result<List<LinkRow>, Memory>
    requires open { HasOpen linker.now holder }
    requires holder { holder < length linker.now.spellings.modules.now.modules }
    ensures { IfOk result (λ rows. (s : Sources) → AreSourcesOf linker.now s → (m : PlainModule) → IsLinkable s holder m → AreLocalLinks s holder m (locals rows)) }
{
    let mut rows = List::new(alloc);
    add_insts(linker, holder, left, &mut rows)?;
    add_assigns(linker, holder, left, right, &mut rows)?;
    Ok(rows)
}

/// Opens a module, and adds its rows.
fn add_module(
    alloc: Global,
    linker: &mut Linker,
    holder: u32,
    left: &mut Vec<Run>,
    right: &mut Vec<Run>,
    links: &mut Links,
) -> Result<(), Memory>
    requires lookup { HasOpen linker.old linker.old.lookup.holder }
    requires holder { holder < length linker.old.spellings.modules.now.modules }
    ensures open { IfOk result (λ _. HasOpen linker.new holder) }
    ensures same { OnOk result (linker.new ≡ record linker.old { lookup = linker.new.lookup }) }
    ensures rows { IfOk result (λ _. (rows : List Row) × (links.new ≡ links.old ++ rows ∷ [])
        × ((s : Sources) → AreSourcesOf linker.old s → (m : PlainModule) → IsLinkable s holder m → AreLocalLinks s holder m (locals rows))) }
{
    linker.lookup.open(holder);
    let rows = rows_of(alloc, linker, holder, left, right)?;
    links.add(rows)?;
    Ok(())
}

/// The links that the lines of each module make.
///
/// Each line is looked at once, also of modules that the top does not reach. A line whose ends are not there has no rows,
/// or some of them. Errors: want of memory alone.
pub fn links_of(
    alloc: Global,
    modules: &Modules,
    types: &List<List<Option<Body>>>,
    plans: &Plans,
    cells: &Cells,
    models: &List<Model>,
) -> Result<Links, Memory>
    ensures { IfOk result (λ links. (s : Sources) → AreParts s modules.now cells.now models.now types.now plans.now → AreReadSources s
        → (n : ℕ) → (m : PlainModule) → module_at s n ≡ Some m → IsWired s m → HasFewBitsAround s n m → AreLocalLinks s n m (locals (slice_index_or links n []))) }
{
    let lookup = Lookup::new(alloc, modules, plans)?;
    let mut linker = Linker {
        spellings: Spellings {
            modules,
            cells,
            models,
        },
        types,
        plans,
        lookup,
    };
    let mut left = Vec::new(alloc);
    let mut right = Vec::new(alloc);
    let mut links = Links::new(alloc);
    for holder in 0..modules.len() {
        add_module(
            alloc,
            &mut linker,
            holder,
            &mut left,
            &mut right,
            &mut links,
        )?;
    }
    Ok(links)
}
