//! The design that a library and a netlist of the first form mean.
ghost use Rattle.std.specs.Prelude.{◌≡◌, ◌≤◌, true, false, map, length, sum_by, IfOk, IsSomeAnd, MatchOption};
ghost use Rattle.std.specs.List.{list_all};
ghost use Rattle.list_defs.specs.Members.{all_differ, same_name};
ghost use Rattle.form_design.specs.Names.{table_of, names as names_of};
ghost use Rattle.form_design.specs.Hierarchy.{size, starts_from, lines_at, helds, bits};
ghost use Rattle.form_design.specs.Fits.{has_size, has_one_feeder, hierarchy_fits, top_fits_by, top_fits, design_fits};
ghost use Rattle.form_design.specs.Designs.{design_with};
ghost use Rattle.form_design.specs.Sound.{AreHeld};
ghost use Rattle.form_design.specs.Results.{IsHierarchy, IsDesignOver, IsDesignOf};

use crate::hierarchy::{Held, children, helds};
use crate::names::Names;
use crate::{cells, checks, indices, wiring, words};
use line_forms::{CellLines, ModuleLines};
use name_index::NameIndex;
use pw_defs::{Bit, Cells, Design, List, Memory};
use std::alloc::Global;

/// A design, with the names of the instances in its top.
#[derive(Drop)]
pub struct FormDesign {
    pub design: Design,
    pub instances: NameIndex,
}

/// The bits of the instances with their links, which is `None` where one has two feeders.
fn linked_bits(
    alloc: Global,
    names: &Names,
    helds: &[Held],
    starts: &[u64],
) -> Result<Option<Vec<Bit>>, Memory>
    requires few { length helds.now ≤ 1000000 }
    requires held { AreHeld names.now helds.now }
    requires starts { starts.now ≡ starts_from names.now 0 helds.now }
    requires small { sum_by (size names.now) helds.now ≤ 8000000 }
    ensures { IfOk result (λ r. MatchOption r
        (has_one_feeder names.now helds.now ≡ false)
        (λ linked. (linked.items ≡ bits names.now helds.now) × (has_one_feeder names.now helds.now ≡ true))) }
{
    let links = wiring::links(alloc, names, starts, helds)?;
    let mut bits = wiring::own_bits(alloc, names, helds)?;
    if wiring::connect(&mut bits, links.as_slice()) {
        Ok(Some(bits))
    } else {
        Ok(None)
    }
}

/// The bits of the instances with their links, which is `None` where there are too many or one has two feeders.
fn bits_of(alloc: Global, names: &Names, helds: &[Held]) -> Result<Option<Vec<Bit>>, Memory>
    requires few { length helds.now ≤ 1000000 }
    requires held { AreHeld names.now helds.now }
    ensures { IfOk result (λ r. MatchOption r
        (hierarchy_fits names.now helds.now ≡ false)
        (λ linked. (linked.items ≡ bits names.now helds.now) × (hierarchy_fits names.now helds.now ≡ true))) }
{
    match wiring::starts(alloc, names, helds)? {
        Some(starts) => linked_bits(alloc, names, helds, starts.as_slice()),
        None => Ok(None),
    }
}

/// The names of the instances in the top.
fn instances(
    alloc: Global,
    modules: &List<ModuleLines>,
    top: u32,
) -> Result<Option<NameIndex>, Memory>
    requires { list_all (λ m. all_differ same_name (names_of m)) modules.now ≡ true }
    ensures { IfOk result (λ r. IsSomeAnd r (λ index. index ≡ map (λ i. i.name) (lines_at modules.now top))) }
{
    match modules.get(top) {
        Some(lines) => Ok(NameIndex::from_names(
            alloc,
            words::inst_words(alloc, lines)?.as_slice(),
        )?),
        None => Ok(Some(NameIndex::new(alloc))),
    }
}

/// The instances at and below a top, with their bits.
#[derive(Drop)]
struct Hierarchy {
    helds: Vec<Held>,
    bits: Vec<Bit>,
}

/// The top with all instances below it, which is `None` where it has too many instances or bits. The bits of the
/// instances in it are counted first, so that what they hold is gone through only where there can be room for it.
fn held_in(
    alloc: Global,
    names: &Names,
    modules: &List<ModuleLines>,
    top: u32,
) -> Result<Option<Vec<Held>>, Memory>
    ensures { IfOk result (λ r. MatchOption r
        (has_size names.now (helds names.now modules.now top) ≡ false)
        (λ hs. (hs.items ≡ helds names.now modules.now top) × (length hs.items ≤ 1000000))) }
{
    let in_top = children(alloc, names, modules, top)?;
    match wiring::starts(alloc, names, in_top.as_slice())? {
        Some(_) => helds(alloc, names, modules, top, in_top),
        None => Ok(None),
    }
}

/// What a top holds, which is `None` where it isn't of the form.
fn hierarchy_of(
    alloc: Global,
    names: &Names,
    lines: &List<CellLines>,
    modules: &List<ModuleLines>,
    top: u32,
) -> Result<Option<Hierarchy>, Memory>
    requires held { AreHeld names.now (helds names.now modules.now top) }
    ensures { IfOk result (λ r. MatchOption r
        (top_fits_by names.now lines.now modules.now top ≡ false)
        (λ h. IsHierarchy names.now lines.now modules.now top h.helds.items h.bits.items)) }
{
    if !checks::top_is_shallow(alloc, names, lines, modules, top)? {
        return Ok(None);
    }
    let Some(helds) = held_in(alloc, names, modules, top)? else {
        return Ok(None);
    };
    Ok(match bits_of(alloc, names, helds.as_slice())? {
        Some(bits) => Some(Hierarchy { helds, bits }),
        None => None,
    })
}

/// The design of the instances and the bits.
fn design_with(
    alloc: Global,
    lines: &List<CellLines>,
    modules: &List<ModuleLines>,
    hierarchy: Hierarchy,
) -> Result<Design, Memory>
    ensures { IfOk result (λ d. d ≡ design_with lines.now modules.now hierarchy.helds.items hierarchy.bits.items) }
{
    Ok(Design {
        cells: Cells {
            cells: cells::cells_of(alloc, lines.as_slice())?,
        },
        modules: cells::modules_of(alloc, modules.as_slice())?,
        models: List::new(alloc),
        insts: cells::instances_of(alloc, hierarchy.helds.as_slice())?,
        bits: List::from_vec(hierarchy.bits).ok_or(Memory)?,
    })
}

/// The design over a top that is of the form.
fn named_design(
    alloc: Global,
    lines: &List<CellLines>,
    modules: &List<ModuleLines>,
    top: u32,
    hierarchy: Hierarchy,
) -> Result<Option<FormDesign>, Memory>
    requires differ { list_all (λ m. all_differ same_name (names_of m)) modules.now ≡ true }
    requires held { IsHierarchy (table_of lines.now modules.now) lines.now modules.now top hierarchy.helds.items hierarchy.bits.items }
    ensures { IfOk result (λ r. MatchOption r
        (top_fits lines.now modules.now top ≡ false)
        (λ x. (top_fits lines.now modules.now top ≡ true) × IsDesignOver lines.now modules.now top x.design x.instances)) }
{
    match instances(alloc, modules, top)? {
        Some(instances) => Ok(Some(FormDesign {
            design: design_with(alloc, lines, modules, hierarchy)?,
            instances,
        })),
        None => Ok(None),
    }
}

/// The design over a top, which is `None` where what the top holds isn't of the form.
fn design_over(
    alloc: Global,
    names: &Names,
    lines: &List<CellLines>,
    modules: &List<ModuleLines>,
    top: u32,
) -> Result<Option<FormDesign>, Memory>
    requires named { names.now ≡ table_of lines.now modules.now }
    requires differ { list_all (λ m. all_differ same_name (names_of m)) modules.now ≡ true }
    ensures { IfOk result (λ r. MatchOption r
        (top_fits lines.now modules.now top ≡ false)
        (λ x. (top_fits lines.now modules.now top ≡ true) × IsDesignOver lines.now modules.now top x.design x.instances)) }
{
    match hierarchy_of(alloc, names, lines, modules, top)? {
        Some(hierarchy) => named_design(alloc, lines, modules, top, hierarchy),
        None => Ok(None),
    }
}

/// The design over the module of a name, which is `None` exactly where the library and the netlist aren't of the form.
pub fn design_of(
    alloc: Global,
    lines: &List<CellLines>,
    modules: &List<ModuleLines>,
    top: &[u8],
) -> Result<Option<FormDesign>, Memory>
    ensures { IfOk result (λ r. MatchOption r
        (design_fits lines.now modules.now top.now ≡ false)
        (λ x. IsDesignOf lines.now modules.now top.now x.design x.instances)) }
{
    let Some(names) = indices::names_of(alloc, lines.as_slice(), modules.as_slice())? else {
        return Ok(None);
    };
    if !checks::all_have_roles(lines.as_slice()) || !checks::all_placed(alloc, &names, modules)? {
        return Ok(None);
    }
    let Some(number) = names.module_place(top) else {
        return Ok(None);
    };
    design_over(alloc, &names, lines, modules, number)
}
