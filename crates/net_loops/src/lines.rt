//! The first line that feeds one of the bits with marks: by instance, then by line, then by mark, as `IsFirstOfAll` says.
ghost use Rattle.std.specs.Prelude.{◌≡◌, ◌+◌, ◌<◌, ◌∷◌, [], IfOk, IfSome, Some, length, slice_get};
ghost use Rattle.std.specs.List.{flat_map};
ghost use Rattle.module_rows.specs.Reads.{module_at};
ghost use Rattle.pw_defs.specs.declared.design.Body.TheVariants.{Module as ModuleBody};
ghost use Rattle.net_loops.specs.Lines.{FindsFirst, IsFirst, IsFirstOfAll, IsLesser, line_if, lines_at, lines_inside, lines_of_body, lines_of_inst, lines_of_link, lines_of_row, mark_at};

use net_bits::Placed;
use net_feeds::{LinkAt, links_at};
use net_inner::Inner;
use net_instances::InstanceRow;
use net_links::Links;
use pw_defs::{Body, Memory};
use std::alloc::Global;

/// A line, a bit that it feeds, and the mark of this.
#[derive(Clone, Copy)]
pub(crate) struct Candidate {
    pub(crate) line: u32,
    pub(crate) rank: u32,
    pub(crate) bit: u32,
}

/// The mark of a bit.
fn mark_at(marks: &[Option<u32>], bit: u32) -> Option<u32>
    ensures { result ≡ mark_at marks.now bit }
{
    *marks.get(bit as usize)?
}

/// The first of two, the earlier one found where they are on one line and of one mark.
fn first_of(old: Option<Candidate>, new: Candidate) -> Candidate
    ensures { IsLesser old new result }
{
    match old {
        Some(old) => {
            if new.line < old.line || (new.line == old.line && new.rank < old.rank) {
                new
            } else {
                old
            }
        }
        None => new,
    }
}

/// Looks at a bit that a line feeds.
fn look_at(
    marks: &[Option<u32>],
    line: u32,
    bit: u32,
    first: Option<Candidate>,
) -> Option<Candidate>
    ensures { FindsFirst marks.now ((line, bit) ∷ []) first result }
{
    match mark_at(marks, bit) {
        Some(rank) => Some(first_of(first, Candidate { line, rank, bit })),
        None => first,
    }
}

/// Looks at a line that feeds a bit from a bit.
fn look_if(
    marks: &[Option<u32>],
    line: u32,
    fed: Option<u32>,
    source: Option<u32>,
    first: Option<Candidate>,
) -> Option<Candidate>
    ensures { FindsFirst marks.now (line_if line fed source) first result }
{
    match fed {
        Some(bit) => match source {
            Some(_) => look_at(marks, line, bit, first),
            None => first,
        },
        None => first,
    }
}

/// Looks at links.
fn look_at_links(
    marks: &[Option<u32>],
    links: &[LinkAt],
    first: Option<Candidate>,
) -> Option<Candidate>
    ensures { FindsFirst marks.now (flat_map lines_of_link links.now) first result }
{
    let mut found = first;
    for link in links {
        found = look_if(marks, link.line, link.fed, link.source, found);
    }
    found
}

/// The number of a bit so far behind another.
fn bit_behind(first: u32, place: u64) -> Option<u32>
    ensures { IfSome result (λ bit. bit ≡ first + place) }
{
    u32::try_from(u64::from(first).checked_add(place)?).ok()
}

/// Looks at the bits of an instance that are fed inside it.
fn look_inside(
    placed: &Placed,
    inner: &Inner,
    marks: &[Option<u32>],
    line: u32,
    row: InstanceRow,
    first: Option<Candidate>,
) -> Result<Option<Candidate>, Memory>
    ensures { IfOk result (λ found. FindsFirst marks.now (lines_inside placed.now inner.now line (Some row)) first found) }
{
    let mut found = first;
    for place in 0..placed.plans.bits(row.body) {
        let Some(bit) = bit_behind(row.first_bit, place) else {
            return Err(Memory);
        };
        found = look_if(
            marks,
            line,
            Some(bit),
            inner.source(row.body, place as u32),
            found,
        );
    }
    Ok(found)
}

/// Looks at the instance that a line makes.
fn look_at_inst(
    placed: &Placed,
    inner: &Inner,
    marks: &[Option<u32>],
    inst: u32,
    holder: u32,
    line: u32,
    first: Option<Candidate>,
) -> Result<Option<Candidate>, Memory>
    requires holder { holder < length placed.now.modules.now.modules }
    requires line { line < length (module_at placed.now.modules.now holder).insts }
    ensures { IfOk result (λ found. FindsFirst marks.now (lines_of_inst placed.now inner.now inst holder line) first found) }
{
    let Some(child) = placed.instances.child(inst, line) else {
        return Err(Memory);
    };
    let Some(row) = placed.instances.rows.get(child) else {
        return Err(Memory);
    };
    look_inside(
        placed,
        inner,
        marks,
        placed.modules.inst(holder, line).line,
        *row,
        first,
    )
}

/// Looks at the instances inside one.
fn look_at_insts(
    placed: &Placed,
    inner: &Inner,
    marks: &[Option<u32>],
    inst: u32,
    holder: u32,
    first: Option<Candidate>,
) -> Result<Option<Candidate>, Memory>
    ensures { IfOk result (λ found. FindsFirst marks.now (lines_of_body placed.now inner.now inst (ModuleBody holder)) first found) }
{
    if holder >= placed.modules.len() {
        return Err(Memory);
    }
    let mut found = first;
    for line in 0..placed.modules.module(holder).insts {
        found = look_at_inst(placed, inner, marks, inst, holder, line, found)?;
    }
    Ok(found)
}

/// Looks at what is inside an instance.
fn look_at_body(
    placed: &Placed,
    inner: &Inner,
    marks: &[Option<u32>],
    inst: u32,
    first: Option<Candidate>,
) -> Result<Option<Candidate>, Memory>
    ensures { IfOk result (λ found. FindsFirst marks.now (lines_of_row placed.now inner.now inst (slice_get placed.now.instances.now.rows inst)) first found) }
{
    match placed.instances.rows.get(inst) {
        Some(row) => match row.body {
            Body::Module(holder) => look_at_insts(placed, inner, marks, inst, holder, first),
            Body::Cell(_) | Body::Model(_) => Ok(first),
        },
        None => Ok(first),
    }
}

/// The first line of an instance that feeds a bit with a mark.
fn first_at(
    placed: &Placed,
    links: &Links,
    inner: &Inner,
    marks: &[Option<u32>],
    inst: u32,
    at: &mut Vec<LinkAt>,
) -> Result<Option<Candidate>, Memory>
    ensures { IfOk result (λ found. IsFirst marks.now (lines_at placed.now links.now inner.now inst) found) }
{
    links_at(placed.instances, links, inst, at)?;
    let linked = look_at_links(marks, at.as_slice(), None);
    let found = look_at_body(placed, inner, marks, inst, linked)?;
    Ok(found)
}

/// The first line, by instance, that feeds a bit with a mark, with the number of the instance.
pub(crate) fn first_line(
    alloc: Global,
    placed: &Placed,
    links: &Links,
    inner: &Inner,
    marks: &[Option<u32>],
) -> Result<Option<(u32, Candidate)>, Memory>
    ensures { IfOk result (λ found. IsFirstOfAll placed.now links.now inner.now marks.now found) }
{
    let mut at = Vec::new(alloc);
    for inst in 0..placed.instances.rows.len() {
        match first_at(placed, links, inner, marks, inst, &mut at)? {
            Some(first) => return Ok(Some((inst, first))),
            None => {}
        }
    }
    Ok(None)
}
