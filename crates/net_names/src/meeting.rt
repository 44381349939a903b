//! Names that are met one after the other, and the first place at which one is met again.
ghost use Rattle.std.specs.Prelude.{◌≡◌, [], None, IfOk};
ghost use Rattle.net_names.specs.Meets.{first_of, met, name_at_cmp};

use name_index::NameIndex;
use pw_defs::{Memory, Name};
use std::alloc::Global;
use std::cmp::Ordering;

/// Where a name stands: the number of the instance whose module has the line, and the line.
#[derive(Clone, Copy)]
pub(crate) struct Place {
    pub(crate) holder: u32,
    pub(crate) line: u32,
}

/// A name with its place.
#[derive(Drop)]
pub(crate) struct NameAt {
    pub(crate) place: Place,
    pub(crate) name: Name,
}

/// The names that were met, each once, and the first that was met again: by instance, then by line, then by name.
#[derive(Drop)]
pub(crate) struct Meeting {
    pub(crate) names: NameIndex,
    pub(crate) first: Option<NameAt>,
}

/// The order of a name at a place and of the first that was met again.
fn order(place: Place, name: &[u8], first: &NameAt) -> Ordering
    ensures { result ≡ name_at_cmp (record { place = place; name = name.now }) first.now }
{
    match place.holder.cmp(&first.place.holder) {
        Ordering::Less => Ordering::Less,
        Ordering::Greater => Ordering::Greater,
        Ordering::Equal => match place.line.cmp(&first.place.line) {
            Ordering::Less => Ordering::Less,
            Ordering::Greater => Ordering::Greater,
            Ordering::Equal => name.cmp(first.name.as_slice()),
        },
    }
}

/// The first of what was met again before, if any, and one more name.
fn first_of(
    alloc: Global,
    first: Option<NameAt>,
    place: Place,
    name: &[u8],
) -> Result<NameAt, Memory>
    ensures { IfOk result (λ found. found ≡ first_of first (record { place = place; name = name.now })) }
{
    let next = NameAt {
        place,
        name: Name::from_slice(alloc, name)?,
    };
    match first {
        Some(before) => match order(place, name, &before) {
            Ordering::Less => Ok(next),
            Ordering::Equal | Ordering::Greater => Ok(before),
        },
        None => Ok(next),
    }
}

/// No names.
pub(crate) fn no_names(alloc: Global) -> Meeting
    ensures { result ≡ record { names = []; first = None } }
{
    Meeting {
        names: NameIndex::new(alloc),
        first: None,
    }
}

/// Meets a name.
pub(crate) fn meet(
    alloc: Global,
    meeting: &mut Meeting,
    place: Place,
    name: &[u8],
) -> Result<(), Memory>
    ensures { IfOk result (λ _. meeting.new ≡ met meeting.old (record { place = place; name = name.now })) }
{
    if meeting.names.add(name)? {
        return Ok(());
    }
    let first = first_of(alloc, meeting.first.take(), place, name)?;
    meeting.first = Some(first);
    Ok(())
}
