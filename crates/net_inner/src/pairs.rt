//! What a cell or model says of its bits, put down by the numbers of these.
ghost use Rattle.std.specs.Prelude.{◌≡◌, option_and_then, option_map, slice_get};
ghost use Rattle.std.specs.List.{flat_map};
ghost use Rattle.net_inner.specs.Pairs.{pairs_of_cell, pairs_of_model, pairs_of_partial, pairs_of_pin, pairs_through, with_pair, with_pairs, with_source};

use name_index::NameIndex;
use pw_defs::{Cell, Dir, Model, Partial, Pin};

/// Puts down that a bit is fed by another.
fn put_source(fed: Option<u32>, source: Option<u32>, sources: &mut Vec<Option<u32>>)
    ensures { sources.new.items ≡ with_source fed source sources.old.items }
{
    match fed {
        Some(fed) => match source {
            Some(source) => {
                if (fed as usize) < sources.len() {
                    sources[fed as usize] = Some(source);
                }
            }
            None => {}
        },
        None => {}
    }
}

/// Puts down that the bit of a name is fed by that of another.
fn put_pair(index: &NameIndex, fed: &[u8], source: &[u8], sources: &mut Vec<Option<u32>>)
    ensures { sources.new.items ≡ with_pair index.now (fed.now, source.now) sources.old.items }
{
    put_source(index.find(fed), index.find(source), sources);
}

/// Puts down what feeds a pin.
fn put_pin(index: &NameIndex, pin: &Pin, through: &[u8], sources: &mut Vec<Option<u32>>)
    ensures { sources.new.items ≡ with_pairs index.now (pairs_of_pin through.now pin.now) sources.old.items }
{
    match pin.dir {
        Dir::Input => {}
        Dir::Output => put_pair(index, pin.name.as_slice(), through, sources),
    }
}

/// Puts down what feeds each of some pins.
fn put_pins(index: &NameIndex, pins: &[Pin], through: &[u8], sources: &mut Vec<Option<u32>>)
    ensures { sources.new.items ≡ with_pairs index.now (flat_map (pairs_of_pin through.now) pins.now) sources.old.items }
{
    for pin in pins {
        put_pin(index, pin, through, sources);
    }
}

/// The through pin of a cell.
fn through_pin(cell: &Cell) -> Option<&Pin>
    ensures { option_map (λ pin. pin.now) result ≡ option_and_then (slice_get cell.now.pins) cell.now.through }
{
    cell.pins.get(cell.through?)
}

/// Puts down what feeds the pins of a cell.
pub(crate) fn put_cell(index: &NameIndex, cell: &Cell, sources: &mut Vec<Option<u32>>)
    ensures { sources.new.items ≡ with_pairs index.now (pairs_of_cell cell.now) sources.old.items }
{
    if !(cell.iso || cell.shift) {
        return;
    }
    match through_pin(cell) {
        Some(through) => put_pins(
            index,
            cell.pins.as_slice(),
            through.name.as_slice(),
            sources,
        ),
        None => {}
    }
}

/// Puts down what a walk of a model says.
fn put_partial(index: &NameIndex, walk: &Partial, sources: &mut Vec<Option<u32>>)
    ensures { sources.new.items ≡ with_pairs index.now (pairs_of_partial walk.now) sources.old.items }
{
    match walk {
        Partial::Feed { bit, from, .. } => put_pair(
            index,
            bit.as_slice(),
            from.as_slice(),
            sources,
        ),
        Partial::Drive { .. } | Partial::Quiet { .. } | Partial::Take { .. } => {}
    }
}

/// Puts down what walks of a model say.
fn put_walks(index: &NameIndex, walks: &[Partial], sources: &mut Vec<Option<u32>>)
    ensures { sources.new.items ≡ with_pairs index.now (flat_map pairs_of_partial walks.now) sources.old.items }
{
    for walk in walks {
        put_partial(index, walk, sources);
    }
}

/// Puts down what a model says.
pub(crate) fn put_model(index: &NameIndex, model: &Model, sources: &mut Vec<Option<u32>>)
    ensures { sources.new.items ≡ with_pairs index.now (pairs_of_model model.now) sources.old.items }
{
    put_walks(index, model.partials.as_slice(), sources);
}
