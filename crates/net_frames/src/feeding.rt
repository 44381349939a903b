//! All bits, as they are fed by links and by their own instances.
ghost use Rattle.std.specs.Prelude.{◌≡◌, ◌+◌, ◌<◌, ℕ, IfOk, length};
ghost use Rattle.design_rows.specs.Sound.{AreRows};
ghost use Rattle.design_rows.specs.View.{inst_at, size};
ghost use Rattle.net_frames.specs.Feeding.{AreFedBetween};

use crate::owners::{is_of_port, own_feed, through_pin};
use design_rows::{Feed, KindRow, Rows, reads};
use pw_defs::Memory;
use std::alloc::Global;

/// The place of the bit of the through pin among those of a kind, and 0 where there is none.
fn through_place(rows: &Rows, kind: KindRow) -> u32 {
    let Some(pin) = through_pin(rows, kind.body) else {
        return 0;
    };
    for at in 0..kind.size {
        match rows
            .places
            .as_slice()
            .get(kind.first as usize + at as usize)
        {
            Some(place) => {
                if is_of_port(*place, pin) {
                    return at;
                }
            }
            None => {}
        }
    }
    0
}

/// The places of the bits of through pins, by the numbers of kinds.
pub(crate) fn through_places(alloc: Global, rows: &Rows) -> Result<Vec<u32>, Memory> {
    let mut places = Vec::with_capacity(alloc, rows.kinds.len() as usize)?;
    for kind in rows.kinds.as_slice() {
        places.push(through_place(rows, *kind))?;
    }
    Ok(places)
}

/// What is kept at a number, and 0 past the end.
fn kept_at(numbers: &[u32], at: u32) -> u32 {
    match numbers.get(at as usize) {
        Some(number) => *number,
        None => 0,
    }
}

/// Feeds one bit of an instance.
fn feed_bit(
    rows: &Rows,
    through: u32,
    inst: u32,
    at: u32,
    feeds: &mut Vec<Feed>,
) -> Result<(), Memory>
    requires rows { AreRows rows.now }
    requires there { inst < length rows.now.insts }
    requires within { at < size rows.now (inst_at rows.now inst) }
    ensures { IfOk result (λ _. AreFedBetween rows.now ((inst_at rows.now inst).first_bit + at) ((inst_at rows.now inst).first_bit + at + 1) feeds.old.items feeds.new.items) }
{
    let n = reads::instance(rows, inst).first_bit as usize + at as usize;
    if n >= feeds.len() {
        return Err(Memory);
    }
    let feed = own_feed(rows, through, inst, at, feeds[n])?;
    feeds[n] = feed;
    Ok(())
}

/// Feeds the bits of an instance.
fn feed_instance(
    rows: &Rows,
    throughs: &[u32],
    inst: u32,
    feeds: &mut Vec<Feed>,
) -> Result<(), Memory>
    requires rows { AreRows rows.now }
    requires there { inst < length rows.now.insts }
    ensures { IfOk result (λ _. AreFedBetween rows.now (inst_at rows.now inst).first_bit ((inst_at rows.now inst).first_bit + size rows.now (inst_at rows.now inst)) feeds.old.items feeds.new.items) }
{
    let row = reads::instance(rows, inst);
    let through = kept_at(throughs, row.kind);
    for at in 0..reads::kind(rows, row).size {
        feed_bit(rows, through, inst, at, feeds)?;
    }
    Ok(())
}

/// Feeds all bits: those that links feed so, as their instances say and else as the links do.
pub(crate) fn feed_all(rows: &Rows, throughs: &[u32], feeds: &mut Vec<Feed>) -> Result<(), Memory>
    requires { AreRows rows.now }
    ensures { IfOk result (λ _. AreFedBetween rows.now 0 (length rows.now.feeds.items) feeds.old.items feeds.new.items) }
{
    for inst in 0..rows.insts.len() {
        feed_instance(rows, throughs, inst, feeds)?;
    }
    Ok(())
}
