//! The walks of a design, made in one pass over its bits.
ghost use Rattle.std.specs.Prelude.{◌≡◌, ◌<◌, Some, length, map, IfOk};
ghost use Rattle.std.specs.Option.{option_map};
ghost use Rattle.std.specs.List.{slice_get};
ghost use Rattle.design_defs.specs.Walks.{AreWalks};
ghost use Rattle.design_walks.specs.Ends.{AreEnds, IsStartOf};
ghost use Rattle.design_walks.specs.Trails.{next_bits, walk_of};

use crate::ends::end_of;
use crate::places::start_of;
use crate::rows::{StartRow, Walks};
use design_rows::Design;
use pw_defs::{List, Memory, PortBit};
use std::alloc::{AllocError, Global};

/// The bit at which a walk goes on behind each bit.
fn next_bits(alloc: Global, design: &Design) -> Result<Vec<Option<u32>>, AllocError>
    ensures { IfOk result (λ next. next.items ≡ next_bits design.now.bits) }
{
    let mut next = Vec::with_capacity(alloc, design.len_bits() as usize)?;
    for n in 0..design.len_bits() {
        next.push(design.next(n))?;
    }
    Ok(next)
}

/// Where the walk from a bit begins, which is that of the port bit `to`, and how it ends.
fn start_row(design: &Design, ends: &mut [Option<u32>], bit: u32, to: PortBit) -> StartRow
    requires ends { AreEnds design.now.bits ends.old }
    requires within { bit < length design.now.bits }
    ensures row { IsStartOf design.now.bits bit to result }
    ensures ends { AreEnds design.now.bits ends.new }
{
    design.sound();
    let last = end_of(design, ends, bit);
    StartRow {
        bit,
        to,
        from: design.feeder(last),
    }
}

/// Where the walks of a design begin and how they end, in order of the bits.
fn starts(alloc: Global, design: &Design) -> Result<List<StartRow>, Memory>
    ensures { IfOk result (λ starts. AreWalks design.now (map (walk_of (next_bits design.now.bits)) starts)) }
{
    design.sound();
    let mut ends = Vec::from_elem(alloc, None, design.len_bits() as usize)?;
    let mut starts = List::new(alloc);
    for n in 0..design.len_bits() {
        if let Some(to) = start_of(design, design.port(n)) {
            starts.push(start_row(design, &mut ends, n, to))?;
        }
    }
    Ok(starts)
}

/// From each place where a walk begins, in order of the bits: the walk back along the feeders to where it ends. Time and
/// memory are linear in the bits.
pub fn walks(alloc: Global, design: &Design) -> Result<Walks, Memory>
    ensures { IfOk result (λ walks. AreWalks design.now walks) }
{
    let next = next_bits(alloc, design)?;
    let starts = starts(alloc, design)?;
    Ok(Walks::new(next, starts))
}
