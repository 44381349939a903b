//! Runs of bits.
ghost use Rattle.std.specs.Prelude.{◌≡◌, length};
ghost use Rattle.design_defs.specs.Ranges.{place_at};
ghost use Rattle.net_runs.specs.Leaves.{part_run, run_between};
ghost use Rattle.net_runs.specs.LocalNumbers.{run_bits};

use net_places::NetRow;

/// What a name or a constant of an expression stands for: bits of the module with numbers one behind another, or constant
/// bits.
#[derive(Clone, Copy)]
pub enum Run {
    Bits { first: u64, count: u64 },
    Constants { count: u64 },
}

impl Run {
    /// How many bits there are.
    pub fn count(self) -> u64
        ensures { result ≡ length (run_bits self) }
    {
        match self {
            Run::Bits { count, .. } => count,
            Run::Constants { count } => count,
        }
    }
}

/// The place of an index of a vector, `None` where the vector has none of this index.
fn place_at(range: (u32, u32), index: u32) -> Option<u32>
    ensures { result ≡ place_at range index }
{
    let (left, right) = range;
    if right <= left {
        if right <= index && index <= left {
            Some(left - index)
        } else {
            None
        }
    } else if left <= index && index <= right {
        Some(index - left)
    } else {
        None
    }
}

/// The bits from one place to another, the first not behind the last, of a net whose first bit has the number `first`.
fn run_between(first: u64, left: Option<u32>, right: Option<u32>) -> Option<Run>
    ensures { result ≡ run_between first left right }
{
    let left = left?;
    let right = right?;
    if left <= right {
        Some(Run::Bits {
            first: first.saturating_add(u64::from(left)),
            count: u64::from(right - left) + 1,
        })
    } else {
        None
    }
}

/// The bits of a net from one index to another, in the direction of its range.
pub(crate) fn part_run(row: NetRow, left: u32, right: u32) -> Option<Run>
    ensures { result ≡ part_run row.first row.range left right }
{
    let range = row.range?;
    run_between(row.first, place_at(range, left), place_at(range, right))
}
