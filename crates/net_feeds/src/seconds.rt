//! The links of an instance to bits that are fed already.
ghost use Rattle.std.specs.Prelude.{◌≡◌, ◌++◌, ◌∷◌, [], ◌↔◌, Bool, List, IfOk, IsSome, IsTrue, take};
ghost use Rattle.net_feeds.specs.Marked.{IsMarked};
ghost use Rattle.net_feeds.specs.Seconds.{AreSeconds, AreSeen, IsFoundAlso, IsFoundIf, IsSeenOnce, earlier_line, later_line};
ghost use Rattle.net_feeds.specs.declared.links.LinkAt.{LinkAt as PlainLink};

use crate::links::LinkAt;
use pw_defs::Memory;
use std::alloc::Global;

/// The first line that has a link to a bit that is fed already, and all such bits on it. Nothing was found where there are
/// no bits.
#[derive(Drop)]
pub(crate) struct Found {
    pub(crate) line: u32,
    pub(crate) bits: Vec<u32>,
}

/// What was found among the links so far, and the first line that feeds each bit.
#[derive(Drop)]
pub(crate) struct Seen {
    pub(crate) lows: Vec<Option<u32>>,
    pub(crate) found: Found,
}

/// Finds one more.
fn find(found: &mut Found, line: u32, bit: u32) -> Result<(), Memory>
    ensures { IfOk result (λ _. IsFoundAlso line bit found.old found.new) }
{
    if found.bits.as_slice().is_empty() || line < found.line {
        found.bits.clear();
        found.line = line;
        found.bits.push(bit)?;
        return Ok(());
    }
    if line == found.line {
        found.bits.push(bit)?;
    }
    Ok(())
}

/// Whether a bit had a mark before.
fn is_marked(taken: &[bool], bit: u32) -> bool
    ensures { IsTrue result ↔ IsMarked taken.now bit }
{
    match taken.get(bit as usize) {
        Some(mark) => *mark,
        None => false,
    }
}

/// Finds a link whose bit had a mark before.
fn find_marked(taken: &[bool], found: &mut Found, line: u32, bit: u32) -> Result<(), Memory>
    ensures { IfOk result (λ _. IsFoundIf (IsMarked taken.now bit) line bit found.old found.new) }
{
    if !is_marked(taken, bit) {
        return Ok(());
    }
    find(found, line, bit)?;
    Ok(())
}

/// Finds a link whose bit an earlier one feeds, on the later of both lines.
fn find_again(low: Option<u32>, found: &mut Found, line: u32, bit: u32) -> Result<(), Memory>
    ensures { IfOk result (λ _. IsFoundIf (IsSome low) (later_line low line) bit found.old found.new) }
{
    match low {
        Some(low) => {
            find(found, low.max(line), bit)?;
            Ok(())
        }
        None => Ok(()),
    }
}

/// The earlier of two lines.
fn earlier_line(low: Option<u32>, line: u32) -> u32
    ensures { result ≡ earlier_line low line }
{
    match low {
        Some(low) => low.min(line),
        None => line,
    }
}

/// Looks at one more line that feeds a bit.
fn see_bit(taken: &[bool], seen: &mut Seen, line: u32, bit: u32) -> Result<(), Memory>
    ensures { IfOk result (λ _. IsSeenOnce taken.now line bit seen.old seen.new) }
{
    let at = bit as usize;
    if at >= seen.lows.len() {
        return Err(Memory);
    }
    let low = seen.lows[at];
    find_marked(taken, &mut seen.found, line, bit)?;
    find_again(low, &mut seen.found, line, bit)?;
    seen.lows[at] = Some(earlier_line(low, line));
    Ok(())
}

/// Looks at one more link.
fn see(taken: &[bool], seen: &mut Seen, link: LinkAt) -> Result<(), Memory>
    ensures { IfOk result (λ _. (links : List PlainLink) → AreSeen taken.now links seen.old → AreSeen taken.now (links ++ link ∷ []) seen.new) }
{
    match link.fed {
        Some(bit) => {
            see_bit(taken, seen, link.line, bit)?;
            Ok(())
        }
        None => Ok(()),
    }
}

/// Nothing seen yet.
fn unseen(alloc: Global, bits: usize) -> Result<Seen, Memory>
    ensures { IfOk result (λ seen. (taken : List Bool) → AreSeen taken [] seen) }
{
    Ok(Seen {
        lows: vec![in alloc; None; bits]?,
        found: Found {
            line: 0,
            bits: Vec::new(alloc),
        },
    })
}

/// The first line with a link to a bit that is marked or that another of the links on that line or an earlier one feeds,
/// and all such bits on it.
pub(crate) fn seconds_of(alloc: Global, taken: &[bool], links: &[LinkAt]) -> Result<Found, Memory>
    ensures { IfOk result (λ found. AreSeconds taken.now links.now found) }
{
    let mut seen = unseen(alloc, taken.len())?;
    for link in links {
        see(taken, &mut seen, *link)?;
    }
    let Seen { found, .. } = seen;
    Ok(found)
}
