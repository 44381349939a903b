//! Marks of the bits that links feed.
ghost use Rattle.std.specs.Prelude.{◌≡◌, ℕ, ◌++◌, ◌∷◌, [], Bool, List, Option, Some, None, IfOk, IsTrue, take};
ghost use Rattle.net_feeds.specs.LinkNumbers.{links_at, links_before};
ghost use Rattle.net_feeds.specs.Marked.{AreFed, IsTaken, feed_of};
ghost use Rattle.net_feeds.specs.declared.links.LinkAt.{LinkAt as PlainLink};

use crate::links::{LinkAt, links_at};
use design_rows::Feed;
use net_instances::Instances;
use net_links::Links;
use pw_defs::Memory;
use std::alloc::Global;

/// What feeds each bit, and which bits may be fed by no other link.
#[derive(Drop)]
pub(crate) struct Marks {
    pub(crate) feeds: Vec<Feed>,
    pub(crate) taken: Vec<bool>,
}

/// What a link feeds its bit with.
fn feed_of(source: Option<u32>) -> Feed
    ensures { result ≡ feed_of source }
{
    match source {
        Some(bit) => Feed::Bit(bit),
        None => Feed::Constant,
    }
}

/// Marks a bit, and says whether it had no mark before.
fn take(marks: &mut Marks, bit: u32, feed: Feed) -> Result<bool, Memory>
    ensures { IfOk result (λ free. IsTrue free → IsTaken bit feed marks.old marks.new) }
{
    let at = bit as usize;
    if at >= marks.taken.len() || at >= marks.feeds.len() {
        return Err(Memory);
    }
    if marks.taken[at] {
        return Ok(false);
    }
    marks.taken[at] = true;
    marks.feeds[at] = feed;
    Ok(true)
}

/// Marks the bit of a link, and says whether it had no mark before.
fn feed(marks: &mut Marks, link: LinkAt) -> Result<bool, Memory>
    ensures { IfOk result (λ free. IsTrue free → (given : List Bool) → (links : List PlainLink) → AreFed given links marks.old → AreFed given (links ++ link ∷ []) marks.new) }
{
    match link.fed {
        Some(bit) => {
            let free = take(marks, bit, feed_of(link.source))?;
            Ok(free)
        }
        None => Ok(true),
    }
}

/// Marks the bits of links up to the first that has a mark already, and says whether there is none.
fn feed_each(marks: &mut Marks, links: &[LinkAt]) -> Result<bool, Memory>
    ensures { IfOk result (λ free. IsTrue free → (given : List Bool) → (before : List PlainLink) → AreFed given before marks.old → AreFed given (before ++ links.now) marks.new) }
{
    for link in links {
        if !feed(marks, *link)? {
            return Ok(false);
        }
    }
    Ok(true)
}

/// Marks the bits of the links of the first instances. Answers the first one that has a link to a bit with a mark, if any.
pub(crate) fn feed_first(
    alloc: Global,
    instances: &Instances,
    links: &Links,
    count: u32,
    marks: &mut Marks,
) -> Result<Option<u32>, Memory>
    ensures { IfOk result (λ twice. twice ≡ None → (given : List Bool) → AreFed given [] marks.old → AreFed given (links_before links.now instances.now count) marks.new) }
{
    let mut here = Vec::new(alloc);
    for inst in 0..count {
        links_at(instances, links, inst, &mut here)?;
        if !feed_each(marks, here.as_slice())? {
            return Ok(Some(inst));
        }
    }
    Ok(None)
}

/// The marks at the start, with those that are given.
pub(crate) fn first_marks(alloc: Global, given: &[bool]) -> Result<Marks, Memory>
    ensures { IfOk result (λ marks. AreFed given.now [] marks) }
{
    let feeds = vec![in alloc; Feed::Nothing; given.len()]?;
    let mut taken = Vec::with_capacity(alloc, given.len())?;
    for mark in given {
        taken.push(*mark)?;
    }
    Ok(Marks { feeds, taken })
}
