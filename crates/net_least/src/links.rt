//! Ways below modules as links that lead on to each other, and which of two such ways comes first.
ghost use Rattle.std.specs.Prelude.{◌≡◌, ◌↔◌, ℕ, List, IfOk, IsTrue, Some, reverse, slice_get};
ghost use Rattle.std.specs.declared.cmp.Ordering.TheVariants.{Less};
ghost use Rattle.design_defs.specs.Hierarchy.{Way, way_cmp};
ghost use Rattle.net_least.specs.Links.{IsLonger, IsSpelled, IsWalked, IsWay, by_text};

use module_rows::Modules;
use pw_defs::Memory;
use std::alloc::Global;
use std::cmp::Ordering;

/// An instance on a way down, by the symbol of its name, and the link of the instance further down that the way leads to,
/// if it does.
#[derive(Clone, Copy)]
pub(crate) struct Link {
    pub(crate) name: u32,
    pub(crate) next: Option<u32>,
}

/// The path of a way, a slash before each of its names, and how long it is after each of them.
#[derive(Drop)]
pub(crate) struct Text {
    bytes: Vec<u8>,
    ends: Vec<u64>,
}

/// Writes the name of an instance.
fn write_name(modules: &Modules, text: &mut Text, name: u32) -> Result<(), Memory>
    ensures { IfOk result (λ _. (spelling : List ℕ) → slice_get modules.now.symbols name ≡ Some spelling
        → IsLonger text.old text.new spelling) }
{
    if name < modules.symbols() {
        text.bytes.push(b'/')?;
        text.bytes.extend_from_slice(modules.spelling(name))?;
        text.ends.push(text.bytes.len() as u64)?;
    }
    Ok(())
}

/// Writes the name of a link, and answers which link follows.
fn next_link(
    modules: &Modules,
    links: &[Link],
    text: &mut Text,
    place: u32,
) -> Result<Option<u32>, Memory>
    ensures { IfOk result (λ rest. (way : Way) → IsWalked modules.now.symbols links.now way (Some place) text.old → IsWalked modules.now.symbols links.now way rest text.new) }
{
    match links.get(place as usize) {
        Some(link) => {
            write_name(modules, text, link.name)?;
            Ok(link.next)
        }
        None => Ok(None),
    }
}

/// The text of the way from a link on.
fn text_of(
    alloc: Global,
    modules: &Modules,
    links: &[Link],
    at: Option<u32>,
) -> Result<Text, Memory>
    ensures { IfOk result (λ text. (way : Way) → IsWay modules.now.symbols links.now at way → IsSpelled text way) }
{
    let mut text = Text {
        bytes: Vec::new(alloc),
        ends: Vec::new(alloc),
    };
    let mut rest = at;
    for _ in 0..u64::MAX {
        match rest {
            Some(place) => {
                rest = next_link(modules, links, &mut text, place)?;
            }
            None => return Ok(text),
        }
    }
    Err(Memory)
}

/// The order of two texts: by their bytes, then by where names end, the last first.
fn text_order(left: Text, right: Text) -> Ordering
    ensures { result ≡ by_text left.bytes.items right.bytes.items (reverse left.ends.items) (reverse right.ends.items) }
{
    let Text {
        bytes: left_bytes,
        ends: mut left_ends,
    } = left;
    let Text {
        bytes: right_bytes,
        ends: mut right_ends,
    } = right;
    match left_bytes.as_slice().cmp(right_bytes.as_slice()) {
        Ordering::Less => Ordering::Less,
        Ordering::Greater => Ordering::Greater,
        Ordering::Equal => {
            left_ends.reverse();
            right_ends.reverse();
            left_ends.as_slice().cmp(right_ends.as_slice())
        }
    }
}

/// Whether one way comes before another.
pub(crate) fn is_before(
    alloc: Global,
    modules: &Modules,
    links: &[Link],
    left: Option<u32>,
    right: Option<u32>,
) -> Result<bool, Memory>
    ensures { IfOk result (λ before. (v w : Way) → IsWay modules.now.symbols links.now left v → IsWay modules.now.symbols links.now right w → IsTrue before ↔ (way_cmp v w ≡ Less)) }
{
    let first = text_of(alloc, modules, links, left)?;
    let second = text_of(alloc, modules, links, right)?;
    match text_order(first, second) {
        Ordering::Less => Ok(true),
        Ordering::Equal | Ordering::Greater => Ok(false),
    }
}
