//! The names of pins in the words of a group's head.
ghost use Rattle.std.specs.Prelude.{◌≡◌, ◌==◌, ◌++◌, ◌∷◌, [], IfErr, IfOk, length, filter, map, not, reverse};
ghost use Rattle.std.specs.List.{flat_map, slice_split};
ghost use Rattle.text_streams.specs.declared.stops.Stop.TheVariants as stops;
ghost use Rattle.lib_cells.specs.Groups.{from_ink, names_in, trimmed};
ghost use Rattle.lib_cells.specs.Streams.{text_of};

use crate::lexer::Word;
use pw_defs::List;
use std::alloc::{AllocError, Global};
use text_streams::{Stop, is_white};

/// A text from its first byte on that is no white space.
fn from_ink(text: &[u8]) -> &[u8]
    ensures { result.now ≡ from_ink text.now }
{
    let mut rest = text;
    while let Some((byte, more)) = rest.split_first() {
        if !is_white(*byte) {
            return rest;
        }
        rest = more;
    }
    rest
}

/// A text up to its last byte that is no white space.
fn to_ink(text: &[u8]) -> &[u8]
    ensures { result.now ≡ reverse (from_ink (reverse text.now)) }
{
    let mut rest = text;
    while let Some((byte, more)) = rest.split_last() {
        if !is_white(*byte) {
            return rest;
        }
        rest = more;
    }
    rest
}

/// A text without the white space at both its ends.
fn trimmed(text: &[u8]) -> &[u8]
    ensures { result.now ≡ trimmed text.now }
{
    to_ink(from_ink(text))
}

/// The parts of a text between commas.
fn parts(alloc: Global, text: &[u8]) -> Result<Vec<&[u8]>, AllocError>
    ensures { IfOk result (λ v. map (λ x. x.now) v.items ≡ slice_split (λ b. b == 44) text.now) }
{
    text.split(|b| *b == b',').collect(alloc)
}

/// The names that there are, and this one, if it isn't empty.
fn with_name<'a>(name: &'a [u8], names: List<&'a [u8]>) -> Result<List<&'a [u8]>, Stop>
    ensures names { IfOk result (λ all. map (λ n. n.now) all
        ≡ map (λ n. n.now) names.entry ++ filter (λ n. not (length n == 0)) (name.now ∷ [])) }
    ensures memory { IfErr result (λ e. e ≡ stops.Memory) }
{
    if name.is_empty() {
        return Ok(names);
    }
    let mut all = names;
    all.push(name)?;
    Ok(all)
}

/// The names that there are, and those of these parts.
fn with_parts<'a>(parts: &[&'a [u8]], names: List<&'a [u8]>) -> Result<List<&'a [u8]>, Stop>
    ensures names { IfOk result (λ all. map (λ n. n.now) all
        ≡ map (λ n. n.now) names.entry ++ filter (λ name. not (length name == 0)) (map trimmed (map (λ x. x.now) parts.now))) }
    ensures memory { IfErr result (λ e. e ≡ stops.Memory) }
{
    let mut all = names;
    for part in parts {
        all = with_name(trimmed(*part), all)?;
    }
    Ok(all)
}

/// The names that there are, and those in a word.
fn with_word<'a>(
    alloc: Global,
    text: &'a [u8],
    names: List<&'a [u8]>,
) -> Result<List<&'a [u8]>, Stop>
    ensures names { IfOk result (λ all. map (λ n. n.now) all ≡ map (λ n. n.now) names.entry ++ names_in text.now) }
    ensures memory { IfErr result (λ e. e ≡ stops.Memory) }
{
    let parts = parts(alloc, text)?;
    let all = with_parts(parts.as_slice(), names)?;
    Ok(all)
}

/// The names in words.
pub fn names_in<'a>(alloc: Global, words: &[Word<'a>]) -> Result<List<&'a [u8]>, Stop>
    ensures names { IfOk result (λ all. map (λ n. n.now) all ≡ flat_map names_in (map text_of words.now)) }
    ensures memory { IfErr result (λ e. e ≡ stops.Memory) }
{
    let mut all = List::new(alloc);
    for word in words {
        all = with_word(alloc, word.text, all)?;
    }
    Ok(all)
}
