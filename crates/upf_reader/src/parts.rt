//! The words of a command line, told apart by the table.
ghost use Rattle.std.specs.Prelude.{◌≡◌, ◌++◌, ◌∷◌, map, option_map, IfOk};
ghost use Rattle.upf_commands.specs.CommandRows.{value, truth, state};
ghost use Rattle.upf_commands.specs.CommandWords.{is_option, goes_on, given, AreItems};
ghost use Rattle.upf_commands.specs.Values.{truth_text};
ghost use Rattle.upf_reader.specs.Parts.{part_view, Leads, Follows, FollowsIn, SaysTruth, GoesOn};
ghost use Rattle.upf_reader.specs.Rows.{command_view, option_view};

use crate::partings::is_one_name;
use crate::table::{Behind, CommandLine, OptionLine, option_of};
use crate::words::truth_of;
use pw_defs::{Bytes, Memory};
use std::alloc::Global;

/// An own word of a command, an option with its value, a word that is no option of the command, or an option that lacks its
/// value.
#[derive(Drop)]
pub(crate) enum Part {
    Own(Bytes),
    Given(&'static OptionLine, Bytes),
    Unknown(Bytes),
    Lacking(&'static OptionLine),
}

/// Whether the word is an option.
fn is_option(word: &[u8]) -> bool
    ensures { result ≡ is_option word.now }
{
    match word {
        [first, ..] => *first == b'-',
        [] => false,
    }
}

/// How a truth is kept.
fn truth_text(truth: bool) -> &'static [u8]
    ensures { result.now ≡ truth_text truth }
{
    if truth { b"TRUE" } else { b"FALSE" }
}

/// Whether the words begin with one that is no option of the command.
fn goes_on(row: &CommandLine, words: &[Bytes]) -> bool
    ensures { result ≡ goes_on (command_view row.now) words.now }
{
    match words {
        [word, ..] => option_of(row, word.as_slice()).is_none(),
        [] => false,
    }
}

/// An option with its value.
fn given(alloc: Global, option: &'static OptionLine, value: &[u8]) -> Result<Part, Memory>
    ensures { IfOk result (λ part. part_view part ≡ given (option_view option.now) value.now) }
{
    let value = Bytes::from_slice(alloc, value)?;
    Ok(Part::Given(option, value))
}

/// An option with a value of two words.
fn given_apart(
    alloc: Global,
    option: &'static OptionLine,
    first: &[u8],
    second: &[u8],
) -> Result<Part, Memory>
    ensures { IfOk result (λ part. part_view part ≡ given (option_view option.now) (first.now ++ 32 ∷ second.now)) }
{
    let mut value = Bytes::from_slice(alloc, first)?;
    value.put(b" ")?;
    value.put(second)?;
    Ok(Part::Given(option, value))
}

/// What the next word says, where it is a truth, and the words behind it.
fn said(words: &[Bytes]) -> Option<(bool, &[Bytes])>
    ensures { SaysTruth words.now (option_map (λ r. (r.0, r.1.now)) result) }
{
    let [next, rest @ ..] = words else {
        return None;
    };
    Some((truth_of(next.as_slice())?, rest))
}

/// An option that is true or false, and the words behind it.
fn truth_part<'a>(
    alloc: Global,
    option: &'static OptionLine,
    rest: &'a [Bytes],
) -> Result<(Part, &'a [Bytes]), Memory>
    requires { (option_view option.now).arity ≡ truth }
    ensures { IfOk result (λ r. Follows (option_view option.now) rest.now (part_view r.0) r.1.now) }
{
    match said(rest) {
        Some((truth, behind)) => Ok((given(alloc, option, truth_text(truth))?, behind)),
        None => Ok((given(alloc, option, truth_text(true))?, rest)),
    }
}

/// The value behind an option, and the words behind that.
fn value_part<'a>(
    alloc: Global,
    option: &'static OptionLine,
    rest: &'a [Bytes],
) -> Result<(Part, &'a [Bytes]), Memory>
    requires { (option_view option.now).arity ≡ value }
    ensures { IfOk result (λ r. Follows (option_view option.now) rest.now (part_view r.0) r.1.now) }
{
    match rest {
        [next, behind @ ..] => Ok((given(alloc, option, next.as_slice())?, behind)),
        [] => Ok((Part::Lacking(option), rest)),
    }
}

/// The word in which a power state goes on behind its first one, and the words behind both.
fn second_word<'a>(
    alloc: Global,
    row: &CommandLine,
    first: &[u8],
    rest: &'a [Bytes],
) -> Result<Option<(&'a [u8], &'a [Bytes])>, Memory>
    ensures { IfOk result (λ r. GoesOn (command_view row.now) first.now rest.now (option_map (λ p. (p.0.now, p.1.now)) r)) }
{
    let [second, behind @ ..] = rest else {
        return Ok(None);
    };
    if !goes_on(row, rest) {
        return Ok(None);
    }
    if is_one_name(alloc, first)? {
        Ok(Some((second.as_slice(), behind)))
    } else {
        Ok(None)
    }
}

/// A power state in one word or two, and the words behind it.
fn state_part<'a>(
    alloc: Global,
    row: &CommandLine,
    option: &'static OptionLine,
    rest: &'a [Bytes],
) -> Result<(Part, &'a [Bytes]), Memory>
    requires { (option_view option.now).arity ≡ state }
    ensures { IfOk result (λ r. FollowsIn (command_view row.now) (option_view option.now) rest.now (part_view r.0) r.1.now) }
{
    let [next, behind @ ..] = rest else {
        return Ok((Part::Lacking(option), rest));
    };
    let first = next.as_slice();
    match second_word(alloc, row, first, behind)? {
        Some((second, left)) => Ok((given_apart(alloc, option, first, second)?, left)),
        None => Ok((given(alloc, option, first)?, behind)),
    }
}

/// The option's part of the line, and the words behind it.
fn option_part<'a>(
    alloc: Global,
    row: &CommandLine,
    option: &'static OptionLine,
    rest: &'a [Bytes],
) -> Result<(Part, &'a [Bytes]), Memory>
    ensures { IfOk result (λ r. FollowsIn (command_view row.now) (option_view option.now) rest.now (part_view r.0) r.1.now) }
{
    match option.behind {
        Behind::Value => value_part(alloc, option, rest),
        Behind::Flag => Ok((given(alloc, option, truth_text(true))?, rest)),
        Behind::Truth => truth_part(alloc, option, rest),
        Behind::Means(text) => Ok((given(alloc, option, text)?, rest)),
        Behind::State => state_part(alloc, row, option, rest),
    }
}

/// The part with which the line goes on, and the words behind it.
fn next_part<'a>(
    alloc: Global,
    row: &CommandLine,
    word: &Bytes,
    rest: &'a [Bytes],
) -> Result<(Part, &'a [Bytes]), Memory>
    ensures { IfOk result (λ r. Leads (command_view row.now) (word.now ∷ rest.now) (part_view r.0) r.1.now) }
{
    if !is_option(word.as_slice()) {
        return Ok((Part::Own(word.clone()?), rest));
    }
    match option_of(row, word.as_slice()) {
        Some(option) => option_part(alloc, row, option, rest),
        None => Ok((Part::Unknown(word.clone()?), rest)),
    }
}

/// The parts of the words behind a command's name.
pub(crate) fn parts_of(
    alloc: Global,
    row: &CommandLine,
    words: &[Bytes],
) -> Result<Vec<Part>, Memory>
    ensures { IfOk result (λ parts. AreItems (command_view row.now) words.now (map part_view parts.items)) }
{
    let mut parts = Vec::new(alloc);
    let mut left = words;
    while let [word, rest @ ..] = left {
        let (part, behind) = next_part(alloc, row, word, rest)?;
        parts.push(part)?;
        left = behind;
    }
    Ok(parts)
}
