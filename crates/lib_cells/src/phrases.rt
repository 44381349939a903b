//! The small phrases of libraries: arguments and values.
ghost use Rattle.std.specs.Prelude.{◌≡◌, ◌<◌, ◌≤◌, ◌-◌, OnOk, length, map, if◌then◌else◌};
ghost use Rattle.std.specs.Option.{option_map};
ghost use Rattle.text_defs.specs.Grammar.{read};
ghost use Rattle.text_defs.specs.Phrases.{many, option};
ghost use Rattle.text_defs.specs.Tokens.{of_class, one_of};
ghost use Rattle.text_streams.specs.Answers.{Answers, Gives, with_front};
ghost use Rattle.lib_cells.specs.Groups.{arguments, further_argument, goes_on, is_comma, is_plain_word, is_word, most, semicolon, some_arguments, value};
ghost use Rattle.lib_cells.specs.Kept.{Shows, are_some};
ghost use Rattle.lib_cells.specs.Marks.{lone, lone_if_any};
ghost use Rattle.lib_cells.specs.Streams.{text_of, word_view};

use crate::lexer::Word;
use crate::tokens::{Tokens, Wanted};
use pw_defs::List;
use std::alloc::Global;
use text_streams::Stop;

/// A semicolon, or nothing.
#[tactic(auto, unfolding(text_defs::specs::Grammar::read))]
pub fn semicolon<'a>(tokens: &mut Tokens<'a>) -> Result<Option<Word<'a>>, Stop>
    ensures answers { Answers (option_map word_view) semicolon tokens.old result tokens.new }
    ensures longer { OnOk result (length tokens.new ≤ length tokens.old) }
{
    if !tokens.is_next(Wanted::Semicolon) {
        return Ok(None);
    }
    let word = tokens.one(Wanted::Semicolon)?;
    Ok(Some(word))
}

/// A comma, or nothing.
#[tactic(auto, unfolding(text_defs::specs::Grammar::read))]
fn comma<'a>(tokens: &mut Tokens<'a>) -> Result<Option<Word<'a>>, Stop>
    ensures answers { Answers (option_map word_view) (option (of_class is_comma) (one_of is_comma)) tokens.old result tokens.new }
    ensures longer { OnOk result (length tokens.new ≤ length tokens.old) }
{
    if !tokens.is_next(Wanted::Comma) {
        return Ok(None);
    }
    let word = tokens.one(Wanted::Comma)?;
    Ok(Some(word))
}

/// A further argument.
#[tactic(auto, unfolding(text_defs::specs::Grammar::read))]
fn further_argument<'a>(tokens: &mut Tokens<'a>) -> Result<Word<'a>, Stop>
    ensures answers { Answers text_of further_argument tokens.old result tokens.new }
    ensures shorter { OnOk result (length tokens.new < length tokens.old) }
{
    comma(tokens)?;
    let word = tokens.one(Wanted::Word)?;
    Ok(word)
}

/// The further arguments behind those that there are.
fn more_arguments<'a>(
    tokens: &mut Tokens<'a>,
    words: List<Word<'a>>,
) -> Result<List<Word<'a>>, Stop>
    ensures answers { Gives (map text_of) (with_front (map text_of words.entry)
        (read (many (4294967296 - length words.entry) (of_class goes_on) further_argument) tokens.old)) result tokens.new }
    ensures longer { OnOk result (length tokens.new ≤ length tokens.old) }
{
    let mut all = words;
    while tokens.is_next(Wanted::Argument) {
        if all.len() == u32::MAX {
            return Err(Stop::Memory);
        }
        let word = further_argument(tokens)?;
        all.push(word)?;
    }
    Ok(all)
}

/// One argument or more.
fn some_arguments<'a>(alloc: Global, tokens: &mut Tokens<'a>) -> Result<List<Word<'a>>, Stop>
    ensures answers { Answers (map text_of) some_arguments tokens.old result tokens.new }
    ensures shorter { OnOk result (length tokens.new < length tokens.old) }
{
    let first = tokens.one(Wanted::Word)?;
    let mut all = List::new(alloc);
    all.push(first)?;
    more_arguments(tokens, all)
}

/// The arguments inside parentheses, which may be none.
#[tactic(auto, unfolding(text_defs::specs::Grammar::read))]
fn arguments_inside<'a>(
    alloc: Global,
    tokens: &mut Tokens<'a>,
) -> Result<Option<List<Word<'a>>>, Stop>
    ensures answers { Answers (option_map (map text_of)) (option (of_class is_word) some_arguments) tokens.old result tokens.new }
    ensures longer { OnOk result (length tokens.new ≤ length tokens.old) }
{
    if !tokens.is_next(Wanted::Word) {
        return Ok(None);
    }
    let words = some_arguments(alloc, tokens)?;
    Ok(Some(words))
}

/// The words between parentheses, which may be none.
#[tactic(auto, unfolding(text_defs::specs::Grammar::read))]
pub fn arguments<'a>(alloc: Global, tokens: &mut Tokens<'a>) -> Result<List<Word<'a>>, Stop>
    ensures answers { Answers (map text_of) arguments tokens.old result tokens.new }
    ensures shorter { OnOk result (length tokens.new < length tokens.old) }
{
    tokens.one(Wanted::Open)?;
    let words = arguments_inside(alloc, tokens)?;
    tokens.one(Wanted::Shut)?;
    match words {
        None => Ok(List::new(alloc)),
        Some(words) => Ok(words),
    }
}

/// Passes over further arguments, and tells whether there are any.
fn further_arguments(tokens: &mut Tokens<'_>) -> Result<bool, Stop>
    ensures answers { Shows (λ any. any) are_some (many most (of_class goes_on) further_argument) tokens.old result tokens.new }
    ensures longer { OnOk result (length tokens.new ≤ length tokens.old) }
{
    let mut count = 0;
    let mut any = false;
    while tokens.is_next(Wanted::Argument) {
        if count == u32::MAX {
            return Err(Stop::Memory);
        }
        further_argument(tokens)?;
        any = true;
        count += 1;
    }
    Ok(any)
}

/// A word, if it is the only one.
fn only(word: &[u8], others: bool) -> Option<&[u8]>
    ensures { option_map (λ w. w.now) result ≡ (if others then None else Some word.now) }
{
    if others {
        return None;
    }
    Some(word)
}

/// One argument or more, of which an only one is kept.
#[tactic(auto, unfolding(text_defs::specs::Grammar::read))]
fn only_of_some<'a>(tokens: &mut Tokens<'a>) -> Result<Option<&'a [u8]>, Stop>
    ensures answers { Shows (option_map (λ w. w.now)) lone some_arguments tokens.old result tokens.new }
    ensures shorter { OnOk result (length tokens.new < length tokens.old) }
{
    let first = tokens.one(Wanted::Word)?;
    let others = further_arguments(tokens)?;
    Ok(only(first.text, others))
}

/// The arguments inside parentheses, of which an only one is kept.
#[tactic(auto, unfolding(text_defs::specs::Grammar::read))]
fn only_inside<'a>(tokens: &mut Tokens<'a>) -> Result<Option<&'a [u8]>, Stop>
    ensures answers { Shows (option_map (λ w. w.now)) lone_if_any (option (of_class is_word) some_arguments) tokens.old result tokens.new }
    ensures longer { OnOk result (length tokens.new ≤ length tokens.old) }
{
    if !tokens.is_next(Wanted::Word) {
        return Ok(None);
    }
    let only = only_of_some(tokens)?;
    Ok(only)
}

/// Passes over the words between parentheses, of which an only one is kept.
#[tactic(auto, unfolding(text_defs::specs::Grammar::read))]
pub fn only_argument<'a>(tokens: &mut Tokens<'a>) -> Result<Option<&'a [u8]>, Stop>
    ensures answers { Shows (option_map (λ w. w.now)) lone arguments tokens.old result tokens.new }
    ensures shorter { OnOk result (length tokens.new < length tokens.old) }
{
    tokens.one(Wanted::Open)?;
    let only = only_inside(tokens)?;
    tokens.one(Wanted::Shut)?;
    Ok(only)
}

/// Passes over the plain words of a value, and tells whether there are any.
fn plain_words(tokens: &mut Tokens<'_>) -> Result<bool, Stop>
    ensures answers { Shows (λ any. any) are_some (many most (of_class is_plain_word) (one_of is_plain_word)) tokens.old result tokens.new }
    ensures longer { OnOk result (length tokens.new ≤ length tokens.old) }
{
    let mut count = 0;
    let mut any = false;
    while tokens.is_next(Wanted::PlainWord) {
        if count == u32::MAX {
            return Err(Stop::Memory);
        }
        tokens.one(Wanted::PlainWord)?;
        any = true;
        count += 1;
    }
    Ok(any)
}

/// Passes over the words of a value, behind a colon, of which an only one is kept.
#[tactic(auto, unfolding(text_defs::specs::Grammar::read))]
pub fn value<'a>(tokens: &mut Tokens<'a>) -> Result<Option<&'a [u8]>, Stop>
    ensures answers { Shows (option_map (λ w. w.now)) lone value tokens.old result tokens.new }
    ensures shorter { OnOk result (length tokens.new < length tokens.old) }
{
    tokens.one(Wanted::Colon)?;
    let others = plain_words(tokens)?;
    let last = tokens.one(Wanted::LastWord)?;
    semicolon(tokens)?;
    Ok(only(last.text, others))
}
