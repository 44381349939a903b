//! What is read of a library without being kept: the entries and groups inside groups that cells have no use for.
ghost use Rattle.std.specs.Prelude.{◌≡◌, ◌<◌, ◌≤◌, OnOk, None, length};
ghost use Rattle.text_defs.specs.Phrases.{many};
ghost use Rattle.text_defs.specs.Tokens.{of_class};
ghost use Rattle.text_streams.specs.Answers.{Answers};
ghost use Rattle.lib_cells.specs.Groups.{block, entry, is_word, most};
ghost use Rattle.lib_cells.specs.Kept.{Shows, attribute_entry, behind_entry, end_of_block, nothing};

use crate::phrases::{only_argument, semicolon, value};
use crate::tokens::{Tokens, Wanted};
use text_streams::Stop;

/// The end of a block.
#[tactic(auto, unfolding(text_defs::specs::Grammar::read))]
pub fn block_end(tokens: &mut Tokens<'_>) -> Result<(), Stop>
    ensures answers { Answers (λ _. tt) end_of_block tokens.old result tokens.new }
    ensures shorter { OnOk result (length tokens.new < length tokens.old) }
{
    tokens.one(Wanted::RightBrace)?;
    semicolon(tokens)?;
    Ok(())
}

/// An entry in which groups nest no more than `depth` deep.
#[cycle(skip)]
#[tactic(auto, unfolding(text_defs::specs::Grammar::read))]
fn entry_skipped(tokens: &mut Tokens<'_>, depth: u32) -> Result<(), Stop>
    ensures answers { Shows nothing nothing (attribute_entry depth) tokens.old result tokens.new }
    ensures shorter { OnOk result (length tokens.new < length tokens.old) }
{
    tokens.one(Wanted::Word)?;
    if tokens.is_next(Wanted::Colon) {
        value(tokens)?;
        return Ok(());
    }
    only_argument(tokens)?;
    behind_skipped(tokens, depth)?;
    Ok(())
}

/// What stands behind the arguments of an entry in which groups nest no more than `depth` deep.
#[cycle(skip)]
#[tactic(auto, unfolding(text_defs::specs::Grammar::read))]
pub fn behind_skipped(tokens: &mut Tokens<'_>, depth: u32) -> Result<(), Stop>
    ensures answers { Answers (λ _. None) (behind_entry depth) tokens.old result tokens.new }
    ensures longer { OnOk result (length tokens.new ≤ length tokens.old) }
{
    if depth == 0 {
        semicolon(tokens)?;
        return Ok(());
    }
    if !tokens.is_next(Wanted::LeftBrace) {
        semicolon(tokens)?;
        return Ok(());
    }
    block_skipped(tokens, depth - 1)?;
    Ok(())
}

/// A block of entries.
#[cycle(skip)]
#[tactic(auto, unfolding(text_defs::specs::Grammar::read))]
fn block_skipped(tokens: &mut Tokens<'_>, depth: u32) -> Result<(), Stop>
    ensures answers { Shows nothing nothing (block (entry depth)) tokens.old result tokens.new }
    ensures shorter { OnOk result (length tokens.new < length tokens.old) }
{
    tokens.one(Wanted::LeftBrace)?;
    entries_skipped(tokens, depth)?;
    block_end(tokens)?;
    Ok(())
}

/// Entries one behind the other.
#[cycle(skip)]
fn entries_skipped(tokens: &mut Tokens<'_>, depth: u32) -> Result<(), Stop>
    ensures answers { Shows nothing nothing (many most (of_class is_word) (entry depth)) tokens.old result tokens.new }
    ensures longer { OnOk result (length tokens.new ≤ length tokens.old) }
{
    let mut count = 0;
    while tokens.is_next(Wanted::Word) {
        if count == u32::MAX {
            return Err(Stop::Memory);
        }
        entry_skipped(tokens, depth)?;
        count += 1;
    }
    Ok(())
}
