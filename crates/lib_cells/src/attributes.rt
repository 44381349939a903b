//! What the attributes of a group of pins say.
ghost use Rattle.std.specs.Prelude.{◌≡◌, ◌<◌, ◌≤◌, ◌∷◌, [], OnOk, length};
ghost use Rattle.text_defs.specs.Phrases.{many};
ghost use Rattle.text_defs.specs.Tokens.{of_class};
ghost use Rattle.lib_cells.specs.Groups.{block, entry, is_word, most, present};
ghost use Rattle.lib_cells.specs.Kept.{Shows, attribute_entry};
ghost use Rattle.lib_cells.specs.Marks.{marks_of};

use crate::marks::Marks;
use crate::phrases::{only_argument, value};
use crate::skips::{behind_skipped, block_end};
use crate::tokens::{Tokens, Wanted};
use text_streams::Stop;

/// What an entry says, in which groups nest no more than `depth` deep: something only if it is an attribute.
#[tactic(auto, unfolding(text_defs::specs::Grammar::read))]
fn attribute_entry(tokens: &mut Tokens<'_>, depth: u32) -> Result<Marks, Stop>
    ensures answers { Shows (λ marks. marks) (λ a. marks_of (present (a ∷ []))) (attribute_entry depth) tokens.old result tokens.new }
    ensures shorter { OnOk result (length tokens.new < length tokens.old) }
{
    let name = tokens.one(Wanted::Word)?;
    if tokens.is_next(Wanted::Colon) {
        let word = value(tokens)?;
        return Ok(Marks::of(name.text, word));
    }
    only_argument(tokens)?;
    behind_skipped(tokens, depth)?;
    Ok(Marks::none())
}

/// What entries one behind the other say.
fn attribute_entries(tokens: &mut Tokens<'_>, depth: u32) -> Result<Marks, Stop>
    ensures answers { Shows (λ marks. marks) (λ entries. marks_of (present entries)) (many most (of_class is_word) (entry depth)) tokens.old result tokens.new }
    ensures longer { OnOk result (length tokens.new ≤ length tokens.old) }
{
    let mut all = Marks::none();
    let mut count = 0;
    while tokens.is_next(Wanted::Word) {
        if count == u32::MAX {
            return Err(Stop::Memory);
        }
        let entry = attribute_entry(tokens, depth)?;
        all = all.over(entry);
        count += 1;
    }
    Ok(all)
}

/// What the attributes of a block say.
#[tactic(auto, unfolding(text_defs::specs::Grammar::read))]
pub fn attribute_block(tokens: &mut Tokens<'_>, depth: u32) -> Result<Marks, Stop>
    ensures answers { Shows (λ marks. marks) (λ entries. marks_of (present entries)) (block (entry depth)) tokens.old result tokens.new }
    ensures shorter { OnOk result (length tokens.new < length tokens.old) }
{
    tokens.one(Wanted::LeftBrace)?;
    let all = attribute_entries(tokens, depth)?;
    block_end(tokens)?;
    Ok(all)
}
