//! The small phrases of netlists: names, numbers, ranges, directions and selections.
ghost use Rattle.std.specs.Prelude.{◌≡◌, ◌<◌, ◌≤◌, OnOk, length};
ghost use Rattle.text_defs.specs.Phrases.{option};
ghost use Rattle.text_defs.specs.Tokens.{one_of, of_class};
ghost use Rattle.std.specs.Option.{option_map};
ghost use Rattle.net_text.specs.NetlistClasses.{is_wire, is_colon, is_left_bracket};
ghost use Rattle.net_text.specs.NetlistGrammar.{name, number, range, range_option, shape, colon_number, selection};
ghost use Rattle.net_text.specs.Streams.{word_view};
ghost use Rattle.text_streams.specs.Answers.{Answers};
ghost use Rattle.net_text.specs.CommaLists.{named_view};
ghost use Rattle.net_text.specs.ParserViews.{shape_view};

use crate::classes::NetClass;
use crate::runs;
use crate::tokens::{NameAt, Tokens};
use crate::words::Word;
use pw_defs::Dir;
use text_streams::Stop;

/// The direction and range of ports.
#[derive(Clone, Copy)]
pub struct ShapeOf {
    pub dir: Dir,
    pub range: Option<(u32, u32)>,
}

/// A name.
#[tactic(auto, unfolding(text_defs::specs::Grammar::read))]
pub fn name<'a>(tokens: &mut Tokens<'a>) -> Result<NameAt<'a>, Stop>
    ensures answers { Answers named_view name tokens.old result tokens.new }
    ensures shorter { OnOk result (length tokens.new < length tokens.old) }
{
    let word = tokens.one(NetClass::Name)?;
    Ok(NameAt {
        text: word.text,
        line: word.line,
    })
}

/// A number of at most 65,535.
#[tactic(auto, unfolding(text_defs::specs::Grammar::read))]
pub fn number(tokens: &mut Tokens<'_>) -> Result<u32, Stop>
    ensures answers { Answers (λ n. n) number tokens.old result tokens.new }
    ensures shorter { OnOk result (length tokens.new < length tokens.old) }
{
    let word = tokens.one(NetClass::Number)?;
    Ok(runs::number_of(word.text))
}

/// A range, its left place first.
#[tactic(auto, unfolding(text_defs::specs::Grammar::read))]
pub fn range(tokens: &mut Tokens<'_>) -> Result<(u32, u32), Stop>
    ensures answers { Answers (λ r. r) range tokens.old result tokens.new }
    ensures shorter { OnOk result (length tokens.new < length tokens.old) }
{
    tokens.one(NetClass::LeftBracket)?;
    let left = number(tokens)?;
    tokens.one(NetClass::Colon)?;
    let right = number(tokens)?;
    tokens.one(NetClass::RightBracket)?;
    Ok((left, right))
}

/// A range, or none.
#[tactic(auto, unfolding(text_defs::specs::Grammar::read))]
pub fn range_option(tokens: &mut Tokens<'_>) -> Result<Option<(u32, u32)>, Stop>
    ensures answers { Answers (λ r. r) range_option tokens.old result tokens.new }
    ensures longer { OnOk result (length tokens.new ≤ length tokens.old) }
{
    if !tokens.is_next(NetClass::LeftBracket) {
        return Ok(None);
    }
    let range = range(tokens)?;
    Ok(Some(range))
}

/// A direction, the word `wire` or not, a range or none.
#[tactic(auto, unfolding(text_defs::specs::Grammar::read))]
pub fn shape(tokens: &mut Tokens<'_>) -> Result<ShapeOf, Stop>
    ensures answers { Answers shape_view shape tokens.old result tokens.new }
    ensures shorter { OnOk result (length tokens.new < length tokens.old) }
{
    let dir = tokens.direction()?;
    wire_option(tokens)?;
    let range = range_option(tokens)?;
    Ok(ShapeOf { dir, range })
}

/// The word `wire`, or nothing.
#[tactic(auto, unfolding(text_defs::specs::Grammar::read))]
fn wire_option<'a>(tokens: &mut Tokens<'a>) -> Result<Option<Word<'a>>, Stop>
    ensures answers { Answers (option_map word_view) (option (of_class is_wire) (one_of is_wire)) tokens.old result tokens.new }
    ensures longer { OnOk result (length tokens.new ≤ length tokens.old) }
{
    if !tokens.is_next(NetClass::Wire) {
        return Ok(None);
    }
    let word = tokens.one(NetClass::Wire)?;
    Ok(Some(word))
}

/// A number behind a colon, or none.
#[tactic(auto, unfolding(text_defs::specs::Grammar::read))]
fn colon_option(tokens: &mut Tokens<'_>) -> Result<Option<u32>, Stop>
    ensures answers { Answers (λ n. n) (option (of_class is_colon) colon_number) tokens.old result tokens.new }
    ensures longer { OnOk result (length tokens.new ≤ length tokens.old) }
{
    if !tokens.is_next(NetClass::Colon) {
        return Ok(None);
    }
    tokens.one(NetClass::Colon)?;
    let number = number(tokens)?;
    Ok(Some(number))
}

/// `[m]` or `[m:l]`.
#[tactic(auto, unfolding(text_defs::specs::Grammar::read))]
fn selection(tokens: &mut Tokens<'_>) -> Result<(u32, Option<u32>), Stop>
    ensures answers { Answers (λ s. s) selection tokens.old result tokens.new }
    ensures shorter { OnOk result (length tokens.new < length tokens.old) }
{
    tokens.one(NetClass::LeftBracket)?;
    let left = number(tokens)?;
    let right = colon_option(tokens)?;
    tokens.one(NetClass::RightBracket)?;
    Ok((left, right))
}

/// A selection, or none.
#[tactic(auto, unfolding(text_defs::specs::Grammar::read))]
pub fn selection_option(tokens: &mut Tokens<'_>) -> Result<Option<(u32, Option<u32>)>, Stop>
    ensures answers { Answers (λ s. s) (option (of_class is_left_bracket) selection) tokens.old result tokens.new }
    ensures longer { OnOk result (length tokens.new ≤ length tokens.old) }
{
    if !tokens.is_next(NetClass::LeftBracket) {
        return Ok(None);
    }
    let selection = selection(tokens)?;
    Ok(Some(selection))
}
