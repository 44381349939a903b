//! Lists of names, with commas between them.
ghost use Rattle.std.specs.Prelude.{◌≡◌, ◌<◌, ◌≤◌, OnOk, length, map};
ghost use Rattle.text_defs.specs.Grammar.{read};
ghost use Rattle.net_text.specs.NetlistGrammar.{name, comma_list};
ghost use Rattle.text_streams.specs.Answers.{Answers, Gives, with_front};
ghost use Rattle.net_text.specs.CommaLists.{named_view, further, comma_then};

use crate::classes::NetClass;
use crate::phrases::name;
use crate::tokens::{NameAt, Tokens};
use pw_defs::List;
use std::alloc::Global;
use text_streams::Stop;

/// A further name, behind a comma.
#[tactic(auto, unfolding(text_defs::specs::Grammar::read))]
fn comma_name<'a>(tokens: &mut Tokens<'a>) -> Result<NameAt<'a>, Stop>
    ensures answers { Answers named_view (comma_then name) tokens.old result tokens.new }
    ensures shorter { OnOk result (length tokens.new < length tokens.old) }
{
    tokens.one(NetClass::Comma)?;
    name(tokens)
}

/// The further names behind a first one.
fn more_names<'a>(
    tokens: &mut Tokens<'a>,
    names: List<NameAt<'a>>,
) -> Result<List<NameAt<'a>>, Stop>
    requires { length names ≡ 1 }
    ensures answers { Gives (map named_view) (with_front (map named_view names.entry) (read (further name) tokens.old)) result tokens.new }
    ensures longer { OnOk result (length tokens.new ≤ length tokens.old) }
{
    let mut all = names;
    while tokens.is_next(NetClass::Comma) {
        if all.len() == u32::MAX {
            return Err(Stop::Memory);
        }
        let name = comma_name(tokens)?;
        all.push(name)?;
    }
    Ok(all)
}

/// Names with commas between them.
pub fn names<'a>(alloc: Global, tokens: &mut Tokens<'a>) -> Result<List<NameAt<'a>>, Stop>
    ensures answers { Answers (map named_view) (comma_list name) tokens.old result tokens.new }
    ensures shorter { OnOk result (length tokens.new < length tokens.old) }
{
    let first = name(tokens)?;
    let mut all = List::new(alloc);
    all.push(first)?;
    more_names(tokens, all)
}
