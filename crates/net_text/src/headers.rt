//! The headers of modules.
ghost use Rattle.std.specs.Prelude.{◌≡◌, ◌<◌, ◌≤◌, [], Option, None, OnOk, length, map, unwrap_or};
ghost use Rattle.std.specs.Option.{option_map};
ghost use Rattle.text_defs.specs.Grammar.{read};
ghost use Rattle.text_defs.specs.Phrases.{many, option};
ghost use Rattle.text_defs.specs.Tokens.{of_class};
ghost use Rattle.net_text.specs.NetlistClasses.{is_comma, is_direction, is_open};
ghost use Rattle.net_text.specs.NetlistGrammar.{most, further_port, shape, Names, names_header, shaped_header, header_inside, header_between, header};
ghost use Rattle.text_streams.specs.Answers.{Answers};
ghost use Rattle.net_text.specs.ParserViews.{shape_view};
ghost use Rattle.net_text.specs.HeaderViews.{port_view, header_view, some_header};

use crate::classes::NetClass;
use crate::lists::names;
use crate::phrases::{ShapeOf, name, shape};
use crate::tokens::{NameAt, Tokens};
use pw_defs::List;
use std::alloc::Global;
use text_streams::Stop;

/// A further port of a header with directions.
#[derive(Clone, Copy)]
pub struct PortAt<'a> {
    pub shape: Option<ShapeOf>,
    pub name: NameAt<'a>,
}

/// What a module's header holds: names, or ports with directions.
#[derive(Drop)]
pub enum HeaderAt<'a> {
    Names(List<NameAt<'a>>),
    Shaped {
        shape: ShapeOf,
        name: NameAt<'a>,
        more: List<PortAt<'a>>,
    },
}

/// A direction and a range, or none.
#[tactic(auto, unfolding(text_defs::specs::Grammar::read))]
fn shape_option(tokens: &mut Tokens<'_>) -> Result<Option<ShapeOf>, Stop>
    ensures answers { Answers (option_map shape_view) (option (of_class is_direction) shape) tokens.old result tokens.new }
    ensures longer { OnOk result (length tokens.new ≤ length tokens.old) }
{
    if !tokens.is_direction_next() {
        return Ok(None);
    }
    let shape = shape(tokens)?;
    Ok(Some(shape))
}

/// A further port of a header with directions.
#[tactic(auto, unfolding(text_defs::specs::Grammar::read))]
fn further_port<'a>(tokens: &mut Tokens<'a>) -> Result<PortAt<'a>, Stop>
    ensures answers { Answers port_view further_port tokens.old result tokens.new }
    ensures shorter { OnOk result (length tokens.new < length tokens.old) }
{
    tokens.one(NetClass::Comma)?;
    let shape = shape_option(tokens)?;
    let name = name(tokens)?;
    Ok(PortAt { shape, name })
}

/// The further ports of a header with directions.
fn further_ports<'a>(alloc: Global, tokens: &mut Tokens<'a>) -> Result<List<PortAt<'a>>, Stop>
    ensures answers { Answers (map port_view) (many most (of_class is_comma) further_port) tokens.old result tokens.new }
    ensures longer { OnOk result (length tokens.new ≤ length tokens.old) }
{
    let mut all = List::new(alloc);
    while tokens.is_next(NetClass::Comma) {
        if all.len() == u32::MAX {
            return Err(Stop::Memory);
        }
        let port = further_port(tokens)?;
        all.push(port)?;
    }
    Ok(all)
}

/// A header of names.
#[tactic(auto, unfolding(text_defs::specs::Grammar::read))]
fn names_header<'a>(alloc: Global, tokens: &mut Tokens<'a>) -> Result<HeaderAt<'a>, Stop>
    ensures answers { Answers header_view names_header tokens.old result tokens.new }
    ensures shorter { OnOk result (length tokens.new < length tokens.old) }
{
    let names = names(alloc, tokens)?;
    Ok(HeaderAt::Names(names))
}

/// A header with directions.
#[tactic(auto, unfolding(text_defs::specs::Grammar::read))]
fn shaped_header<'a>(alloc: Global, tokens: &mut Tokens<'a>) -> Result<HeaderAt<'a>, Stop>
    ensures answers { Answers header_view shaped_header tokens.old result tokens.new }
    ensures shorter { OnOk result (length tokens.new < length tokens.old) }
{
    let shape = shape(tokens)?;
    let name = name(tokens)?;
    let more = further_ports(alloc, tokens)?;
    Ok(HeaderAt::Shaped { shape, name, more })
}

/// What stands between the parentheses of a header, or nothing.
#[tactic(auto, unfolding(text_defs::specs::Grammar::read))]
fn header_inside<'a>(alloc: Global, tokens: &mut Tokens<'a>) -> Result<Option<HeaderAt<'a>>, Stop>
    ensures answers { Answers (option_map header_view) header_inside tokens.old result tokens.new }
    ensures longer { OnOk result (length tokens.new ≤ length tokens.old) }
{
    if !tokens.is_header_next() {
        return Ok(None);
    }
    let header = some_header(alloc, tokens)?;
    Ok(Some(header))
}

/// A header of names, or one with directions, by its first token.
#[tactic(auto, unfolding(text_defs::specs::Grammar::read))]
fn some_header<'a>(alloc: Global, tokens: &mut Tokens<'a>) -> Result<HeaderAt<'a>, Stop>
    ensures answers { Answers header_view some_header tokens.old result tokens.new }
    ensures shorter { OnOk result (length tokens.new < length tokens.old) }
{
    if tokens.is_next(NetClass::Name) {
        return names_header(alloc, tokens);
    }
    shaped_header(alloc, tokens)
}

/// A header in its parentheses.
#[tactic(auto, unfolding(text_defs::specs::Grammar::read))]
fn header_between<'a>(alloc: Global, tokens: &mut Tokens<'a>) -> Result<Option<HeaderAt<'a>>, Stop>
    ensures answers { Answers (option_map header_view) header_between tokens.old result tokens.new }
    ensures shorter { OnOk result (length tokens.new < length tokens.old) }
{
    tokens.one(NetClass::Open)?;
    let inside = header_inside(alloc, tokens)?;
    tokens.one(NetClass::Shut)?;
    Ok(inside)
}

/// A header in its parentheses, or none.
#[tactic(auto, unfolding(text_defs::specs::Grammar::read))]
fn header_option<'a>(
    alloc: Global,
    tokens: &mut Tokens<'a>,
) -> Result<Option<Option<HeaderAt<'a>>>, Stop>
    ensures answers { Answers (option_map (option_map header_view)) (option (of_class is_open) header_between) tokens.old result tokens.new }
    ensures longer { OnOk result (length tokens.new ≤ length tokens.old) }
{
    if !tokens.is_next(NetClass::Open) {
        return Ok(None);
    }
    let header = header_between(alloc, tokens)?;
    Ok(Some(header))
}

/// The header that was read; no header is one of no names.
fn header_in<'a>(alloc: Global, header: Option<Option<HeaderAt<'a>>>) -> HeaderAt<'a>
    ensures { header_view result ≡ unwrap_or (unwrap_or (option_map (option_map header_view) header.entry) None) (Names []) }
{
    match header {
        Some(Some(header)) => header,
        Some(None) | None => HeaderAt::Names(List::new(alloc)),
    }
}

/// The header of a module, which may be left out.
#[tactic(auto, unfolding(text_defs::specs::Grammar::read))]
pub fn header<'a>(alloc: Global, tokens: &mut Tokens<'a>) -> Result<HeaderAt<'a>, Stop>
    ensures answers { Answers header_view header tokens.old result tokens.new }
    ensures longer { OnOk result (length tokens.new ≤ length tokens.old) }
{
    let found = header_option(alloc, tokens)?;
    Ok(header_in(alloc, found))
}
