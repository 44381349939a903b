//! Expressions: names with their selections, constants, and concatenations in braces.
ghost use Rattle.std.specs.Prelude.{◌≡◌, ◌<◌, ◌≤◌, OnOk, length, map};
ghost use Rattle.text_defs.specs.Grammar.{read};
ghost use Rattle.net_text.specs.NetlistGrammar.{selected, selected_name, constant, operand, nested, unlined, concatenation, comma_list};
ghost use Rattle.text_streams.specs.Answers.{Answers, Gives, with_front};
ghost use Rattle.net_text.specs.CommaLists.{further, comma_then};
ghost use Rattle.net_text.specs.ParserViews.{lined_view, alone};

use crate::classes::NetClass;
use crate::phrases::{name, selection_option};
use crate::runs;
use crate::tokens::Tokens;
use pw_defs::{Expr, List, Name};
use std::alloc::Global;
use text_streams::Stop;

/// An expression, and the line of its first token.
#[derive(Drop)]
pub struct ExprAt {
    pub expr: Expr,
    pub line: u32,
}

/// A name, or a part of it.
fn selected(name: Name, selection: Option<(u32, Option<u32>)>) -> Expr
    ensures { result ≡ selected name selection }
{
    match selection {
        None => Expr::Whole(name),
        Some((place, None)) => Expr::Bit(name, place),
        Some((left, Some(right))) => Expr::Part(name, left, right),
    }
}

/// A name that stands alone, with a selection or none.
#[tactic(auto, unfolding(text_defs::specs::Grammar::read))]
fn selected_name(alloc: Global, tokens: &mut Tokens<'_>) -> Result<ExprAt, Stop>
    ensures answers { Answers lined_view selected_name tokens.old result tokens.new }
    ensures shorter { OnOk result (length tokens.new < length tokens.old) }
{
    let name = name(tokens)?;
    let text = Name::from_slice(alloc, name.text)?;
    let selection = selection_option(tokens)?;
    Ok(ExprAt {
        expr: selected(text, selection),
        line: name.line,
    })
}

/// A constant, of which the width counts.
#[tactic(auto, unfolding(text_defs::specs::Grammar::read))]
fn constant(tokens: &mut Tokens<'_>) -> Result<ExprAt, Stop>
    ensures answers { Answers lined_view constant tokens.old result tokens.new }
    ensures shorter { OnOk result (length tokens.new < length tokens.old) }
{
    let word = tokens.one(NetClass::Constant)?;
    let width = runs::number_of(runs::digits_at(word.text));
    Ok(ExprAt {
        expr: Expr::Const(width),
        line: word.line,
    })
}

/// A name that stands alone, or a constant.
#[tactic(auto, unfolding(text_defs::specs::Grammar::read))]
fn operand(alloc: Global, tokens: &mut Tokens<'_>) -> Result<ExprAt, Stop>
    ensures answers { Answers lined_view operand tokens.old result tokens.new }
    ensures shorter { OnOk result (length tokens.new < length tokens.old) }
{
    if tokens.is_next(NetClass::Name) {
        return selected_name(alloc, tokens);
    }
    constant(tokens)
}

/// What may stand alone: constants only where they are allowed.
fn alone(alloc: Global, tokens: &mut Tokens<'_>, constants: bool) -> Result<ExprAt, Stop>
    ensures answers { Answers lined_view (alone constants) tokens.old result tokens.new }
    ensures shorter { OnOk result (length tokens.new < length tokens.old) }
{
    if constants {
        return operand(alloc, tokens);
    }
    selected_name(alloc, tokens)
}

/// What may stand alone, or such things in braces that nest no more than `depth` deep.
#[cycle(nested)]
pub fn nested(
    alloc: Global,
    tokens: &mut Tokens<'_>,
    constants: bool,
    depth: u32,
) -> Result<ExprAt, Stop>
    ensures answers { Answers lined_view (nested (alone constants) depth) tokens.old result tokens.new }
    ensures shorter { OnOk result (length tokens.new < length tokens.old) }
{
    if depth == 0 {
        return alone(alloc, tokens, constants);
    }
    if !tokens.is_next(NetClass::LeftBrace) {
        return alone(alloc, tokens, constants);
    }
    concatenation(alloc, tokens, constants, depth - 1)
}

/// Expressions between braces.
#[cycle(nested)]
#[tactic(auto, unfolding(text_defs::specs::Grammar::read))]
fn concatenation(
    alloc: Global,
    tokens: &mut Tokens<'_>,
    constants: bool,
    depth: u32,
) -> Result<ExprAt, Stop>
    ensures answers { Answers lined_view (concatenation (nested (alone constants) depth)) tokens.old result tokens.new }
    ensures shorter { OnOk result (length tokens.new < length tokens.old) }
{
    let brace = tokens.one(NetClass::LeftBrace)?;
    let parts = parts(alloc, tokens, constants, depth)?;
    tokens.one(NetClass::RightBrace)?;
    Ok(ExprAt {
        expr: Expr::Join(parts),
        line: brace.line,
    })
}

/// A part of a concatenation.
#[cycle(nested)]
#[tactic(auto, unfolding(text_defs::specs::Grammar::read))]
fn part(alloc: Global, tokens: &mut Tokens<'_>, constants: bool, depth: u32) -> Result<Expr, Stop>
    ensures answers { Answers (λ e. e) (unlined (nested (alone constants) depth)) tokens.old result tokens.new }
    ensures shorter { OnOk result (length tokens.new < length tokens.old) }
{
    let part = nested(alloc, tokens, constants, depth)?;
    Ok(part.expr)
}

/// The list between braces.
#[cycle(nested)]
fn parts(
    alloc: Global,
    tokens: &mut Tokens<'_>,
    constants: bool,
    depth: u32,
) -> Result<List<Expr>, Stop>
    ensures answers { Answers (λ l. l) (comma_list (unlined (nested (alone constants) depth))) tokens.old result tokens.new }
    ensures shorter { OnOk result (length tokens.new < length tokens.old) }
{
    let first = part(alloc, tokens, constants, depth)?;
    let mut all = List::new(alloc);
    all.push(first)?;
    more_parts(alloc, tokens, constants, depth, all)
}

/// The further parts behind a first one.
#[cycle(nested)]
fn more_parts(
    alloc: Global,
    tokens: &mut Tokens<'_>,
    constants: bool,
    depth: u32,
    parts: List<Expr>,
) -> Result<List<Expr>, Stop>
    requires { length parts ≡ 1 }
    ensures answers { Gives (map (λ e. e)) (with_front (map (λ e. e) parts) (read (further (unlined (nested (alone constants) depth))) tokens.old)) result tokens.new }
    ensures longer { OnOk result (length tokens.new ≤ length tokens.old) }
{
    let mut all = parts;
    while tokens.is_next(NetClass::Comma) {
        if all.len() == u32::MAX {
            return Err(Stop::Memory);
        }
        let part = comma_part(alloc, tokens, constants, depth)?;
        all.push(part)?;
    }
    Ok(all)
}

/// A further part, behind a comma.
#[cycle(nested)]
#[tactic(auto, unfolding(text_defs::specs::Grammar::read))]
fn comma_part(
    alloc: Global,
    tokens: &mut Tokens<'_>,
    constants: bool,
    depth: u32,
) -> Result<Expr, Stop>
    ensures answers { Answers (λ e. e) (comma_then (unlined (nested (alone constants) depth))) tokens.old result tokens.new }
    ensures shorter { OnOk result (length tokens.new < length tokens.old) }
{
    tokens.one(NetClass::Comma)?;
    part(alloc, tokens, constants, depth)
}
