//! The items of a module: directions, wires, assignments and instances.
ghost use Rattle.std.specs.Prelude.{◌≡◌, ◌<◌, ◌≤◌, [], OnOk, length, map, unwrap_or};
ghost use Rattle.std.specs.Option.{option_map};
ghost use Rattle.text_defs.specs.Grammar.{read};
ghost use Rattle.text_defs.specs.Phrases.{option};
ghost use Rattle.text_defs.specs.Tokens.{of_class};
ghost use Rattle.net_text.specs.NetlistClasses.{begins_expr, is_dot};
ghost use Rattle.net_text.specs.NetlistGrammar.{expr, expr_of, target, connection, assignment, directions_item, wires_item, assigns_item, instance_item, item, comma_list};
ghost use Rattle.text_streams.specs.Answers.{Answers, Gives, with_front};
ghost use Rattle.net_text.specs.CommaLists.{further, comma_then};
ghost use Rattle.net_text.specs.ParserViews.{lined_view};
ghost use Rattle.net_text.specs.ItemViews.{item_view, itself};

use crate::classes::NetClass;
use crate::exprs::{ExprAt, nested};
use crate::lists::names;
use crate::phrases::{ShapeOf, name, range_option, shape};
use crate::tokens::{NameAt, Tokens};
use pw_defs::{Assign, Conn, Expr, List, Name};
use std::alloc::Global;
use text_streams::Stop;

/// How deep braces may nest.
const DEEPEST: u32 = 100;

/// An item of a module.
#[derive(Drop)]
pub enum ItemAt<'a> {
    Directions {
        shape: ShapeOf,
        names: List<NameAt<'a>>,
    },
    Wires {
        range: Option<(u32, u32)>,
        names: List<NameAt<'a>>,
    },
    Assigns(List<Assign>),
    Instance {
        kind: NameAt<'a>,
        name: NameAt<'a>,
        conns: List<Conn>,
    },
}

/// An expression, in which braces nest at most 100 deep.
fn expr(alloc: Global, tokens: &mut Tokens<'_>) -> Result<ExprAt, Stop>
    ensures answers { Answers lined_view expr tokens.old result tokens.new }
    ensures shorter { OnOk result (length tokens.new < length tokens.old) }
{
    nested(alloc, tokens, true, DEEPEST)
}

/// The left side of an assignment, which holds no constant.
fn target(alloc: Global, tokens: &mut Tokens<'_>) -> Result<ExprAt, Stop>
    ensures answers { Answers lined_view target tokens.old result tokens.new }
    ensures shorter { OnOk result (length tokens.new < length tokens.old) }
{
    nested(alloc, tokens, false, DEEPEST)
}

/// An expression, or none.
#[tactic(auto, unfolding(text_defs::specs::Grammar::read))]
fn expr_option(alloc: Global, tokens: &mut Tokens<'_>) -> Result<Option<ExprAt>, Stop>
    ensures answers { Answers (option_map lined_view) (option (of_class begins_expr) expr) tokens.old result tokens.new }
    ensures longer { OnOk result (length tokens.new ≤ length tokens.old) }
{
    if !tokens.is_expr_next() {
        return Ok(None);
    }
    let expr = expr(alloc, tokens)?;
    Ok(Some(expr))
}

/// The expression alone, without its line.
fn expr_in(expr: Option<ExprAt>) -> Option<Expr>
    ensures { result ≡ option_map expr_of (option_map lined_view expr) }
{
    match expr {
        None => None,
        Some(expr) => Some(expr.expr),
    }
}

/// `.PORT(EXPR)` or `.PORT()`.
#[tactic(auto, unfolding(text_defs::specs::Grammar::read))]
fn connection(alloc: Global, tokens: &mut Tokens<'_>) -> Result<Conn, Stop>
    ensures answers { Answers itself connection tokens.old result tokens.new }
    ensures shorter { OnOk result (length tokens.new < length tokens.old) }
{
    tokens.one(NetClass::Dot)?;
    let port = name(tokens)?;
    let port = Name::from_slice(alloc, port.text)?;
    tokens.one(NetClass::Open)?;
    let expr = expr_option(alloc, tokens)?;
    tokens.one(NetClass::Shut)?;
    Ok(Conn {
        port,
        expr: expr_in(expr),
    })
}

/// A further connection, behind a comma.
#[tactic(auto, unfolding(text_defs::specs::Grammar::read))]
fn comma_connection(alloc: Global, tokens: &mut Tokens<'_>) -> Result<Conn, Stop>
    ensures answers { Answers itself (comma_then connection) tokens.old result tokens.new }
    ensures shorter { OnOk result (length tokens.new < length tokens.old) }
{
    tokens.one(NetClass::Comma)?;
    connection(alloc, tokens)
}

/// The further connections behind a first one.
fn more_connections(
    alloc: Global,
    tokens: &mut Tokens<'_>,
    conns: List<Conn>,
) -> Result<List<Conn>, Stop>
    requires { length conns ≡ 1 }
    ensures answers { Gives (map itself) (with_front (map itself conns) (read (further connection) tokens.old)) result tokens.new }
    ensures longer { OnOk result (length tokens.new ≤ length tokens.old) }
{
    let mut all = conns;
    while tokens.is_next(NetClass::Comma) {
        if all.len() == u32::MAX {
            return Err(Stop::Memory);
        }
        let conn = comma_connection(alloc, tokens)?;
        all.push(conn)?;
    }
    Ok(all)
}

/// Connections with commas between them.
fn connection_list(alloc: Global, tokens: &mut Tokens<'_>) -> Result<List<Conn>, Stop>
    ensures answers { Answers (map itself) (comma_list connection) tokens.old result tokens.new }
    ensures shorter { OnOk result (length tokens.new < length tokens.old) }
{
    let first = connection(alloc, tokens)?;
    let mut all = List::new(alloc);
    all.push(first)?;
    more_connections(alloc, tokens, all)
}

/// The connections of an instance, as they stand.
#[tactic(auto, using(crate::proofs::ListLaws::plain_list))]
fn connections(alloc: Global, tokens: &mut Tokens<'_>) -> Result<List<Conn>, Stop>
    ensures answers { Answers itself (comma_list connection) tokens.old result tokens.new }
    ensures shorter { OnOk result (length tokens.new < length tokens.old) }
{
    connection_list(alloc, tokens)
}

/// Connections, or none.
#[tactic(auto, unfolding(text_defs::specs::Grammar::read))]
fn connections_option(alloc: Global, tokens: &mut Tokens<'_>) -> Result<Option<List<Conn>>, Stop>
    ensures answers { Answers itself (option (of_class is_dot) (comma_list connection)) tokens.old result tokens.new }
    ensures longer { OnOk result (length tokens.new ≤ length tokens.old) }
{
    if !tokens.is_next(NetClass::Dot) {
        return Ok(None);
    }
    let conns = connections(alloc, tokens)?;
    Ok(Some(conns))
}

/// The connections, or an empty list.
fn connections_in(alloc: Global, conns: Option<List<Conn>>) -> List<Conn>
    ensures { result ≡ unwrap_or conns [] }
{
    match conns {
        None => List::new(alloc),
        Some(conns) => conns,
    }
}

/// An assignment, on the line of the first token of its left side.
#[tactic(auto, unfolding(text_defs::specs::Grammar::read))]
fn assignment(alloc: Global, tokens: &mut Tokens<'_>) -> Result<Assign, Stop>
    ensures answers { Answers itself assignment tokens.old result tokens.new }
    ensures shorter { OnOk result (length tokens.new < length tokens.old) }
{
    let left = target(alloc, tokens)?;
    tokens.one(NetClass::Equals)?;
    let right = expr(alloc, tokens)?;
    Ok(Assign {
        left: left.expr,
        right: right.expr,
        line: left.line,
    })
}

/// A further assignment, behind a comma.
#[tactic(auto, unfolding(text_defs::specs::Grammar::read))]
fn comma_assignment(alloc: Global, tokens: &mut Tokens<'_>) -> Result<Assign, Stop>
    ensures answers { Answers itself (comma_then assignment) tokens.old result tokens.new }
    ensures shorter { OnOk result (length tokens.new < length tokens.old) }
{
    tokens.one(NetClass::Comma)?;
    assignment(alloc, tokens)
}

/// The further assignments behind a first one.
fn more_assignments(
    alloc: Global,
    tokens: &mut Tokens<'_>,
    assigns: List<Assign>,
) -> Result<List<Assign>, Stop>
    requires { length assigns ≡ 1 }
    ensures answers { Gives (map itself) (with_front (map itself assigns) (read (further assignment) tokens.old)) result tokens.new }
    ensures longer { OnOk result (length tokens.new ≤ length tokens.old) }
{
    let mut all = assigns;
    while tokens.is_next(NetClass::Comma) {
        if all.len() == u32::MAX {
            return Err(Stop::Memory);
        }
        let assign = comma_assignment(alloc, tokens)?;
        all.push(assign)?;
    }
    Ok(all)
}

/// Assignments with commas between them.
fn assignment_list(alloc: Global, tokens: &mut Tokens<'_>) -> Result<List<Assign>, Stop>
    ensures answers { Answers (map itself) (comma_list assignment) tokens.old result tokens.new }
    ensures shorter { OnOk result (length tokens.new < length tokens.old) }
{
    let first = assignment(alloc, tokens)?;
    let mut all = List::new(alloc);
    all.push(first)?;
    more_assignments(alloc, tokens, all)
}

/// The assignments of an item, as they stand.
#[tactic(auto, using(crate::proofs::ListLaws::plain_list))]
fn assignments(alloc: Global, tokens: &mut Tokens<'_>) -> Result<List<Assign>, Stop>
    ensures answers { Answers itself (comma_list assignment) tokens.old result tokens.new }
    ensures shorter { OnOk result (length tokens.new < length tokens.old) }
{
    assignment_list(alloc, tokens)
}

/// The directions of ports.
#[tactic(auto, unfolding(text_defs::specs::Grammar::read))]
fn directions_item<'a>(alloc: Global, tokens: &mut Tokens<'a>) -> Result<ItemAt<'a>, Stop>
    ensures answers { Answers item_view directions_item tokens.old result tokens.new }
    ensures shorter { OnOk result (length tokens.new < length tokens.old) }
{
    let shape = shape(tokens)?;
    let names = names(alloc, tokens)?;
    tokens.one(NetClass::Semicolon)?;
    Ok(ItemAt::Directions { shape, names })
}

/// Wires.
#[tactic(auto, unfolding(text_defs::specs::Grammar::read))]
fn wires_item<'a>(alloc: Global, tokens: &mut Tokens<'a>) -> Result<ItemAt<'a>, Stop>
    ensures answers { Answers item_view wires_item tokens.old result tokens.new }
    ensures shorter { OnOk result (length tokens.new < length tokens.old) }
{
    tokens.one(NetClass::Wire)?;
    let range = range_option(tokens)?;
    let names = names(alloc, tokens)?;
    tokens.one(NetClass::Semicolon)?;
    Ok(ItemAt::Wires { range, names })
}

/// Assignments.
#[tactic(auto, unfolding(text_defs::specs::Grammar::read))]
fn assigns_item<'a>(alloc: Global, tokens: &mut Tokens<'a>) -> Result<ItemAt<'a>, Stop>
    ensures answers { Answers item_view assigns_item tokens.old result tokens.new }
    ensures shorter { OnOk result (length tokens.new < length tokens.old) }
{
    tokens.one(NetClass::Assign)?;
    let assigns = assignments(alloc, tokens)?;
    tokens.one(NetClass::Semicolon)?;
    Ok(ItemAt::Assigns(assigns))
}

/// An instance.
#[tactic(auto, unfolding(text_defs::specs::Grammar::read))]
fn instance_item<'a>(alloc: Global, tokens: &mut Tokens<'a>) -> Result<ItemAt<'a>, Stop>
    ensures answers { Answers item_view instance_item tokens.old result tokens.new }
    ensures shorter { OnOk result (length tokens.new < length tokens.old) }
{
    let kind = name(tokens)?;
    let own = name(tokens)?;
    tokens.one(NetClass::Open)?;
    let conns = connections_option(alloc, tokens)?;
    tokens.one(NetClass::Shut)?;
    tokens.one(NetClass::Semicolon)?;
    Ok(ItemAt::Instance {
        kind,
        name: own,
        conns: connections_in(alloc, conns),
    })
}

/// An item, by its first token.
#[tactic(auto, unfolding(text_defs::specs::Grammar::read))]
pub fn item<'a>(alloc: Global, tokens: &mut Tokens<'a>) -> Result<ItemAt<'a>, Stop>
    ensures answers { Answers item_view item tokens.old result tokens.new }
    ensures shorter { OnOk result (length tokens.new < length tokens.old) }
{
    if tokens.is_direction_next() {
        return directions_item(alloc, tokens);
    }
    if tokens.is_next(NetClass::Wire) {
        return wires_item(alloc, tokens);
    }
    if tokens.is_next(NetClass::Assign) {
        return assigns_item(alloc, tokens);
    }
    instance_item(alloc, tokens)
}
