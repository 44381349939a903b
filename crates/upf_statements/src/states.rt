//! What the options of power states say.
ghost use Rattle.std.specs.Prelude.{[], ◌∷◌, IfOk, map, option_map};
ghost use Rattle.power_states.specs.Expressions.{Language};
ghost use Rattle.script_defs.specs.ReadStatements.{IsTermOf};
ghost use Rattle.upf_statements.specs.Said.{AreOneOption, AreOptionWords, Begin, BeginWithOption, SayOneOption, SayOptions};
ghost use Rattle.upf_statements.specs.Views.{option_view};

use crate::statements::StateOption;
use pw_defs::{Bytes, List, Memory, Term, TermFault};
use state_terms::{read_logic_expr, read_supply_expr};
use std::alloc::Global;

/// The term of an expression on supplies, `None` where it reads as none.
fn supply_term(alloc: Global, text: &[u8]) -> Result<Option<Term>, Memory>
    ensures { IfOk result (IsTermOf Language.supply text.now) }
{
    match read_supply_expr(alloc, text) {
        Ok(term) => Ok(Some(term)),
        Err(TermFault::U8) => Ok(None),
        Err(TermFault::U9(_)) => unreachable!(),
        Err(TermFault::Memory) => Err(Memory),
    }
}

/// The term of an expression on states, `None` where it reads as none.
fn logic_term(alloc: Global, text: &[u8]) -> Result<Option<Term>, Memory>
    ensures { IfOk result (IsTermOf Language.logic text.now) }
{
    match read_logic_expr(alloc, text) {
        Ok(term) => Ok(Some(term)),
        Err(TermFault::U8) => Ok(None),
        Err(TermFault::U9(_)) => unreachable!(),
        Err(TermFault::Memory) => Err(Memory),
    }
}

/// What an option with a text says; `-simstate` says nothing.
fn text_said(alloc: Global, word: &[u8], text: &[u8]) -> Result<Option<StateOption>, Memory>
    requires { AreOneOption (word.now ∷ text.now ∷ []) }
    ensures { IfOk result (λ said. SayOneOption (word.now ∷ text.now ∷ []) (option_map option_view said)) }
{
    if word == b"-supply_expr".as_slice() {
        return Ok(Some(StateOption::SupplyExpr(supply_term(alloc, text)?)));
    }
    if word == b"-logic_expr".as_slice() {
        return Ok(Some(StateOption::LogicExpr(logic_term(alloc, text)?)));
    }
    Ok(None)
}

/// What the option says with which the words begin, and the words behind it.
fn next_said(alloc: Global, words: &[Bytes]) -> Result<(Option<StateOption>, &[Bytes]), Memory>
    requires { BeginWithOption words.now }
    ensures { IfOk result (λ r. Begin words.now (option_map option_view r.0) r.1.now) }
{
    let [word, rest @ ..] = words else {
        unreachable!();
    };
    if word.as_slice() == b"-legal".as_slice() {
        return Ok((Some(StateOption::Legal), rest));
    }
    if word.as_slice() == b"-illegal".as_slice() {
        return Ok((Some(StateOption::Illegal), rest));
    }
    let [text, behind @ ..] = rest else {
        unreachable!();
    };
    let said = text_said(alloc, word.as_slice(), text.as_slice())?;
    Ok((said, behind))
}

/// What the options of a power state say.
pub(crate) fn options_said(alloc: Global, words: &[Bytes]) -> Result<List<StateOption>, Memory>
    requires { AreOptionWords words.now }
    ensures { IfOk result (λ options. SayOptions words.now (map option_view options)) }
{
    let mut options = List::new(alloc);
    let mut left = words;
    while !left.is_empty() {
        let (said, behind) = next_said(alloc, left)?;
        if let Some(option) = said {
            options.push(option)?;
        }
        left = behind;
    }
    Ok(options)
}
