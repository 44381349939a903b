//! Expressions read into terms, by recursive descent that goes no deeper than the hundred `(` and `!` that may be open.
ghost use Rattle.std.specs.Prelude.{◌≡◌, MatchOption, IfOk, IfErr, OnOk, ◌++◌, ◌∷◌, []};
ghost use Rattle.power_states.specs.ExpressionWords.{bang, opens, same, differs};
ghost use Rattle.power_states.specs.Expressions.{IsComparison, IsOne, ReadsAsLogicTerm, ReadsAsSupplyTerm, ReadsAsTerm, logic, supply};
ghost use Rattle.state_terms.specs.Readings.{Begins, BeginsNot, Reads, LacksBy, Behind, IsTermFault};
ghost use Rattle.state_terms.specs.Marks.{token_of};
ghost use Rattle.state_terms.specs.Parts.{language_of, IsSide, sign_of, signed, mark_of, joined, IsJoined, IsPart};

use crate::values::{function, supply_value};
use crate::words::{Mark, behind, is_at_end, word};
use pw_defs::{Boxed, List, Memory, Name, Term, TermFault};
use std::alloc::Global;

/// Supply expressions speak of a set's functions, logic expressions of states of objects.
#[derive(Clone, Copy)]
pub(crate) enum Speech {
    Supply,
    Logic,
}

/// How parts are joined: by `&&`, or by `||`.
#[derive(Clone, Copy)]
enum Join {
    Both,
    Either,
}

/// How many `(` and `!` may be open at any place.
const MOST_OPEN: usize = 100;

/// A copy of a name.
fn name(alloc: Global, word: &[u8]) -> Result<Name, Memory>
    ensures { IfOk result (λ name. name ≡ word.now) }
{
    Ok(Name::from_slice(alloc, word)?)
}

fn opposite(alloc: Global, term: Term) -> Result<Term, Memory>
    ensures { IfOk result (λ opposite. opposite ≡ Term.Not term) }
{
    Ok(Term::Not(Boxed::new(alloc, term)?))
}

/// The term, or its opposite.
fn signed(alloc: Global, same: bool, term: Term) -> Result<Term, Memory>
    ensures { IfOk result (λ one. one ≡ signed same term) }
{
    if same {
        return Ok(term);
    }
    opposite(alloc, term)
}

fn put(terms: &mut List<Term>, term: Term) -> Result<(), Memory>
    ensures { OnOk result (terms.new ≡ terms.old ++ term ∷ []) }
{
    terms.push(term)?;
    Ok(())
}

/// Whether `==` stands first, and not `!=`, and the text behind it.
fn sign(text: &[u8]) -> Option<(bool, &[u8])>
    ensures { MatchOption result (BeginsNot text.now same × BeginsNot text.now differs) (λ r. Begins text.now (sign_of r.0) r.1.now) }
{
    if let Some(rest) = behind(Mark::Same, text) {
        return Some((true, rest));
    }
    match behind(Mark::Differs, text) {
        Some(rest) => Some((false, rest)),
        None => None,
    }
}

/// The state that an object is said to have.
fn state_side<'a>(
    alloc: Global,
    object: &[u8],
    text: &'a [u8],
) -> Result<(Term, &'a [u8]), TermFault>
    ensures reads { IfOk result (λ r. Reads (IsSide (language_of Speech.Logic) object.now) text.now r.0 r.1.now) }
    ensures lacks { IfErr result (LacksBy (IsSide (language_of Speech.Logic) object.now) text.now) }
{
    let Some((state, rest)) = word(text) else {
        return Err(TermFault::U8);
    };
    let left = name(alloc, object)?;
    let state = name(alloc, state)?;
    Ok((Term::Is { left, state }, rest))
}

/// The value that a function is said to have.
fn value_side<'a>(subject: &[u8], text: &'a [u8]) -> Result<(Term, &'a [u8]), TermFault>
    ensures reads { IfOk result (λ r. Reads (IsSide (language_of Speech.Supply) subject.now) text.now r.0 r.1.now) }
    ensures lacks { IfErr result (LacksBy (IsSide (language_of Speech.Supply) subject.now) text.now) }
{
    let Some(power) = function(subject) else {
        return Err(TermFault::U8);
    };
    let Some((term, rest)) = supply_value(power, text) else {
        return Err(TermFault::U8);
    };
    Ok((term, rest))
}

/// What a word is compared with.
fn side<'a>(
    alloc: Global,
    speech: Speech,
    subject: &[u8],
    text: &'a [u8],
) -> Result<(Term, &'a [u8]), TermFault>
    ensures reads { IfOk result (λ r. Reads (IsSide (language_of speech) subject.now) text.now r.0 r.1.now) }
    ensures lacks { IfErr result (LacksBy (IsSide (language_of speech) subject.now) text.now) }
{
    match speech {
        Speech::Supply => value_side(subject, text),
        Speech::Logic => state_side(alloc, subject, text),
    }
}

/// A comparison.
fn comparison<'a>(
    alloc: Global,
    speech: Speech,
    text: &'a [u8],
) -> Result<(Term, &'a [u8]), TermFault>
    ensures reads { IfOk result (λ r. Reads (IsComparison (language_of speech)) text.now r.0 r.1.now) }
    ensures lacks { IfErr result (LacksBy (IsComparison (language_of speech)) text.now) }
{
    let Some((subject, rest)) = word(text) else {
        return Err(TermFault::U8);
    };
    let Some((same, rest)) = sign(rest) else {
        return Err(TermFault::U8);
    };
    let (term, left) = side(alloc, speech, subject, rest)?;
    let term = signed(alloc, same, term)?;
    Ok((term, left))
}

/// What stands behind a `!`, negated.
#[cycle(terms)]
fn negated<'a>(
    alloc: Global,
    speech: Speech,
    depth: usize,
    text: &'a [u8],
) -> Result<(Term, &'a [u8]), TermFault>
    ensures reads { IfOk result (λ r. Reads (Behind bang (IsOne (language_of speech) depth)) text.now r.0 r.1.now) }
    ensures lacks { IfErr result (LacksBy (Behind bang (IsOne (language_of speech) depth)) text.now) }
{
    if depth == 0 {
        return Err(TermFault::U8);
    }
    let (term, left) = one(alloc, speech, depth - 1, text)?;
    let term = opposite(alloc, term)?;
    Ok((term, left))
}

/// The expression behind a `(`, up to its `)`.
#[cycle(terms)]
fn grouped<'a>(
    alloc: Global,
    speech: Speech,
    depth: usize,
    text: &'a [u8],
) -> Result<(Term, &'a [u8]), TermFault>
    ensures reads { IfOk result (λ r. Reads (Behind opens (IsOne (language_of speech) depth)) text.now r.0 r.1.now) }
    ensures lacks { IfErr result (LacksBy (Behind opens (IsOne (language_of speech) depth)) text.now) }
{
    if depth == 0 {
        return Err(TermFault::U8);
    }
    let (term, rest) = parts(alloc, speech, Join::Either, depth - 1, text)?;
    let Some(left) = behind(Mark::Shuts, rest) else {
        return Err(TermFault::U8);
    };
    Ok((term, left))
}

/// A comparison, one behind a `!`, or an expression in parentheses.
#[cycle(terms)]
fn one<'a>(
    alloc: Global,
    speech: Speech,
    depth: usize,
    text: &'a [u8],
) -> Result<(Term, &'a [u8]), TermFault>
    ensures reads { IfOk result (λ r. Reads (IsOne (language_of speech) depth) text.now r.0 r.1.now) }
    ensures lacks { IfErr result (LacksBy (IsOne (language_of speech) depth) text.now) }
{
    if let Some(rest) = behind(Mark::Bang, text) {
        return negated(alloc, speech, depth, rest);
    }
    if let Some(rest) = behind(Mark::Opens, text) {
        return grouped(alloc, speech, depth, rest);
    }
    comparison(alloc, speech, text)
}

/// One of the parts that are joined.
#[cycle(terms)]
fn part<'a>(
    alloc: Global,
    speech: Speech,
    join: Join,
    depth: usize,
    text: &'a [u8],
) -> Result<(Term, &'a [u8]), TermFault>
    ensures reads { IfOk result (λ r. Reads (IsPart (language_of speech) join depth) text.now r.0 r.1.now) }
    ensures lacks { IfErr result (LacksBy (IsPart (language_of speech) join depth) text.now) }
{
    match join {
        Join::Both => one(alloc, speech, depth, text),
        Join::Either => parts(alloc, speech, Join::Both, depth, text),
    }
}

/// The parts that are joined, as one term.
#[cycle(terms)]
fn parts<'a>(
    alloc: Global,
    speech: Speech,
    join: Join,
    depth: usize,
    text: &'a [u8],
) -> Result<(Term, &'a [u8]), TermFault>
    ensures reads { IfOk result (λ r. Reads (IsJoined (language_of speech) join depth) text.now r.0 r.1.now) }
    ensures lacks { IfErr result (LacksBy (IsJoined (language_of speech) join depth) text.now) }
{
    let (first, left) = part(alloc, speech, join, depth, text)?;
    let mut terms = List::new(alloc);
    put(&mut terms, first)?;
    let mut rest = left;
    while let Some(further) = behind(join.mark(), rest) {
        let (term, left) = part(alloc, speech, join, depth, further)?;
        put(&mut terms, term)?;
        rest = left;
    }
    Ok((join.term(terms), rest))
}

impl Join {
    /// The mark between parts.
    fn mark(self) -> Mark
        ensures { token_of result ≡ mark_of self }
    {
        match self {
            Join::Both => Mark::Both,
            Join::Either => Mark::Either,
        }
    }

    /// The parts as one term. A single one stands for itself.
    fn term(self, parts: List<Term>) -> Term
        ensures { result ≡ joined self parts }
    {
        let mut parts = parts;
        if parts.len() == 1 {
            if let Some(term) = parts.pop() {
                return term;
            }
        }
        match self {
            Join::Both => Term::All(parts),
            Join::Either => Term::Any(parts),
        }
    }
}

/// The term that the whole text is.
fn read_term(alloc: Global, speech: Speech, text: &[u8]) -> Result<Term, TermFault>
    ensures term { IfOk result (ReadsAsTerm (language_of speech) text.now) }
    ensures fault { IfErr result (IsTermFault (language_of speech) text.now) }
{
    let (term, rest) = parts(alloc, speech, Join::Either, MOST_OPEN, text)?;
    if !is_at_end(rest) {
        return Err(TermFault::U8);
    }
    Ok(term)
}

/// The term of a supply expression, as `power == {FULL_ON 0.8} && ground == OFF`.
///
/// `U8` comes exactly where the text is no such expression, also where more than a hundred `(` and `!` are open.
pub fn read_supply_expr(alloc: Global, text: &[u8]) -> Result<Term, TermFault>
    ensures term { IfOk result (ReadsAsSupplyTerm text.now) }
    ensures fault { IfErr result (IsTermFault supply text.now) }
{
    read_term(alloc, Speech::Supply, text)
}

/// The term of a logic expression, as `SA == up && SB != down`.
///
/// `U8` comes exactly where the text is no such expression, also where more than a hundred `(` and `!` are open.
pub fn read_logic_expr(alloc: Global, text: &[u8]) -> Result<Term, TermFault>
    ensures term { IfOk result (ReadsAsLogicTerm text.now) }
    ensures fault { IfErr result (IsTermFault logic text.now) }
{
    read_term(alloc, Speech::Logic, text)
}
