//! What a function of a supply set is compared with: off, on, or a voltage.
ghost use Rattle.std.specs.Prelude.{◌≡◌, Bool, MatchOption, codes};
ghost use Rattle.std.specs.Str.{bytes_eq};
ghost use Rattle.power_states.specs.Expressions.{IsFunction, IsSupplyValue};
ghost use Rattle.state_terms.specs.Readings.{Reads, Lacks};
ghost use Rattle.pw_defs.specs.declared.terms.Term.{Term as AnyTerm};
ghost use Rattle.state_terms.specs.Marks.{BeginsWithNoWord};
ghost use Rattle.state_terms.specs.Parts.{IsLevel, IsQuoted};

use crate::voltages::{is_full_on, literal};
use crate::words::{Mark, behind, word};
use pw_defs::{Term, Value};

/// Whether the function that a word names is the power; `None` where it names none.
pub(crate) fn function(word: &[u8]) -> Option<bool>
    ensures { MatchOption result ((power : Bool) → ¬ IsFunction word.now power) (IsFunction word.now) }
{
    if is_power(word) {
        return Some(true);
    }
    if is_ground(word) {
        return Some(false);
    }
    None
}

fn is_power(word: &[u8]) -> bool
    ensures { result ≡ bytes_eq word.now (codes "power") }
{
    word == b"power".as_slice()
}

fn is_ground(word: &[u8]) -> bool
    ensures { result ≡ bytes_eq word.now (codes "ground") }
{
    word == b"ground".as_slice()
}

fn is_off(word: &[u8]) -> bool
    ensures { result ≡ bytes_eq word.now (codes "OFF") }
{
    word == b"OFF".as_slice()
}

/// The term of a word: off, or on at any voltage.
fn level(power: bool, word: &[u8]) -> Option<Term>
    ensures { MatchOption result ((term : AnyTerm) → ¬ IsLevel power word.now term) (IsLevel power word.now) }
{
    if is_off(word) {
        return Some(Term::Volt {
            power,
            value: Value::Off,
        });
    }
    if is_full_on(word) {
        return Some(Term::On { power });
    }
    None
}

/// The voltage of a literal, with or without a back quote in front.
fn quoted_literal(text: &[u8]) -> Option<(u32, &[u8])>
    ensures { MatchOption result (Lacks IsQuoted text.now) (λ r. Reads IsQuoted text.now r.0 r.1.now) }
{
    match behind(Mark::Quote, text) {
        Some(rest) => literal(rest),
        None => literal(text),
    }
}

/// The term of a literal.
fn voltage_value(power: bool, text: &[u8]) -> Option<(Term, &[u8])>
    requires { BeginsWithNoWord text.now }
    ensures { MatchOption result (Lacks (IsSupplyValue power) text.now) (λ r. Reads (IsSupplyValue power) text.now r.0 r.1.now) }
{
    let (volts, left) = quoted_literal(text)?;
    let value = Value::On(volts);
    Some((Term::Volt { power, value }, left))
}

/// The term that says that a function has the value with which the text begins.
pub(crate) fn supply_value(power: bool, text: &[u8]) -> Option<(Term, &[u8])>
    ensures { MatchOption result (Lacks (IsSupplyValue power) text.now) (λ r. Reads (IsSupplyValue power) text.now r.0 r.1.now) }
{
    match word(text) {
        Some((word, left)) => Some((level(power, word)?, left)),
        None => voltage_value(power, text),
    }
}
