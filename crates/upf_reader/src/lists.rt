//! The forms of lists.
ghost use Rattle.std.specs.Prelude.{◌≡◌, ◌↔◌, ◌≤◌, ℕ, [], map, option_map, IsTrue, IfOk, is_some};
ghost use Rattle.std.specs.List.{list_all, list_any};
ghost use Rattle.std.specs.Str.{bytes_eq};
ghost use Rattle.pw_defs.specs.declared.values.Value.{Value as AnyValue};
ghost use Rattle.text_defs.specs.Volts.{IsVolts};
ghost use Rattle.upf_commands.specs.Forms.{AreListOf, is_column, macro_mark};
ghost use Rattle.upf_commands.specs.Values.{truth_of};
ghost use Rattle.upf_commands.specs.Voltages.{IsVoltage, IsValue};
ghost use Rattle.upf_reader.specs.Rows.{list_view, texts_view};
ghost use Rattle.upf_reader.specs.Tests.{is_scope, is_keyed, is_pair, is_attribute, is_switch_port, is_on_state, is_off, takes_text, is_mark, behind_option, are_options, NextOption};
ghost use Rattle.upf_commands.specs.Forms.{supply_state, power_state};

use crate::table::{ListShape, Texts};
use crate::words::{is_column, is_one_of, is_simple, is_volts, truth_of};
use pw_defs::{Bytes, Memory};
use pw_lex::read_volts;
use std::alloc::Global;

/// Whether the words are the scope alone.
fn is_scope(words: &[Bytes]) -> bool
    ensures { result ≡ is_scope words.now }
{
    match words {
        [word] => word.as_slice() == b".".as_slice(),
        _ => false,
    }
}

/// Whether each word names a state or is `*`.
fn are_columns(words: &[Bytes]) -> bool
    ensures { result ≡ list_all is_column words.now }
{
    for word in words {
        if !is_column(word.as_slice()) {
            return false;
        }
    }
    true
}

/// Whether the words are a key of these and a word.
fn is_keyed(keys: Texts, words: &[Bytes]) -> bool
    ensures { result ≡ is_keyed (texts_view keys.now) words.now }
{
    match words {
        [key, _] => is_one_of(keys, key.as_slice()),
        _ => false,
    }
}

/// Whether the words are two.
pub(crate) fn is_pair(words: &[Bytes]) -> bool
    ensures { result ≡ is_pair words.now }
{
    match words {
        [_, _] => true,
        _ => false,
    }
}

/// Whether the word is the attribute that marks a soft macro.
fn marks_macro(word: &[u8]) -> bool
    ensures { result ≡ bytes_eq word.now macro_mark }
{
    word == b"UPF_is_soft_macro".as_slice()
}

/// Whether the word is a truth.
fn is_truth(word: &[u8]) -> bool
    ensures { result ≡ is_some (truth_of word.now) }
{
    truth_of(word).is_some()
}

/// Whether the words are an attribute and its text, which is a truth where the attribute marks a soft macro.
fn is_attribute(words: &[Bytes]) -> bool
    ensures { result ≡ is_attribute words.now }
{
    match words {
        [name, text] => !marks_macro(name.as_slice()) || is_truth(text.as_slice()),
        _ => false,
    }
}

/// Whether the words are a port of a switch and a net.
fn is_switch_port(words: &[Bytes]) -> bool
    ensures { result ≡ is_switch_port words.now }
{
    match words {
        [port, _] => is_simple(port.as_slice()),
        _ => false,
    }
}

/// Whether the words are an on state of a switch: its name, a port and a condition.
fn is_on_state(words: &[Bytes]) -> bool
    ensures { result ≡ is_on_state words.now }
{
    match words {
        [state, port, _] => is_simple(state.as_slice()) && is_simple(port.as_slice()),
        _ => false,
    }
}

/// Whether two words are voltages of which the second isn't below the first.
fn rise(first: &[u8], last: &[u8]) -> bool
    ensures { IsTrue result ↔ ((low : ℕ) × (high : ℕ) × IsVolts first.now low × IsVolts last.now high × (low ≤ high)) }
{
    let Ok(low) = read_volts(first) else {
        return false;
    };
    let Ok(high) = read_volts(last) else {
        return false;
    };
    low <= high
}

/// Whether the words are a voltage: one, two that rise, or three of which the last isn't below the first.
fn are_voltage(words: &[Bytes]) -> bool
    ensures { IsTrue result ↔ ((v : ℕ) × IsVoltage words.now v) }
{
    match words {
        [word] => is_volts(word.as_slice()),
        [first, last] => rise(first.as_slice(), last.as_slice()),
        [first, second, last] => {
            is_volts(second.as_slice()) && rise(first.as_slice(), last.as_slice())
        }
        _ => false,
    }
}

/// Whether the words say that a supply is off.
fn is_off(words: &[Bytes]) -> bool
    ensures { result ≡ is_off words.now }
{
    match words {
        [word] => word.as_slice() == b"off".as_slice(),
        _ => false,
    }
}

/// Whether the words are a value of a supply.
fn are_value(words: &[Bytes]) -> bool
    ensures { IsTrue result ↔ ((v : AnyValue) × IsValue words.now v) }
{
    is_off(words) || are_voltage(words)
}

/// Whether the words are a state of a supply: its name and a value.
fn is_supply_state(words: &[Bytes]) -> bool
    ensures { IsTrue result ↔ AreListOf supply_state words.now }
{
    match words {
        [state, value @ ..] => is_simple(state.as_slice()) && are_value(value),
        [] => false,
    }
}

/// Whether the word begins an option of a power state that has a text.
fn takes_text(word: &[u8]) -> bool
    ensures { result ≡ takes_text word.now }
{
    word == b"-supply_expr".as_slice()
        || word == b"-logic_expr".as_slice()
        || word == b"-simstate".as_slice()
}

/// Whether the word is an option of a power state that has none.
fn is_mark(word: &[u8]) -> bool
    ensures { result ≡ is_mark word.now }
{
    word == b"-legal".as_slice() || word == b"-illegal".as_slice()
}

/// The words behind the option of a power state that the word begins.
fn behind_option<'a>(word: &[u8], rest: &'a [Bytes]) -> Option<&'a [Bytes]>
    ensures { option_map (λ left. left.now) result ≡ behind_option word.now rest.now }
{
    if is_mark(word) {
        return Some(rest);
    }
    match rest {
        [_, more @ ..] => takes_text(word).then_some(more),
        [] => None,
    }
}

/// Whether the word is among those seen.
fn is_seen(word: &[u8], seen: &[&[u8]]) -> bool
    ensures { result ≡ list_any (bytes_eq word.now) (texts_view seen.now) }
{
    for other in seen {
        if word == *other {
            return true;
        }
    }
    false
}

/// The word that begins the next option of a power state, and the words behind the option.
fn next_option<'a>(words: &'a [Bytes]) -> Option<(&'a [u8], &'a [Bytes])>
    ensures { NextOption words.now (option_map (λ r. (r.0.now, r.1.now)) result) }
{
    let [first, rest @ ..] = words else {
        return None;
    };
    let word = first.as_slice();
    Some((word, behind_option(word, rest)?))
}

/// Whether the words are options of a power state, none of them twice.
fn are_options(alloc: Global, words: &[Bytes]) -> Result<bool, Memory>
    ensures { IfOk result (λ are. are ≡ are_options [] words.now) }
{
    let mut seen = Vec::new(alloc);
    let mut left = words;
    while !left.is_empty() {
        let Some((word, behind)) = next_option(left) else {
            return Ok(false);
        };
        if is_seen(word, &seen) {
            return Ok(false);
        }
        seen.push(word)?;
        left = behind;
    }
    Ok(true)
}

/// Whether the words are a power state: its name and its options.
fn is_power_state(alloc: Global, words: &[Bytes]) -> Result<bool, Memory>
    ensures { IfOk result (λ is. IsTrue is ↔ AreListOf power_state words.now) }
{
    let [state, options @ ..] = words else {
        return Ok(false);
    };
    if !is_simple(state.as_slice()) {
        return Ok(false);
    }
    are_options(alloc, options)
}

/// Whether the words have the form.
pub(crate) fn has_list_form(alloc: Global, form: ListShape, words: &[Bytes]) -> Result<bool, Memory>
    ensures { IfOk result (λ has. IsTrue has ↔ AreListOf (list_view form) words.now) }
{
    Ok(match form {
        ListShape::Names => true,
        ListShape::Scope => is_scope(words),
        ListShape::Columns => are_columns(words),
        ListShape::Keyed(keys) => is_keyed(keys, words),
        ListShape::Pair => is_pair(words),
        ListShape::Attribute => is_attribute(words),
        ListShape::SwitchPort => is_switch_port(words),
        ListShape::OnState => is_on_state(words),
        ListShape::SupplyState => is_supply_state(words),
        ListShape::PowerState => return is_power_state(alloc, words),
    })
}
