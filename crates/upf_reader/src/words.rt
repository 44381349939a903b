//! The forms of single words.
ghost use Rattle.std.specs.Prelude.{◌≡◌, ◌≢◌, ◌++◌, ◌||◌, ◌∷◌, [], ◌↔◌, ◌≤◌, ℕ, IsTrue, IsUtf8, List, map, codes};
ghost use Rattle.text_defs.specs.Volts.{IsVolts};
ghost use Rattle.std.specs.Char.{is_ascii_digit};
ghost use Rattle.std.specs.List.{list_all, list_any};
ghost use Rattle.std.specs.Str.{bytes_eq};
ghost use Rattle.upf_commands.specs.Forms.{IsWordOf, is_column};
ghost use Rattle.upf_commands.specs.Values.{begins_name, is_simple, truth_of};
ghost use Rattle.upf_reader.specs.Rows.{word_view, texts_view};
ghost use Rattle.upf_reader.specs.Tests.{IsHandleWord};

use crate::table::{Texts, WordShape};
use pw_lex::read_volts;

/// Whether a simple name may begin with the byte.
fn begins_name(byte: u8) -> bool
    ensures { result ≡ begins_name byte }
{
    byte.is_ascii_alphabetic() || byte == b'_'
}

/// Whether a simple name may go on with the bytes.
fn go_on(bytes: &[u8]) -> bool
    ensures { result ≡ list_all (λ c. begins_name c || is_ascii_digit c) bytes.now }
{
    for byte in bytes {
        if !begins_name(*byte) && !byte.is_ascii_digit() {
            return false;
        }
    }
    true
}

/// Whether the word is a simple name.
pub(crate) fn is_simple(word: &[u8]) -> bool
    ensures { result ≡ is_simple word.now }
{
    match word {
        [first, rest @ ..] => begins_name(*first) && go_on(rest),
        [] => false,
    }
}

/// What a truth says, where the word is one.
pub fn truth_of(word: &[u8]) -> Option<bool>
    ensures { result ≡ truth_of word.now }
{
    if word.eq_ignore_ascii_case(b"TRUE") {
        return Some(true);
    }
    if word.eq_ignore_ascii_case(b"FALSE") {
        return Some(false);
    }
    None
}

/// Whether a word of a table's row names a state, or is `*`.
pub(crate) fn is_column(word: &[u8]) -> bool
    ensures { result ≡ is_column word.now }
{
    is_simple(word) || word == b"*".as_slice()
}

/// Whether something stands in the word before this ending.
fn ends_with(word: &[u8], ending: &[u8]) -> bool
    ensures { IsTrue result ↔ ((front : List ℕ) × (front ≢ []) × (word.now ≡ front ++ ending.now)) }
{
    match word.strip_suffix(ending) {
        Some(front) => !front.is_empty(),
        None => false,
    }
}

/// Whether the word is a handle of a domain.
fn is_handle(word: &[u8]) -> bool
    ensures { IsTrue result ↔ IsHandleWord word.now }
{
    ends_with(word, b".primary") || ends_with(word, b".default_isolation")
}

/// Whether the word is one of the texts.
pub(crate) fn is_one_of(texts: Texts, word: &[u8]) -> bool
    ensures { result ≡ list_any (bytes_eq word.now) (texts_view texts.now) }
{
    for text in texts {
        if word == *text {
            return true;
        }
    }
    false
}

/// Whether the word is a voltage.
pub(crate) fn is_volts(word: &[u8]) -> bool
    ensures { IsTrue result ↔ ((v : ℕ) × IsVolts word.now v) }
{
    read_volts(word).is_ok()
}

/// Whether a text is in UTF-8.
fn is_utf8(text: &[u8]) -> bool
    ensures { IsTrue result ↔ IsUtf8 text.now }
{
    str::from_utf8(text).is_ok()
}

/// Whether the word has the form.
pub(crate) fn has_word_form(form: WordShape, word: &[u8]) -> bool
    ensures { IsTrue result ↔ IsWordOf (word_view form) word.now }
{
    match form {
        WordShape::Any => true,
        WordShape::Simple => is_simple(word),
        WordShape::SetName => is_simple(word) || is_handle(word),
        WordShape::Handle => is_handle(word),
        WordShape::File => is_utf8(word),
        WordShape::OneOf(texts) => is_one_of(texts, word),
        WordShape::Volts => is_volts(word),
    }
}
