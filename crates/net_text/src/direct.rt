//! The tokens that stand most, taken from their bytes at once: plain identifiers, numbers, and characters that are tokens
//! by themselves. Each is the token of the piece that `netlist_piece` of specs/NetlistTokens says, by `IsDirect` of
//! specs/DirectWords.
ghost use Rattle.std.specs.Prelude.{◌≡◌, ◌<◌, ◌∷◌, ◌==◌, true, IfSome, length, codes};
ghost use Rattle.std.specs.List.{list_any};
ghost use Rattle.std.specs.Char.{is_ascii_digit};
ghost use Rattle.net_text.specs.NetlistTokens.{begins_name};
ghost use Rattle.net_text.specs.DirectWords.{IsDirect, is_mark};
ghost use Rattle.net_text.specs.Streams.{word_view};

use crate::classes::{digits_class, mark_class, word_class};
use crate::runs;
use crate::words::Word;
use text_streams::{begins_with, behind, front};

/// The plain identifier with which a text begins.
fn name_word<'a>(byte: u8, text: &'a [u8], behind: &[u8], line: u32) -> Word<'a>
    requires split { text.now ≡ byte ∷ behind.now }
    requires begins { begins_name byte ≡ true }
    ensures { IsDirect text.now line (word_view result) }
{
    let size = runs::name_size(text);
    let name = front(text, size);
    Word {
        class: word_class(name),
        text: name,
        line,
    }
}

/// The number with which a text begins, if it is no width of a constant.
fn number_word<'a>(byte: u8, text: &'a [u8], behind: &[u8], line: u32) -> Option<Word<'a>>
    requires split { text.now ≡ byte ∷ behind.now }
    requires digit { is_ascii_digit byte ≡ true }
    ensures { IfSome result (λ word. IsDirect text.now line (word_view word)) }
{
    let size = runs::digits_size(text);
    if begins_with(b'\'', text_streams::behind(text, size)) {
        return None;
    }
    let digits = front(text, size);
    Some(Word {
        class: digits_class(digits),
        text: digits,
        line,
    })
}

/// Whether a byte is a token by itself, whatever stands behind it.
fn stands_alone(byte: u8) -> bool
    ensures { result ≡ list_any (λ c. byte == c) (codes "),;.[]{}:=") }
{
    byte == b')'
        || byte == b','
        || byte == b';'
        || byte == b'.'
        || byte == b'['
        || byte == b']'
        || byte == b'{'
        || byte == b'}'
        || byte == b':'
        || byte == b'='
}

/// Whether a byte is a token by itself, by the text behind it: a parenthesis may begin an attribute.
fn is_mark(byte: u8, behind: &[u8]) -> bool
    ensures { result ≡ is_mark byte behind.now }
{
    stands_alone(byte) || (byte == b'(' && !begins_with(b'*', behind))
}

/// The character with which a text begins, if it is a token by itself.
fn mark_word<'a>(byte: u8, text: &'a [u8], behind: &[u8], line: u32) -> Option<Word<'a>>
    requires split { text.now ≡ byte ∷ behind.now }
    ensures { IfSome result (λ word. IsDirect text.now line (word_view word)) }
{
    if !is_mark(byte, behind) {
        return None;
    }
    Some(Word {
        class: mark_class(byte),
        text: front(text, 1),
        line,
    })
}

/// The token with which a text begins, by its first byte and the text behind it.
fn direct_from<'a>(byte: u8, text: &'a [u8], behind: &[u8], line: u32) -> Option<Word<'a>>
    requires { text.now ≡ byte ∷ behind.now }
    ensures { IfSome result (λ word. IsDirect text.now line (word_view word)) }
{
    if runs::begins_name(byte) {
        return Some(name_word(byte, text, behind, line));
    }
    if byte.is_ascii_digit() {
        return number_word(byte, text, behind, line);
    }
    mark_word(byte, text, behind, line)
}

/// The token with which a text begins, on a line, where it can be told at once. `None` says nothing.
#[tactic(auto, using(crate::proofs::PieceLaws::first_split))]
pub fn direct_word(text: &[u8], line: u32) -> Option<Word<'_>>
    requires { 0 < length text.now }
    ensures { IfSome result (λ word. IsDirect text.now line (word_view word)) }
{
    direct_from(text[0], text, behind(text, 1), line)
}
