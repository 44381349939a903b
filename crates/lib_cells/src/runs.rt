//! Runs of bytes at the front of a library's text.
ghost use Rattle.std.specs.Prelude.{◌≡◌, ℕ, ◌≤◌, ◌&&◌, ◌==◌, IfSome, length, true, false, not, codes};
ghost use Rattle.std.specs.List.{list_any};
ghost use Rattle.lib_cells.specs.LibraryWords.{is_word_byte, opens_comment, quoted_size, word_size};

use text_streams::{begins_with, behind};

/// Whether a byte is one of the signs that words may have.
fn is_sign(byte: u8) -> bool
    ensures { result ≡ list_any (λ c. byte == c) (codes "_.+-*/!'&|^<>=[]") }
{
    b"_.+-*/!'&|^<>=[]".iter().any(|sign| byte == *sign)
}

/// Whether a word may have the byte.
pub fn is_word_byte(byte: u8) -> bool
    ensures { result ≡ is_word_byte byte }
{
    byte.is_ascii_alphabetic() || byte.is_ascii_digit() || is_sign(byte)
}

/// Whether a comment begins here.
pub fn opens_comment(text: &[u8]) -> bool
    ensures test { result ≡ opens_comment text.now }
    ensures some { result ≡ true → 2 ≤ length text.now }
{
    match text {
        [b'/', rest @ ..] => begins_with(b'*', rest),
        _ => false,
    }
}

/// Whether a word goes on at a place.
fn goes_on(byte: u8, rest: &[u8]) -> bool
    ensures { result ≡ (is_word_byte byte && not (opens_comment rest.now)) }
{
    is_word_byte(byte) && !opens_comment(rest)
}

/// How many bytes the word has with which the text begins.
pub fn word_size(text: &[u8]) -> usize
    ensures size { result ≡ word_size text.now }
    ensures within { result ≤ length text.now }
{
    for (at, byte) in text.iter().enumerate() {
        if !goes_on(*byte, behind(text, at)) {
            return at;
        }
    }
    text.len()
}

/// How many bytes stand up to and with the quote that closes a quoted text.
pub fn quoted_size(text: &[u8]) -> Option<usize>
    ensures size { result ≡ quoted_size false text.now }
    ensures within { IfSome result (λ n. (1 ≤ n) × (n ≤ length text.now)) }
{
    let mut taken = false;
    for (at, byte) in text.iter().enumerate() {
        if closes(taken, *byte) {
            return Some(at + 1);
        }
        taken = takes(taken, *byte);
    }
    None
}

/// Whether a quoted text ends with a byte, which the one before it took along or not.
fn closes(taken: bool, byte: u8) -> bool
    ensures { result ≡ (not taken && byte == 34) }
{
    !taken && byte == b'"'
}

/// Whether a byte takes the next one along.
fn takes(taken: bool, byte: u8) -> bool
    ensures { result ≡ (not taken && byte == 92) }
{
    !taken && byte == b'\\'
}
