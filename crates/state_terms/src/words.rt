//! The words and marks of an expression, taken one after the other from the front of a text.
ghost use Rattle.std.specs.Prelude.{◌≡◌, ◌≤◌, ◌==◌, ◌∷◌, length, true, false, take, drop, MatchOption, MatchBool, []};
ghost use Rattle.std.specs.List.{list_all};
ghost use Rattle.tcl_words.specs.Pieces.{is_white};
ghost use Rattle.power_states.specs.ExpressionWords.{HasTokens, Token, begins_with, is_mark, is_word_byte};
ghost use Rattle.state_terms.specs.Readings.{Begins, BeginsNot};
ghost use Rattle.state_terms.specs.Marks.{token_of, BeginsWithNoMark, BeginsWithNoWord, HaveSameTokens};

/// A mark of an expression.
#[derive(Clone, Copy, PartialEq, Eq)]
pub(crate) enum Mark {
    Opens,
    Shuts,
    Bang,
    Both,
    Either,
    Same,
    Differs,
    Brace,
    Unbrace,
    Comma,
    Quote,
}

/// Whether a byte is white space.
fn is_white(byte: u8) -> bool
    ensures { result ≡ is_white byte }
{
    byte == b' ' || byte == b'\t' || byte == b'\n' || byte == b'\r' || byte == 12
}

/// Whether a byte begins a mark.
fn is_mark(byte: u8) -> bool
    ensures { result ≡ is_mark byte }
{
    byte == b'('
        || byte == b')'
        || byte == b'!'
        || byte == b'&'
        || byte == b'|'
        || byte == b'='
        || byte == b'{'
        || byte == b'}'
        || byte == b','
        || byte == b'`'
}

/// Whether a word may have the byte.
fn is_word_byte(byte: u8) -> bool
    ensures { result ≡ is_word_byte byte }
{
    !(is_white(byte) || is_mark(byte))
}

/// The text from its first byte on that is no white space.
fn behind_white(text: &[u8]) -> &[u8]
    ensures same { HaveSameTokens result.now text.now }
    ensures ink { begins_with is_white result.now ≡ false }
    ensures shorter { length result.now ≤ length text.now }
{
    let mut rest = text;
    while let Some((byte, more)) = rest.split_first() {
        if !is_white(*byte) {
            return rest;
        }
        rest = more;
    }
    rest
}

/// How many bytes the word has with which the text begins.
fn word_size(text: &[u8]) -> usize
    ensures within { result ≤ length text.now }
    ensures word { list_all is_word_byte (take result text.now) ≡ true }
    ensures behind { begins_with is_word_byte (drop result text.now) ≡ false }
{
    for (at, byte) in text.iter().enumerate() {
        if !is_word_byte(*byte) {
            return at;
        }
    }
    text.len()
}

/// The text behind a byte, where it begins with that.
fn behind_byte(byte: u8, text: &[u8]) -> Option<&[u8]>
    ensures { MatchOption result (begins_with (λ b. b == byte) text.now ≡ false) (λ rest. text.now ≡ byte ∷ rest.now) }
{
    let (first, rest) = text.split_first()?;
    if *first != byte {
        return None;
    }
    Some(rest)
}

/// The mark that stands first, and the text behind it.
fn first_mark(text: &[u8]) -> Option<(Mark, &[u8])>
    requires { begins_with is_white text.now ≡ false }
    ensures { MatchOption result (BeginsWithNoMark text.now) (λ r. Begins text.now (token_of r.0) r.1.now) }
{
    let (first, rest) = text.split_first()?;
    match *first {
        b'(' => Some((Mark::Opens, rest)),
        b')' => Some((Mark::Shuts, rest)),
        b'{' => Some((Mark::Brace, rest)),
        b'}' => Some((Mark::Unbrace, rest)),
        b',' => Some((Mark::Comma, rest)),
        b'`' => Some((Mark::Quote, rest)),
        b'!' => match behind_byte(b'=', rest) {
            Some(left) => Some((Mark::Differs, left)),
            None => Some((Mark::Bang, rest)),
        },
        b'&' => Some((Mark::Both, behind_byte(b'&', rest)?)),
        b'|' => Some((Mark::Either, behind_byte(b'|', rest)?)),
        b'=' => Some((Mark::Same, behind_byte(b'=', rest)?)),
        _ => None,
    }
}

/// The text behind a mark, where that stands first.
pub(crate) fn behind(mark: Mark, text: &[u8]) -> Option<&[u8]>
    ensures { MatchOption result (BeginsNot text.now (token_of mark)) (λ rest. Begins text.now (token_of mark) rest.now) }
{
    let (found, rest) = first_mark(behind_white(text))?;
    if found != mark {
        return None;
    }
    Some(rest)
}

/// The word that stands first, and the text behind it.
pub(crate) fn word(text: &[u8]) -> Option<(&[u8], &[u8])>
    ensures { MatchOption result (BeginsWithNoWord text.now) (λ r. Begins text.now (Token.word r.0.now) r.1.now) }
{
    let text = behind_white(text);
    let size = word_size(text);
    if size == 0 {
        return None;
    }
    Some(text.split_at(size))
}

/// Whether only white space is left.
pub(crate) fn is_at_end(text: &[u8]) -> bool
    ensures { MatchBool result (HasTokens text.now []) (¬ HasTokens text.now []) }
{
    behind_white(text).is_empty()
}
