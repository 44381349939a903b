//! The piece with which a netlist's text begins: a token, or what is skipped.
ghost use Rattle.std.specs.Prelude.{◌≡◌, ◌≤◌, ◌<◌, ◌∷◌, ◌&&◌, ◌==◌, not, IfSome, length, take, drop, true, false};
ghost use Rattle.std.specs.List.{take_while};
ghost use Rattle.text_defs.specs.Pieces.{is_white, begins_with};
ghost use Rattle.net_text.specs.NetlistTokens.{based, is_width, is_name_byte, is_graphic, escaped_piece, name_piece, number_piece, skipped_piece, line_piece, netlist_piece, digits_at};
ghost use Rattle.net_text.specs.PieceViews.{piece_view, what_view, digits_alone};

use crate::runs;
use text_streams::{begins_with, behind, closed_by, front, is_white};

/// What a piece is, with the bytes that it shows.
#[derive(Clone, Copy)]
pub enum NetPiece<'a> {
    /// White space, a comment, an attribute between `(*` and `*)`, a line that begins with a back quote.
    Skipped,
    Plain(&'a [u8]),
    /// An escaped identifier, without its backslash.
    Escaped(&'a [u8]),
    Digits(&'a [u8]),
    Constant(&'a [u8]),
    /// Any other byte.
    Mark(u8),
    /// A comment, an attribute or an escaped identifier that the end of the text cuts.
    Unclosed,
}

/// A piece, and how many bytes it has.
#[derive(Clone, Copy)]
pub struct PieceAt<'a> {
    pub what: NetPiece<'a>,
    pub size: usize,
}

/// What is skipped from two bytes on up to where it is closed, by its text behind them.
fn skipped_piece(closed: Option<usize>, behind: &[u8]) -> PieceAt<'static>
    requires text { length behind.now < 18446744073709551600 }
    requires closed { IfSome closed (λ n. n ≤ length behind.now) }
    ensures { piece_view result ≡ skipped_piece behind.now closed }
{
    match closed {
        None => PieceAt {
            what: NetPiece::Unclosed,
            size: 2 + behind.len(),
        },
        Some(size) => PieceAt {
            what: NetPiece::Skipped,
            size: 2 + size,
        },
    }
}

/// A piece of a single byte.
fn byte_piece(what: NetPiece<'static>) -> PieceAt<'static>
    ensures { piece_view result ≡ record { what = what_view what.entry; size = 1 } }
{
    PieceAt { what, size: 1 }
}

/// A word that begins with a letter or `_`.
fn name_piece(text: &[u8]) -> PieceAt<'_>
    ensures { piece_view result ≡ name_piece (take_while is_name_byte text.now) }
{
    let size = runs::name_size(text);
    PieceAt {
        what: NetPiece::Plain(front(text, size)),
        size,
    }
}

/// A backslash, by the text behind it: an escaped identifier, or a byte by itself.
fn escaped_piece(behind: &[u8]) -> PieceAt<'_>
    requires { length behind.now < 18446744073709551600 }
    ensures { piece_view result ≡ escaped_piece (take_while is_graphic behind.now) (drop (length (take_while is_graphic behind.now)) behind.now) }
{
    let size = runs::graphic_size(behind);
    let (name, rest) = behind.split_at(size);
    let Some(after) = rest.first() else {
        return PieceAt {
            what: NetPiece::Unclosed,
            size: 1 + size,
        };
    };
    if size > 0 && is_white(*after) {
        return PieceAt {
            what: NetPiece::Escaped(name),
            size: 1 + size,
        };
    }
    byte_piece(NetPiece::Mark(b'\\'))
}

/// How many bytes of a base and a value stand behind the width of a constant.
fn based_size(text: &[u8]) -> usize
    ensures size { result ≡ length (based text.now) }
    ensures front { take result text.now ≡ based text.now }
    ensures within { result ≤ length text.now }
{
    match text {
        [b'\'', base, first, ..] if runs::is_base(*base) && runs::is_value_byte(*first) => {
            2 + runs::value_size(behind(text, 2))
        }
        _ => 0,
    }
}

/// Whether digits are the width of a constant.
fn is_width(digits: &[u8]) -> bool
    ensures { result ≡ is_width digits.now }
{
    let width = runs::number_of(digits);
    1 <= width && width <= 65536
}

/// Digits alone.
fn digits_piece(digits: &[u8]) -> PieceAt<'_>
    ensures { piece_view result ≡ digits_alone digits.now }
{
    PieceAt {
        what: NetPiece::Digits(digits),
        size: digits.len(),
    }
}

/// Digits alone, or those of a constant with its base and value.
fn number_piece(text: &[u8]) -> PieceAt<'_>
    requires { length text.now < 18446744073709551600 }
    ensures { piece_view result ≡ number_piece (digits_at text.now) (based (drop (length (digits_at text.now)) text.now)) }
{
    let size = runs::digits_size(text);
    let digits = front(text, size);
    let more = based_size(behind(text, size));
    if more == 0 {
        return digits_piece(digits);
    }
    if !is_width(digits) {
        return digits_piece(digits);
    }
    PieceAt {
        what: NetPiece::Constant(front(text, size + more)),
        size: size + more,
    }
}

/// The rest of a line.
fn line_piece(text: &[u8]) -> PieceAt<'static>
    ensures { piece_view result ≡ line_piece text.now }
{
    PieceAt {
        what: NetPiece::Skipped,
        size: runs::line_size(text),
    }
}

/// What begins with a slash, by the text behind it.
#[tactic(auto, unfolding(crate::specs::NetlistTokens::netlist_piece))]
fn slash_piece<'a>(fresh: bool, text: &'a [u8], behind: &[u8]) -> PieceAt<'a>
    requires split { text.now ≡ 47 ∷ behind.now }
    requires size { length behind.now < 18446744073709551600 }
    ensures { piece_view result ≡ netlist_piece fresh (47 ∷ behind.now) }
{
    if begins_with(b'/', behind) {
        return line_piece(text);
    }
    if begins_with(b'*', behind) {
        let inside = text_streams::behind(behind, 1);
        return skipped_piece(closed_by(b'*', b'/', inside), inside);
    }
    byte_piece(NetPiece::Mark(b'/'))
}

/// Whether an attribute begins behind a parenthesis.
fn begins_attribute(behind: &[u8]) -> bool
    ensures test { result ≡ (begins_with 42 behind.now && not (begins_with 41 (drop 1 behind.now))) }
    ensures some { result ≡ true → 1 ≤ length behind.now }
{
    begins_with(b'*', behind) && !begins_with(b')', text_streams::behind(behind, 1))
}

/// What begins with an opening parenthesis, by the text behind it.
#[tactic(auto, unfolding(crate::specs::NetlistTokens::netlist_piece))]
fn open_piece(fresh: bool, behind: &[u8]) -> PieceAt<'static>
    requires size { length behind.now < 18446744073709551600 }
    ensures { piece_view result ≡ netlist_piece fresh (40 ∷ behind.now) }
{
    if begins_attribute(behind) {
        let inside = text_streams::behind(behind, 1);
        return skipped_piece(closed_by(b'*', b')', inside), inside);
    }
    byte_piece(NetPiece::Mark(b'('))
}

/// What begins with any other byte, which is no white space.
#[tactic(auto, unfolding(crate::specs::NetlistTokens::netlist_piece))]
fn other_piece<'a>(fresh: bool, byte: u8, text: &'a [u8], behind: &'a [u8]) -> PieceAt<'a>
    requires split { text.now ≡ byte ∷ behind.now }
    requires size { length text.now < 18446744073709551600 }
    requires white { is_white byte ≡ false }
    requires quote { (fresh && byte == 96) ≡ false }
    requires slash { (byte == 47) ≡ false }
    requires parenthesis { (byte == 40) ≡ false }
    ensures { piece_view result ≡ netlist_piece fresh (byte ∷ behind.now) }
{
    if runs::begins_name(byte) {
        return name_piece(text);
    }
    if byte == b'\\' {
        return escaped_piece(behind);
    }
    if byte.is_ascii_digit() {
        return number_piece(text);
    }
    byte_piece(NetPiece::Mark(byte))
}

/// Whether a line begins with a back quote here.
fn begins_directive(fresh: bool, byte: u8) -> bool
    ensures { result ≡ (fresh && byte == 96) }
{
    fresh && byte == b'`'
}

/// The piece with which a text begins, by its first byte and the text behind it.
#[tactic(auto, unfolding(crate::specs::NetlistTokens::netlist_piece))]
fn piece_from<'a>(fresh: bool, byte: u8, text: &'a [u8], behind: &'a [u8]) -> PieceAt<'a>
    requires split { text.now ≡ byte ∷ behind.now }
    requires size { length text.now < 18446744073709551600 }
    ensures { piece_view result ≡ netlist_piece fresh (byte ∷ behind.now) }
{
    if is_white(byte) {
        return byte_piece(NetPiece::Skipped);
    }
    if begins_directive(fresh, byte) {
        return line_piece(text);
    }
    if byte == b'/' {
        return slash_piece(fresh, text, behind);
    }
    if byte == b'(' {
        return open_piece(fresh, behind);
    }
    other_piece(fresh, byte, text, behind)
}

/// The piece with which a text begins. `fresh` tells that only blanks stand before it on its line.
#[tactic(auto, using(crate::proofs::PieceLaws::first_split))]
pub fn netlist_piece(fresh: bool, text: &[u8]) -> PieceAt<'_>
    requires some { 0 < length text.now }
    requires size { length text.now < 18446744073709551600 }
    ensures { piece_view result ≡ netlist_piece fresh text.now }
{
    piece_from(fresh, text[0], text, behind(text, 1))
}
