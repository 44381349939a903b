//! The piece with which a library's text begins: white space, a word, a quoted text, a sign.
ghost use Rattle.std.specs.Prelude.{◌≡◌, ℕ, ◌≤◌, ◌<◌, ◌∷◌, ◌&&◌, ◌==◌, not, IfSome, length, take, drop, true, false};
ghost use Rattle.text_defs.specs.Pieces.{is_white, begins_with, closed_by};
ghost use Rattle.lib_cells.specs.LibraryWords.{comment_piece, library_piece, quoted_piece, quoted_size, word_piece, word_size};
ghost use Rattle.lib_cells.specs.PieceViews.{IsShown, piece_view, what_view};

use crate::runs;
use text_streams::{begins_with, behind, closed_by, front, is_white};

/// What a piece is, with the bytes that it shows.
#[derive(Clone, Copy)]
pub enum LibPiece<'a> {
    /// White space other than a newline, backslash-newline, a comment.
    Skipped,
    LineEnd,
    /// A word, or what stands between quotes.
    Word(&'a [u8]),
    /// Any other byte, and that byte as a text.
    Mark(u8, &'a [u8]),
    /// A comment or a quoted text that nothing closes.
    Unclosed,
}

/// A piece, and how many bytes it has.
#[derive(Clone, Copy)]
pub struct PieceAt<'a> {
    pub what: LibPiece<'a>,
    pub size: usize,
}

/// A quoted text, by the text behind its first quote.
fn quoted_piece(text: &[u8]) -> PieceAt<'_>
    requires { length text.now < 18446744073709551600 }
    ensures piece { piece_view result ≡ quoted_piece text.now (quoted_size false text.now) }
    ensures shown { IsShown result.what }
{
    match runs::quoted_size(text) {
        None => PieceAt {
            what: LibPiece::Unclosed,
            size: 1 + text.len(),
        },
        Some(size) => PieceAt {
            what: LibPiece::Word(front(text, size - 1)),
            size: 1 + size,
        },
    }
}

/// A comment, by the text behind its first two bytes.
fn comment_piece(text: &[u8]) -> PieceAt<'static>
    requires { length text.now < 18446744073709551600 }
    ensures piece { piece_view result ≡ comment_piece text.now (closed_by 42 47 text.now) }
    ensures shown { IsShown result.what }
{
    match closed_by(b'*', b'/', text) {
        None => PieceAt {
            what: LibPiece::Unclosed,
            size: 2 + text.len(),
        },
        Some(size) => PieceAt {
            what: LibPiece::Skipped,
            size: 2 + size,
        },
    }
}

/// The word with which a text begins.
fn word_piece(text: &[u8]) -> PieceAt<'_>
    ensures piece { piece_view result ≡ word_piece text.now (word_size text.now) }
    ensures shown { IsShown result.what }
{
    let size = runs::word_size(text);
    PieceAt {
        what: LibPiece::Word(front(text, size)),
        size,
    }
}

/// A piece of a single byte.
fn byte_piece(what: LibPiece<'_>) -> PieceAt<'_>
    ensures piece { piece_view result ≡ record { what = what_view what.entry; size = 1 } }
    ensures what { result.what ≡ what.entry }
{
    PieceAt { what, size: 1 }
}

/// Whether a line goes on behind a backslash.
fn joins_lines(byte: u8, behind: &[u8]) -> bool
    ensures { result ≡ (byte == 92 && begins_with 10 behind.now) }
{
    byte == b'\\' && begins_with(b'\n', behind)
}

/// What begins with a byte that is no white space and joins no lines.
#[tactic(auto, unfolding(crate::specs::LibraryWords::library_piece))]
fn ink_piece<'a>(byte: u8, text: &'a [u8], rest: &'a [u8]) -> PieceAt<'a>
    requires split { text.now ≡ byte ∷ rest.now }
    requires size { length text.now < 18446744073709551600 }
    requires newline { (byte == 10) ≡ false }
    requires white { is_white byte ≡ false }
    requires joined { (byte == 92 && begins_with 10 rest.now) ≡ false }
    ensures piece { piece_view result ≡ library_piece true (byte ∷ rest.now) }
    ensures shown { IsShown result.what }
{
    if byte == b'"' {
        return quoted_piece(rest);
    }
    if runs::opens_comment(text) {
        return comment_piece(behind(text, 2));
    }
    if runs::is_word_byte(byte) {
        return word_piece(text);
    }
    byte_piece(LibPiece::Mark(byte, front(text, 1)))
}

/// The piece with which a text begins, by its first byte and the text behind it.
#[tactic(auto, unfolding(crate::specs::LibraryWords::library_piece))]
fn piece_from<'a>(byte: u8, text: &'a [u8], rest: &'a [u8]) -> PieceAt<'a>
    requires split { text.now ≡ byte ∷ rest.now }
    requires size { length text.now < 18446744073709551600 }
    ensures piece { piece_view result ≡ library_piece true (byte ∷ rest.now) }
    ensures shown { IsShown result.what }
{
    if byte == b'\n' {
        return byte_piece(LibPiece::LineEnd);
    }
    if is_white(byte) {
        return byte_piece(LibPiece::Skipped);
    }
    if joins_lines(byte, rest) {
        return PieceAt {
            what: LibPiece::Skipped,
            size: 2,
        };
    }
    ink_piece(byte, text, rest)
}

/// The piece with which a text begins.
#[tactic(auto, using(crate::proofs::PieceLaws::first_split))]
pub fn library_piece(text: &[u8]) -> PieceAt<'_>
    requires some { 0 < length text.now }
    requires size { length text.now < 18446744073709551600 }
    ensures piece { piece_view result ≡ library_piece true text.now }
    ensures shown { IsShown result.what }
{
    piece_from(text[0], text, behind(text, 1))
}
