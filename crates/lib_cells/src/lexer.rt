//! The tokens of a library's text, from place to place.
ghost use Rattle.std.specs.Prelude.{◌≡◌, ℕ, ◌<◌, ◌≤◌, ◌∷◌, ◌++◌, ◌==◌, ◌&&◌, [], not, length};
ghost use Rattle.text_defs.specs.Lines.{last_line};
ghost use Rattle.text_streams.specs.Places.{IsAt};
ghost use Rattle.lib_cells.specs.LibraryWords.{Stray, ends_value, is_line_end, library_tokens, mark_class, token_of, tokens_from};
ghost use Rattle.lib_cells.specs.PieceViews.{IsShown, what_view};
ghost use Rattle.lib_cells.specs.Streams.{EndsAt, EndsWith, IsFront, IsShownAhead, ahead_passes, class_view, inked, one_inked, pieces_ahead, pieces_left, placed_view, tokens_left, word_ahead, word_class_by, word_view};

use crate::pieces::{LibPiece, library_piece};
use text_streams::{Place, last_line};

/// A piece that isn't skipped, and its line.
#[derive(Clone, Copy)]
pub struct PlacedPiece<'a> {
    pub what: LibPiece<'a>,
    pub line: u32,
}

/// The piece ahead, and the place behind it.
#[derive(Clone, Copy)]
pub struct Front<'a> {
    pub piece: Option<PlacedPiece<'a>>,
    pub place: Place<'a>,
}

/// The classes of tokens.
#[derive(Clone, Copy)]
pub enum LibClass {
    PlainWord,
    /// The last word of an attribute's value: a line's end, a semicolon or a closing brace follows it.
    LastWord,
    Open,
    Shut,
    LeftBrace,
    RightBrace,
    Colon,
    Semicolon,
    Comma,
    /// What no library has.
    Stray,
}

/// A token: its class, its text and its line.
#[derive(Clone, Copy)]
pub struct Word<'a> {
    pub class: LibClass,
    pub text: &'a [u8],
    pub line: u32,
}

/// A piece with its line, if it isn't skipped.
fn inked_piece(what: LibPiece<'_>, line: u32) -> Option<PlacedPiece<'_>>
    requires { IsShown what }
    ensures piece { pieces_ahead result ≡ one_inked (what_view what.entry) line }
    ensures shown { IsShownAhead result }
{
    match what {
        LibPiece::Skipped => None,
        LibPiece::LineEnd => Some(PlacedPiece { what, line }),
        LibPiece::Word(_) => Some(PlacedPiece { what, line }),
        LibPiece::Mark(_, _) => Some(PlacedPiece { what, line }),
        LibPiece::Unclosed => Some(PlacedPiece { what, line }),
    }
}

/// The piece at a place, if it isn't skipped, and the place behind it.
fn piece_at<'a>(place: Place<'a>) -> (Option<PlacedPiece<'a>>, Place<'a>)
    requires at { IsAt place }
    requires some { place.at < length place.text.now }
    ensures at { IsAt result.1 }
    ensures text { result.1.text.now ≡ place.entry.text.now }
    ensures place { place.entry.at < result.1.at }
    ensures pieces { inked place.entry ≡ pieces_ahead result.0 ++ inked result.1 }
    ensures shown { IsShownAhead result.0 }
{
    let rest = place.rest();
    let piece = library_piece(rest);
    let size = piece.size.max(1).min(rest.len());
    (inked_piece(piece.what, place.line), place.moved(size))
}

/// The next piece that isn't skipped, with the place behind it.
#[tactic(auto, using(crate::proofs::StreamLaws::none_inked))]
fn next_piece<'a>(place: Place<'a>) -> Front<'a>
    requires { IsAt place }
    ensures front { IsFront result }
    ensures text { result.place.text.now ≡ place.entry.text.now }
    ensures pieces { inked place.entry ≡ pieces_left result }
{
    let mut place = place;
    while place.at < place.text.len() {
        let (piece, behind) = piece_at(place);
        place = behind;
        if piece.is_some() {
            return Front { piece, place };
        }
    }
    Front { piece: None, place }
}

/// Whether a value ends before the piece ahead.
fn ends_value(ahead: Option<PlacedPiece<'_>>) -> bool
    ensures { result ≡ ahead_passes ends_value ahead.entry }
{
    match ahead {
        None => false,
        Some(piece) => match piece.what {
            LibPiece::LineEnd => true,
            LibPiece::Mark(byte, _) => byte == b';' || byte == b'}',
            LibPiece::Skipped => false,
            LibPiece::Word(_) => false,
            LibPiece::Unclosed => false,
        },
    }
}

/// Whether a line ends before the piece ahead.
fn is_line_end(ahead: Option<PlacedPiece<'_>>) -> bool
    ensures { result ≡ ahead_passes is_line_end ahead.entry }
{
    match ahead {
        None => false,
        Some(piece) => match piece.what {
            LibPiece::LineEnd => true,
            LibPiece::Mark(_, _) => false,
            LibPiece::Skipped => false,
            LibPiece::Word(_) => false,
            LibPiece::Unclosed => false,
        },
    }
}

/// Whether a byte is a colon that doesn't end its line.
fn is_colon(byte: u8, ahead: Option<PlacedPiece<'_>>) -> bool
    ensures { result ≡ (byte == 58 && not (ahead_passes is_line_end ahead.entry)) }
{
    byte == b':' && !is_line_end(ahead)
}

/// The class of a word.
fn word_class(ahead: Option<PlacedPiece<'_>>) -> LibClass
    ensures { class_view result ≡ word_class_by (ahead_passes ends_value ahead.entry) }
{
    if ends_value(ahead) {
        LibClass::LastWord
    } else {
        LibClass::PlainWord
    }
}

/// The class of a byte by itself.
fn mark_class(byte: u8, ahead: Option<PlacedPiece<'_>>) -> LibClass
    ensures { class_view result ≡ mark_class byte (pieces_ahead ahead.entry) }
{
    if byte == b'(' {
        return LibClass::Open;
    }
    if byte == b')' {
        return LibClass::Shut;
    }
    if byte == b'{' {
        return LibClass::LeftBrace;
    }
    if byte == b'}' {
        return LibClass::RightBrace;
    }
    if is_colon(byte, ahead) {
        return LibClass::Colon;
    }
    if byte == b';' {
        return LibClass::Semicolon;
    }
    if byte == b',' {
        return LibClass::Comma;
    }
    LibClass::Stray
}

/// What nothing closes stands at the text's end.
fn cut_word(text: &[u8]) -> Word<'static>
    ensures { word_view result ≡ record { class = Stray; text = []; line = last_line text.now } }
{
    Word {
        class: LibClass::Stray,
        text: b"",
        line: last_line(text),
    }
}

/// The token of a piece, by the piece ahead of it.
fn word_of<'a>(
    piece: PlacedPiece<'a>,
    ahead: Option<PlacedPiece<'a>>,
    text: &'a [u8],
) -> Option<Word<'a>>
    requires { IsShown piece.what }
    ensures { word_ahead result ≡ token_of (last_line text.now) (placed_view piece.entry) (pieces_ahead ahead.entry) }
{
    match piece.what {
        LibPiece::Skipped => None,
        LibPiece::LineEnd => None,
        LibPiece::Word(word) => Some(Word {
            class: word_class(ahead),
            text: word,
            line: piece.line,
        }),
        LibPiece::Mark(byte, shown) => Some(Word {
            class: mark_class(byte, ahead),
            text: shown,
            line: piece.line,
        }),
        LibPiece::Unclosed => Some(cut_word(text)),
    }
}

/// The token of a piece, if it is one, and what stands ahead behind it. `place` is behind the piece.
#[tactic(auto, unfolding(crate::specs::LibraryWords::tokens_from), using(crate::proofs::StreamLaws::token_step))]
fn word_at<'a>(piece: PlacedPiece<'a>, place: Place<'a>) -> (Option<Word<'a>>, Front<'a>)
    requires at { IsAt place }
    requires shown { IsShown piece.what }
    ensures front { IsFront result.1 }
    ensures text { result.1.place.text.now ≡ place.entry.text.now }
    ensures pieces { inked place.entry ≡ pieces_left result.1 }
    ensures tokens { tokens_from (last_line place.entry.text.now) (placed_view piece.entry ∷ inked place.entry) ≡ word_ahead result.0 ++ tokens_left result.1 }
{
    let front = next_piece(place);
    (word_of(piece, front.piece, front.place.text), front)
}

/// The next token, if there is one, and what stands ahead behind it.
#[tactic(auto, unfolding(crate::specs::LibraryWords::tokens_from))]
pub fn next_word<'a>(front: Front<'a>) -> (Option<Word<'a>>, Front<'a>)
    requires { IsFront front }
    ensures front { IsFront result.1 }
    ensures tokens { tokens_left front.entry ≡ word_ahead result.0 ++ tokens_left result.1 }
    ensures none { EndsWith result.0 (tokens_left result.1) }
{
    let mut front = front;
    while let Some(piece) = front.piece {
        let (word, behind) = word_at(piece, front.place);
        front = behind;
        if word.is_some() {
            return (word, front);
        }
    }
    (None, front)
}

/// What stands ahead of a text.
#[tactic(auto, unfolding(crate::specs::Streams::inked_from))]
pub fn first_front<'a>(text: &'a [u8]) -> Front<'a>
    ensures front { IsFront result }
    ensures tokens { tokens_left result ≡ library_tokens text.now }
{
    next_piece(Place::new(text))
}
