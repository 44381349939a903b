//! The token that stands behind a place in a netlist's text. White space and the tokens that stand most are gone over
//! without their pieces.
ghost use Rattle.std.specs.Prelude.{◌≡◌, ◌<◌, ◌++◌, length, codes};
ghost use Rattle.text_defs.specs.Lines.{last_line};
ghost use Rattle.text_streams.specs.Places.{IsAt};
ghost use Rattle.net_text.specs.NetlistTokens.{Stray, token_of};
ghost use Rattle.net_text.specs.PieceViews.{what_view};
ghost use Rattle.net_text.specs.Sizes.{IsNextMeasured};
ghost use Rattle.net_text.specs.Streams.{tokens_behind, ahead, word_view, IsMarkOf, EndsAt};

use crate::classes::{NetClass, digits_class, mark_class, word_class};
use crate::direct::direct_word;
use crate::pieces::{NetPiece, netlist_piece};
use crate::steps::{behind_graphic, behind_white};
use text_streams::{Place, front, last_line};

/// A token: its class, its text and its line.
#[derive(Clone, Copy)]
pub struct Word<'a> {
    pub class: NetClass,
    pub text: &'a [u8],
    pub line: u32,
}

/// What the end of the text cuts.
fn cut_word(text: &[u8]) -> Word<'static>
    ensures { word_view result ≡ record { class = Stray; text = codes "-"; line = last_line text.now } }
{
    Word {
        class: NetClass::Stray,
        text: b"-",
        line: last_line(text),
    }
}

/// The token that a piece is, if it is one. `first` is the first byte of the text at the piece.
fn word_of<'a>(what: NetPiece<'a>, line: u32, first: &'a [u8], text: &'a [u8]) -> Option<Word<'a>>
    requires { IsMarkOf (what_view what) first.now }
    ensures { ahead result ≡ token_of (last_line text.now) (record { what = what_view what.entry; line = line }) }
{
    match what {
        NetPiece::Skipped => None,
        NetPiece::Plain(word) => Some(Word {
            class: word_class(word),
            text: word,
            line,
        }),
        NetPiece::Escaped(name) => Some(Word {
            class: NetClass::Name,
            text: name,
            line,
        }),
        NetPiece::Digits(digits) => Some(Word {
            class: digits_class(digits),
            text: digits,
            line,
        }),
        NetPiece::Constant(constant) => Some(Word {
            class: NetClass::Constant,
            text: constant,
            line,
        }),
        NetPiece::Mark(byte) => Some(Word {
            class: mark_class(byte),
            text: first,
            line,
        }),
        NetPiece::Unclosed => Some(cut_word(text)),
    }
}

/// The token of the piece at a place, if it is one, and the place behind the piece.
fn piece_word<'a>(place: Place<'a>) -> (Option<Word<'a>>, Place<'a>)
    requires at { IsAt place }
    requires some { place.at < length place.text.now }
    ensures at { IsAt result.1 }
    ensures text { result.1.text.now ≡ place.entry.text.now }
    ensures place { place.entry.at < result.1.at }
    ensures measured { IsNextMeasured (ahead result.0) }
    ensures tokens { tokens_behind place.entry ≡ ahead result.0 ++ tokens_behind result.1 }
{
    let rest = place.rest();
    let piece = netlist_piece(place.fresh, rest);
    let size = piece.size.max(1).min(rest.len());
    let word = word_of(piece.what, place.line, front(rest, 1), place.text);
    (word, place.moved(size))
}

/// The token at a place, if one begins there, and the place behind it or behind what is skipped.
fn word_at<'a>(place: Place<'a>) -> (Option<Word<'a>>, Place<'a>)
    requires at { IsAt place }
    requires some { place.at < length place.text.now }
    ensures at { IsAt result.1 }
    ensures text { result.1.text.now ≡ place.entry.text.now }
    ensures place { place.entry.at < result.1.at }
    ensures measured { IsNextMeasured (ahead result.0) }
    ensures tokens { tokens_behind place.entry ≡ ahead result.0 ++ tokens_behind result.1 }
{
    match direct_word(place.rest(), place.line) {
        None => piece_word(place),
        Some(word) => (Some(word), behind_graphic(place, word.text.len())),
    }
}

/// The next token, if there is one, and the place behind it.
#[tactic(auto, using(crate::proofs::StreamLaws::none_behind))]
pub fn next_word<'a>(place: Place<'a>) -> (Option<Word<'a>>, Place<'a>)
    requires { IsAt place }
    ensures at { IsAt result.1 }
    ensures tokens { tokens_behind place.entry ≡ ahead result.0 ++ tokens_behind result.1 }
    ensures none { EndsAt result.0 (tokens_behind result.1) }
    ensures measured { IsNextMeasured (ahead result.0) }
{
    let mut place = behind_white(place);
    while place.at < place.text.len() {
        let (word, behind) = word_at(place);
        if word.is_some() {
            return (word, behind);
        }
        place = behind_white(behind);
    }
    (None, place)
}
