//! The pieces of a script's text, taken one after the other from the front.
ghost use Rattle.std.specs.Prelude.{◌≡◌, ◌≤◌, [], ◌∷◌, MatchOption, length, drop, true, false};
ghost use Rattle.tcl_words.specs.Pieces.{Piece, begins, behind_blanks, is_blank, is_byte};
ghost use Rattle.tcl_words.specs.Places.{piece_view, start_of};
ghost use Rattle.tcl_words.specs.TclFaults.{line_of};

use std::marker::Model;

/// A piece of a text: a byte, a byte behind a backslash, or a line that is carried on.
#[derive(Clone, Copy, PartialEq, Eq)]
pub(crate) enum TextPiece {
    Byte(u8),
    Escaped(u8),
    Carried,
}

/// A place in a text: the text, how many bytes of it are read, and the line there.
#[derive(Drop)]
pub(crate) struct Reader<'a> {
    text: &'a [u8],
    place: usize,
    line: u32,
}

impl<'a> Model for Reader<'a> {
    ghost use Rattle.tcl_words.specs.Places.{PieceText, text_at, IsPlace};

    ghost Value = { PieceText };

    ghost view = { λ r. text_at r.text.now r.place };

    ghost invariant = { λ r. IsPlace r.text.now r.place r.line };
}

/// Whether a byte is a blank: a space or a tab.
fn is_blank(byte: u8) -> bool
    ensures { result ≡ is_blank byte }
{
    byte == b' ' || byte == b'\t'
}

/// The place behind the blanks that begin at a place of a text.
fn place_behind_blanks(text: &[u8], from: usize) -> usize
    requires { from ≤ length text.now }
    ensures within { result ≤ length text.now }
    ensures behind { drop result text.now ≡ behind_blanks (drop from text.now) }
{
    let mut place = from;
    while place < text.len() && is_blank(text[place]) {
        place += 1;
    }
    place
}

impl<'a> Reader<'a> {
    /// The beginning of a text.
    pub(crate) fn new(text: &'a [u8]) -> Reader<'a>
        ensures { result ≡ start_of text.now }
    {
        Reader {
            text,
            place: 0,
            line: 1,
        }
    }

    /// The same place once more.
    pub(crate) fn again(&self) -> Reader<'a>
        ensures { result ≡ self.now }
    {
        Reader {
            text: self.text,
            place: self.place,
            line: self.line,
        }
    }

    /// The line of the place.
    pub(crate) fn line(&self) -> u32
        ensures { result ≡ line_of self.now.whole self.now.left }
    {
        self.line
    }

    /// Takes the next piece, where there is one.
    pub(crate) fn next(&mut self) -> Option<TextPiece>
        ensures whole { self.new.whole ≡ self.old.whole }
        ensures piece { MatchOption result (self.old.left ≡ [] × self.new.left ≡ []) (λ p. self.old.left ≡ piece_view p ∷ self.new.left) }
    {
        let byte = *self.text.get(self.place)?;
        self.place += 1;
        if byte != b'\\' {
            if byte == b'\n' {
                self.line = self.line.saturating_add(1);
            }
            return Some(TextPiece::Byte(byte));
        }
        let Some(behind) = self.text.get(self.place) else {
            return Some(TextPiece::Byte(byte));
        };
        let behind = *behind;
        self.place += 1;
        if behind != b'\n' {
            return Some(TextPiece::Escaped(behind));
        }
        self.line = self.line.saturating_add(1);
        self.place = place_behind_blanks(self.text, self.place);
        Some(TextPiece::Carried)
    }

    /// Takes the next piece where it is this byte, with no backslash before it. Else nothing is read.
    pub(crate) fn takes(&mut self, byte: u8) -> bool
        ensures whole { self.new.whole ≡ self.old.whole }
        ensures taken { result ≡ true → self.old.left ≡ Piece.byte byte ∷ self.new.left }
        ensures stays { result ≡ false → (begins (is_byte byte) self.old.left ≡ false) × (self.new ≡ self.old) }
    {
        let mut ahead = self.again();
        let Some(TextPiece::Byte(next)) = ahead.next() else {
            return false;
        };
        if next != byte {
            return false;
        }
        *self = ahead;
        true
    }
}
