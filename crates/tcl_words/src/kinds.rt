//! The two kinds of text that have words, and which of their pieces part and end these.
ghost use Rattle.std.specs.Prelude.{◌≡◌, ◌∷◌, IfOk, IfErr, Ok, Err};
ghost use Rattle.pw_defs.specs.declared.faults.TclFault.TheVariants.{T1, T2, T3};
ghost use Rattle.tcl_words.specs.Pieces.{is_space};
ghost use Rattle.tcl_words.specs.Places.{piece_view};
ghost use Rattle.tcl_words.specs.Readings.{manner_of, stop_of, is_replaced_at};
ghost use Rattle.tcl_words.specs.TclFaults.{at, nameless};
ghost use Rattle.tcl_words.specs.Words.{ends, is_end, is_gap, is_stop, stops};

use crate::pieces::{Reader, TextPiece};
use pw_defs::{At, Memory, Name};
use std::alloc::Global;

/// The text of a command, or that of a list.
#[derive(Clone, Copy)]
pub(crate) enum TextKind {
    Command,
    List,
}

/// Whether the piece is white space.
fn is_space(piece: TextPiece) -> bool
    ensures { result ≡ is_space (piece_view piece) }
{
    match piece {
        TextPiece::Byte(byte) => matches!(byte, b' ' | b'\t' | b'\n' | b'\r' | 12),
        TextPiece::Escaped(_) => false,
        TextPiece::Carried => true,
    }
}

impl TextKind {
    /// Whether a command ends at the piece.
    fn is_end(self, piece: TextPiece) -> bool
        ensures { result ≡ is_end (manner_of self) (piece_view piece) }
    {
        match self {
            TextKind::Command => {
                piece == TextPiece::Byte(b'\n') || piece == TextPiece::Byte(b';')
            }
            TextKind::List => false,
        }
    }

    /// Whether the piece parts two words.
    pub(crate) fn is_gap(self, piece: TextPiece) -> bool
        ensures { result ≡ is_gap (manner_of self) (piece_view piece) }
    {
        is_space(piece) && !self.is_end(piece)
    }

    /// Whether a word ends at the piece.
    pub(crate) fn is_stop(self, piece: TextPiece) -> bool
        ensures { result ≡ is_stop (manner_of self) (piece_view piece) }
    {
        is_space(piece) || self.is_end(piece)
    }

    /// Whether a text that is quoted or bare stops at the piece.
    pub(crate) fn is_stop_of(self, quoted: bool, piece: TextPiece) -> bool
        ensures { result ≡ stop_of self quoted (piece_view piece) }
    {
        if quoted {
            return piece == TextPiece::Byte(b'"');
        }
        self.is_stop(piece)
    }

    /// Whether something is replaced at the piece: in a command at a `$` and at a `[`.
    pub(crate) fn replaces(self, piece: TextPiece) -> bool
        ensures { result ≡ is_replaced_at (manner_of self) (piece_view piece) }
    {
        match self {
            TextKind::Command => {
                piece == TextPiece::Byte(b'$') || piece == TextPiece::Byte(b'[')
            }
            TextKind::List => false,
        }
    }

    /// Whether the words end here.
    pub(crate) fn ends(self, reader: &Reader) -> bool
        ensures { result ≡ ends (manner_of self) reader.now.left }
    {
        let mut ahead = reader.again();
        match ahead.next() {
            Some(piece) => self.is_end(piece),
            None => true,
        }
    }

    /// Whether white space or the end stands here.
    pub(crate) fn stops(self, reader: &Reader) -> bool
        ensures { result ≡ stops (manner_of self) reader.now.left }
    {
        let mut ahead = reader.again();
        match ahead.next() {
            Some(piece) => self.is_stop(piece),
            None => true,
        }
    }
}

/// A fault's place, with a name.
pub(crate) fn place_of(reader: &Reader, name: Vec<u8>) -> Result<At, Memory>
    ensures { IfOk result (λ place. place ≡ at reader.now.whole reader.now.left name.items) }
{
    let Some(name) = Name::from_vec(name) else {
        return Err(Memory);
    };
    Ok(At {
        line: reader.line(),
        name,
    })
}

/// A fault's place, which gives no name.
pub(crate) fn nameless(alloc: Global, reader: &Reader) -> Result<At, Memory>
    ensures { IfOk result (λ place. place ≡ nameless reader.now.whole reader.now.left) }
{
    let name = Name::from_slice(alloc, b"-")?;
    Ok(At {
        line: reader.line(),
        name,
    })
}
