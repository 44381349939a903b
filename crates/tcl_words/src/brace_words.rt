//! Words in braces.
ghost use Rattle.std.specs.Prelude.{◌≡◌, ◌<◌, ◌++◌, ℕ, List, IfOk, OnOk, MatchOption};
ghost use Rattle.tcl_words.specs.Places.{depth_behind, kept_text, piece_view};
ghost use Rattle.tcl_words.specs.Pieces.{Piece};
ghost use Rattle.tcl_words.specs.Words.{IsBraced};

use crate::pieces::{Reader, TextPiece};
use pw_defs::Memory;
use std::alloc::Global;

/// Adds a piece to a word as it stands in braces.
fn put_kept(word: &mut Vec<u8>, piece: TextPiece) -> Result<(), Memory>
    ensures { OnOk result (word.new.items ≡ word.old.items ++ kept_text (piece_view piece)) }
{
    match piece {
        TextPiece::Byte(byte) => word.push(byte)?,
        TextPiece::Escaped(byte) => {
            word.push(b'\\')?;
            word.push(byte)?;
        }
        TextPiece::Carried => word.push(b' ')?,
    }
    Ok(())
}

/// How many braces are open behind a piece, which is `None` where it closes the word.
fn depth_behind(depth: usize, piece: TextPiece) -> Option<usize>
    requires { depth < 18446744073709551615 }
    ensures { result ≡ depth_behind depth (piece_view piece) }
{
    match piece {
        TextPiece::Byte(b'{') => Some(depth + 1),
        TextPiece::Byte(b'}') => depth.checked_sub(1),
        _ => Some(depth),
    }
}

/// The text behind an opening brace up to the brace that closes it, which is `None` where nothing does.
pub(crate) fn braced_text(alloc: Global, reader: &mut Reader) -> Result<Option<Vec<u8>>, Memory>
    ensures whole { reader.new.whole ≡ reader.old.whole }
    ensures text { IfOk result (λ found. MatchOption found ((word : List ℕ) (left : List Piece) → ¬ IsBraced 0 reader.old.left word left) (λ word. IsBraced 0 reader.old.left word.items reader.new.left)) }
{
    let mut word = Vec::new(alloc);
    let mut depth = 0;
    loop {
        let Some(piece) = reader.next() else {
            return Ok(None);
        };
        let Some(behind) = depth_behind(depth, piece) else {
            return Ok(Some(word));
        };
        put_kept(&mut word, piece)?;
        depth = behind;
    }
}
