//! Names of variables.
ghost use Rattle.std.specs.Prelude.{◌≡◌, ◌∷◌, ℕ, List, IfOk, IfNone, IfSome, MatchOption, true, false};
ghost use Rattle.tcl_words.specs.Pieces.{Piece, begins, byte, is_byte};
ghost use Rattle.tcl_words.specs.Places.{IsFront};
ghost use Rattle.tcl_words.specs.Words.{is_name_byte, is_name_piece, IsVariable};

use crate::pieces::{Reader, TextPiece};
use pw_defs::Memory;
use std::alloc::Global;

/// Whether a variable's name may have the byte.
fn is_name_byte(byte: u8) -> bool
    ensures { result ≡ is_name_byte byte }
{
    byte.is_ascii_alphanumeric() || byte == b'_'
}

/// Takes the next byte of a name, where there is one.
fn name_byte(reader: &mut Reader) -> Option<u8>
    ensures whole { reader.new.whole ≡ reader.old.whole }
    ensures none { IfNone result ((begins is_name_piece reader.old.left ≡ false) × (reader.new ≡ reader.old)) }
    ensures some { IfSome result (λ b. (reader.old.left ≡ byte b ∷ reader.new.left) × (is_name_byte b ≡ true)) }
{
    let mut ahead = reader.again();
    let TextPiece::Byte(byte) = ahead.next()? else {
        return None;
    };
    if !is_name_byte(byte) {
        return None;
    }
    *reader = ahead;
    Some(byte)
}

/// The longest name that a text begins with.
fn name_front(alloc: Global, reader: &mut Reader) -> Result<Vec<u8>, Memory>
    ensures whole { reader.new.whole ≡ reader.old.whole }
    ensures front { IfOk result (λ name. IsFront reader.old.left name.items reader.new.left) }
{
    let mut name = Vec::new(alloc);
    while let Some(byte) = name_byte(reader) {
        name.push(byte)?;
    }
    Ok(name)
}

/// The name that a text begins with. Where it begins with none, nothing is read.
fn bare_name(alloc: Global, reader: &mut Reader) -> Result<Option<Vec<u8>>, Memory>
    requires { begins (is_byte 123) reader.old.left ≡ false }
    ensures whole { reader.new.whole ≡ reader.old.whole }
    ensures named { IfOk result (λ found. MatchOption found ((name : List ℕ) (left : List Piece) → ¬ IsVariable reader.old.left name left) (λ name. IsVariable reader.old.left name.items reader.new.left)) }
    ensures stays { IfOk result (λ found. IfNone found (reader.new ≡ reader.old)) }
{
    let mut ahead = reader.again();
    let name = name_front(alloc, &mut ahead)?;
    if name.is_empty() {
        return Ok(None);
    }
    *reader = ahead;
    Ok(Some(name))
}

/// The variable that a text behind a `$` names. Where it names none, nothing is read.
pub(crate) fn variable_name(alloc: Global, reader: &mut Reader) -> Result<Option<Vec<u8>>, Memory>
    ensures whole { reader.new.whole ≡ reader.old.whole }
    ensures named { IfOk result (λ found. MatchOption found ((name : List ℕ) (left : List Piece) → ¬ IsVariable reader.old.left name left) (λ name. IsVariable reader.old.left name.items reader.new.left)) }
    ensures stays { IfOk result (λ found. IfNone found (reader.new ≡ reader.old)) }
{
    let mut ahead = reader.again();
    if !ahead.takes(b'{') {
        return bare_name(alloc, reader);
    }
    let name = name_front(alloc, &mut ahead)?;
    if name.is_empty() {
        return Ok(None);
    }
    if !ahead.takes(b'}') {
        return Ok(None);
    }
    *reader = ahead;
    Ok(Some(name))
}
