//! Bare and quoted text, with backslashes and variables replaced.
ghost use Rattle.std.specs.Prelude.{◌≡◌, ◌<◌, ◌++◌, [], ◌∷◌, List, length, true, false, IfOk, IfErr, OnOk, MatchBool, Ok, Err};
ghost use Rattle.tcl_words.specs.Pieces.{Piece, begins};
ghost use Rattle.tcl_words.specs.Places.{piece_view};
ghost use Rattle.tcl_words.specs.Readings.{Fails, GoesOn, is_replaced_at, manner_of, meant_text, stop_of};
ghost use Rattle.tcl_words.specs.Settings.{Holds};
ghost use Rattle.tcl_words.specs.Words.{IsReplaced, Variables, meant};

use crate::kinds::{self, TextKind};
use crate::pieces::{Reader, TextPiece};
use crate::settings::Settings;
use crate::variables;
use pw_defs::{Memory, TclFault};
use std::alloc::Global;

/// The byte that a backslash and a byte stand for.
fn meant(byte: u8) -> u8
    ensures { result ≡ meant byte }
{
    match byte {
        b'n' => b'\n',
        b't' => b'\t',
        _ => byte,
    }
}

/// Adds what a piece stands for.
fn put_meant(text: &mut Vec<u8>, piece: TextPiece) -> Result<(), Memory>
    ensures { OnOk result (text.new.items ≡ text.old.items ++ meant_text (piece_view piece)) }
{
    match piece {
        TextPiece::Byte(byte) => text.push(byte)?,
        TextPiece::Escaped(byte) => text.push(meant(byte))?,
        TextPiece::Carried => text.push(b' ')?,
    }
    Ok(())
}

/// Adds more bytes.
fn put(text: &mut Vec<u8>, more: &[u8]) -> Result<(), Memory>
    ensures { OnOk result (text.new.items ≡ text.old.items ++ more.now) }
{
    text.extend_from_slice(more)?;
    Ok(())
}

/// Adds the text of the variable that is named here, or a `$` that names none. A `[` is a fault.
fn put_replaced(
    alloc: Global,
    reader: &mut Reader,
    settings: &Settings,
    kind: TextKind,
    quoted: bool,
    text: &mut Vec<u8>,
) -> Result<(), TclFault>
    requires replaced { begins (is_replaced_at (manner_of kind)) reader.old.left ≡ true }
    requires on { begins (stop_of kind quoted) reader.old.left ≡ false }
    ensures whole { reader.new.whole ≡ reader.old.whole }
    ensures shorter { OnOk result (length reader.new.left < length reader.old.left) }
    ensures ok { OnOk result ((vars : Variables) → Holds settings.now vars → GoesOn reader.old.whole (manner_of kind) vars (stop_of kind quoted) text.old.items reader.old.left text.new.items reader.new.left) }
    ensures err { IfErr result (Fails (λ fault. (vars : Variables) → Holds settings.now vars → IsReplaced reader.old.whole (manner_of kind) vars (stop_of kind quoted) reader.old.left (Err fault))) }
{
    let mut ahead = reader.again();
    if !ahead.takes(b'$') {
        return Err(TclFault::T3(kinds::nameless(alloc, reader)?));
    }
    let Some(name) = variables::variable_name(alloc, &mut ahead)? else {
        put(text, b"$")?;
        *reader = ahead;
        return Ok(());
    };
    let Some(value) = settings.text(name.as_slice()) else {
        return Err(TclFault::T4(kinds::place_of(reader, name)?));
    };
    put(text, value)?;
    *reader = ahead;
    Ok(())
}

/// Adds what the text goes on with. Where it stops the answer is `false`, and nothing is read.
fn put_next(
    alloc: Global,
    reader: &mut Reader,
    settings: &Settings,
    kind: TextKind,
    quoted: bool,
    text: &mut Vec<u8>,
) -> Result<bool, TclFault>
    ensures whole { reader.new.whole ≡ reader.old.whole }
    ensures shorter { IfOk result (λ more. more ≡ true → length reader.new.left < length reader.old.left) }
    ensures goes_on { IfOk result (λ more. more ≡ true → (vars : Variables) → Holds settings.now vars → GoesOn reader.old.whole (manner_of kind) vars (stop_of kind quoted) text.old.items reader.old.left text.new.items reader.new.left) }
    ensures stops { IfOk result (λ more. more ≡ false → (text.new.items ≡ text.old.items) × (reader.new.left ≡ reader.old.left) × ((vars : Variables) → IsReplaced reader.old.whole (manner_of kind) vars (stop_of kind quoted) reader.old.left (Ok ([], reader.old.left)))) }
    ensures err { IfErr result (Fails (λ fault. (vars : Variables) → Holds settings.now vars → IsReplaced reader.old.whole (manner_of kind) vars (stop_of kind quoted) reader.old.left (Err fault))) }
{
    let mut ahead = reader.again();
    let Some(piece) = ahead.next() else {
        return Ok(false);
    };
    if kind.is_stop_of(quoted, piece) {
        return Ok(false);
    }
    if kind.replaces(piece) {
        put_replaced(alloc, reader, settings, kind, quoted, text)?;
        return Ok(true);
    }
    put_meant(text, piece)?;
    *reader = ahead;
    Ok(true)
}

/// A quoted or bare text up to where it stops.
pub(crate) fn replaced_text(
    alloc: Global,
    reader: &mut Reader,
    settings: &Settings,
    kind: TextKind,
    quoted: bool,
) -> Result<Vec<u8>, TclFault>
    ensures whole { reader.new.whole ≡ reader.old.whole }
    ensures ok { IfOk result (λ text. (vars : Variables) → Holds settings.now vars → IsReplaced reader.old.whole (manner_of kind) vars (stop_of kind quoted) reader.old.left (Ok (text.items, reader.new.left))) }
    ensures err { IfErr result (Fails (λ fault. (vars : Variables) → Holds settings.now vars → IsReplaced reader.old.whole (manner_of kind) vars (stop_of kind quoted) reader.old.left (Err fault))) }
{
    let mut text = Vec::new(alloc);
    loop {
        if !put_next(alloc, reader, settings, kind, quoted, &mut text)? {
            return Ok(text);
        }
    }
}
