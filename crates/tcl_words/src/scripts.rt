//! The command lines of a script.
ghost use Rattle.std.specs.Prelude.{◌≡◌, ◌≢◌, ◌<◌, ◌≤◌, ◌∷◌, [], ◌++◌, ◌&&◌, not, codes, length, true, false, IfOk, IfErr, OnOk, Ok, Err};
ghost use Rattle.pw_defs.specs.declared.faults.TclFault.TheVariants.{Memory as OutOfMemory};
ghost use Rattle.tcl_words.specs.LineReadings.{AreLinesSoFar, Pieces, Sets};
ghost use Rattle.tcl_words.specs.Pieces.{is_byte};
ghost use Rattle.tcl_words.specs.Places.{piece_view};
ghost use Rattle.tcl_words.specs.Readings.{Fails};
ghost use Rattle.tcl_words.specs.ScriptWords.{AreLines, HasTclFault, IsComment, ReadsAsLines, begins_command, is_setting};
ghost use Rattle.tcl_words.specs.Settings.{Holds};
ghost use Rattle.tcl_words.specs.Words.{Variables};

use crate::kinds::TextKind;
use crate::pieces::{Reader, TextPiece};
use crate::settings::Settings;
use crate::word_lists;
use pw_defs::{Bytes, Line, List, Memory, TclFault};
use std::alloc::Global;

/// Whether a comment ends at the piece.
fn ends_comment(piece: TextPiece, behind_backslash: bool) -> bool
    ensures { result ≡ (is_byte 10 (piece_view piece) && not behind_backslash) }
{
    !behind_backslash && piece == TextPiece::Byte(b'\n')
}

/// Goes on behind a comment, to the newline that ends it.
fn skip_comment(reader: &mut Reader)
    ensures whole { reader.new.whole ≡ reader.old.whole }
    ensures behind { IsComment reader.old.left reader.new.left }
{
    let mut behind_backslash = false;
    loop {
        let mut ahead = reader.again();
        let Some(piece) = ahead.next() else {
            return;
        };
        if ends_comment(piece, behind_backslash) {
            return;
        }
        behind_backslash = piece == TextPiece::Escaped(b'\\');
        *reader = ahead;
    }
}

/// Whether the words give a variable its text: `set`, a name and a text.
fn is_setting(words: &List<Bytes>) -> bool
    ensures { result ≡ is_setting words.now }
{
    match words.as_slice() {
        [word, _, _] => word.as_slice() == b"set".as_slice(),
        _ => false,
    }
}

/// Gives a variable the text that the words give it.
fn put_setting(alloc: Global, settings: &mut Settings, words: &List<Bytes>) -> Result<(), Memory>
    requires { is_setting words.now ≡ true }
    ensures { OnOk result ((vars : Variables) → Holds settings.old vars → Sets settings.new vars words.now) }
{
    match words.as_slice() {
        [_, name, text] => {
            let name = Vec::from_slice(alloc, name.as_slice())?;
            let text = Vec::from_slice(alloc, text.as_slice())?;
            settings.set(name, text)
        }
        _ => Ok(()),
    }
}

/// Reads the command here. One that gives a variable its text is no line.
fn put_command(
    alloc: Global,
    reader: &mut Reader,
    settings: &mut Settings,
    lines: &mut List<Line>,
) -> Result<(), TclFault>
    requires { begins_command reader.old.left ≡ true }
    ensures whole { reader.new.whole ≡ reader.old.whole }
    ensures shorter { OnOk result (length reader.new.left < length reader.old.left) }
    ensures ok { OnOk result ((all : Pieces) → AreLinesSoFar reader.old.whole all settings.old lines.old reader.old.left → AreLinesSoFar reader.old.whole all settings.new lines.new reader.new.left) }
    ensures err { IfErr result (Fails (λ fault. (all : Pieces) → AreLinesSoFar reader.old.whole all settings.old lines.old reader.old.left → AreLines reader.old.whole [] all (Err fault))) }
{
    let number = reader.line();
    let words = word_lists::words(alloc, reader, settings, TextKind::Command)?;
    if is_setting(&words) {
        put_setting(alloc, settings, &words)?;
        return Ok(());
    }
    put_line(lines, number, words)?;
    Ok(())
}

/// Adds a line.
fn put_line(lines: &mut List<Line>, number: u32, words: List<Bytes>) -> Result<(), Memory>
    ensures { OnOk result (lines.new ≡ lines.old ++ record { number = number; words = words } ∷ []) }
{
    lines.push(Line { number, words })?;
    Ok(())
}

/// Reads the command, the comment or the piece between commands that stands here. At the end of the script the answer is
/// `false`.
fn put_next(
    alloc: Global,
    reader: &mut Reader,
    settings: &mut Settings,
    lines: &mut List<Line>,
) -> Result<bool, TclFault>
    ensures whole { reader.new.whole ≡ reader.old.whole }
    ensures shorter { IfOk result (λ more. more ≡ true → length reader.new.left < length reader.old.left) }
    ensures goes_on { IfOk result (λ more. (all : Pieces) → AreLinesSoFar reader.old.whole all settings.old lines.old reader.old.left → AreLinesSoFar reader.old.whole all settings.new lines.new reader.new.left) }
    ensures over { IfOk result (λ more. more ≡ false → reader.new.left ≡ []) }
    ensures err { IfErr result (Fails (λ fault. (all : Pieces) → AreLinesSoFar reader.old.whole all settings.old lines.old reader.old.left → AreLines reader.old.whole [] all (Err fault))) }
{
    let mut ahead = reader.again();
    let Some(piece) = ahead.next() else {
        return Ok(false);
    };
    if TextKind::Command.is_stop(piece) {
        *reader = ahead;
        return Ok(true);
    }
    if reader.takes(b'#') {
        skip_comment(reader);
        return Ok(true);
    }
    put_command(alloc, reader, settings, lines)?;
    Ok(true)
}

/// The command lines of a script, each with the line at which its command begins. `set` with a name and a text sets a
/// variable and is no line; a `$` before a variable's name stands for its text.
///
/// An error is the first fault of the script by place, or want of memory.
pub fn read_script(alloc: Global, text: &[u8]) -> Result<List<Line>, TclFault>
    ensures ok { IfOk result (ReadsAsLines text.now) }
    ensures err { IfErr result (λ fault. fault ≢ OutOfMemory → HasTclFault text.now fault) }
{
    let mut reader = Reader::new(text);
    let mut settings = Settings::new(alloc);
    let mut lines = List::new(alloc);
    while put_next(alloc, &mut reader, &mut settings, &mut lines)? {}
    Ok(lines)
}
