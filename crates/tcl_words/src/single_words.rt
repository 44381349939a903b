//! A word in braces, in quotes, or bare.
ghost use Rattle.std.specs.Prelude.{◌≡◌, ◌∷◌, true, false, IfOk, IfErr, Ok, Err};
ghost use Rattle.std.specs.List.{list_any};
ghost use Rattle.tcl_words.specs.Pieces.{byte, is_byte};
ghost use Rattle.tcl_words.specs.Readings.{Fails, manner_of};
ghost use Rattle.tcl_words.specs.Settings.{Holds};
ghost use Rattle.tcl_words.specs.Words.{IsWord, Variables, closed, stops};

use crate::kinds::{self, TextKind};
use crate::pieces::{Reader, TextPiece};
use crate::settings::Settings;
use crate::{brace_words, replaced_texts};
use pw_defs::TclFault;
use std::alloc::Global;

/// Whether a quote stands anywhere in what is left, with no backslash before it.
fn has_quote(reader: &Reader) -> bool
    ensures { result ≡ list_any (is_byte 34) reader.now.left }
{
    let mut ahead = reader.again();
    while let Some(piece) = ahead.next() {
        if piece == TextPiece::Byte(b'"') {
            return true;
        }
    }
    false
}

/// A word that was closed here, where white space or the end follows.
fn closed_word(
    alloc: Global,
    reader: &Reader,
    kind: TextKind,
    word: Vec<u8>,
) -> Result<Vec<u8>, TclFault>
    ensures ok { IfOk result (λ text. closed reader.now.whole (manner_of kind) word.items reader.now.left ≡ Ok (text.items, reader.now.left)) }
    ensures err { IfErr result (Fails (λ fault. closed reader.now.whole (manner_of kind) word.items reader.now.left ≡ Err fault)) }
{
    if !kind.stops(reader) {
        return Err(TclFault::T2(kinds::nameless(alloc, reader)?));
    }
    Ok(word)
}

/// The word behind an opening brace, which stands at `here`.
fn braced_word(
    alloc: Global,
    here: &Reader,
    reader: &mut Reader,
    kind: TextKind,
) -> Result<Vec<u8>, TclFault>
    requires whole { here.now.whole ≡ reader.old.whole }
    requires brace { here.now.left ≡ byte 123 ∷ reader.old.left }
    ensures whole { reader.new.whole ≡ reader.old.whole }
    ensures ok { IfOk result (λ word. (vars : Variables) → IsWord reader.old.whole (manner_of kind) vars here.now.left (Ok (word.items, reader.new.left))) }
    ensures err { IfErr result (Fails (λ fault. (vars : Variables) → IsWord reader.old.whole (manner_of kind) vars here.now.left (Err fault))) }
{
    let Some(word) = brace_words::braced_text(alloc, reader)? else {
        return Err(TclFault::T1(kinds::nameless(alloc, here)?));
    };
    closed_word(alloc, reader, kind, word)
}

/// The word behind an opening quote, which stands at `here`.
fn quoted_word(
    alloc: Global,
    here: &Reader,
    reader: &mut Reader,
    settings: &Settings,
    kind: TextKind,
) -> Result<Vec<u8>, TclFault>
    requires whole { here.now.whole ≡ reader.old.whole }
    requires quote { here.now.left ≡ byte 34 ∷ reader.old.left }
    ensures whole { reader.new.whole ≡ reader.old.whole }
    ensures ok { IfOk result (λ word. (vars : Variables) → Holds settings.now vars → IsWord reader.old.whole (manner_of kind) vars here.now.left (Ok (word.items, reader.new.left))) }
    ensures err { IfErr result (Fails (λ fault. (vars : Variables) → Holds settings.now vars → IsWord reader.old.whole (manner_of kind) vars here.now.left (Err fault))) }
{
    if !has_quote(reader) {
        return Err(TclFault::T1(kinds::nameless(alloc, here)?));
    }
    let word = replaced_texts::replaced_text(alloc, reader, settings, kind, true)?;
    reader.takes(b'"');
    closed_word(alloc, reader, kind, word)
}

/// The word that begins here.
pub(crate) fn word(
    alloc: Global,
    reader: &mut Reader,
    settings: &Settings,
    kind: TextKind,
) -> Result<Vec<u8>, TclFault>
    requires { stops (manner_of kind) reader.old.left ≡ false }
    ensures whole { reader.new.whole ≡ reader.old.whole }
    ensures ok { IfOk result (λ word. (vars : Variables) → Holds settings.now vars → IsWord reader.old.whole (manner_of kind) vars reader.old.left (Ok (word.items, reader.new.left))) }
    ensures err { IfErr result (Fails (λ fault. (vars : Variables) → Holds settings.now vars → IsWord reader.old.whole (manner_of kind) vars reader.old.left (Err fault))) }
{
    let here = reader.again();
    if reader.takes(b'{') {
        return braced_word(alloc, &here, reader, kind);
    }
    if reader.takes(b'"') {
        return quoted_word(alloc, &here, reader, settings, kind);
    }
    replaced_texts::replaced_text(alloc, reader, settings, kind, false)
}
