//! The words of a command or of a list, one after the other.
ghost use Rattle.std.specs.Prelude.{◌≡◌, ◌≢◌, ◌≤◌, ◌<◌, ◌∷◌, [], ◌++◌, length, true, false, IfOk, IfErr, OnOk, Ok, Err};
ghost use Rattle.pw_defs.specs.declared.faults.TclFault.TheVariants.{Memory as OutOfMemory};
ghost use Rattle.tcl_words.specs.ListWords.{PartsInto, HasListFault};
ghost use Rattle.tcl_words.specs.Pieces.{begins};
ghost use Rattle.tcl_words.specs.Readings.{Fails, ReadWords, manner_of};
ghost use Rattle.tcl_words.specs.Settings.{Holds};
ghost use Rattle.tcl_words.specs.Words.{AreWords, Variables, is_gap};

use crate::kinds::TextKind;
use crate::pieces::Reader;
use crate::settings::Settings;
use crate::single_words;
use pw_defs::{Bytes, List, Memory, TclFault};
use std::alloc::Global;

/// Takes a piece that parts two words, where one stands here.
fn takes_gap(reader: &mut Reader, kind: TextKind) -> bool
    ensures whole { reader.new.whole ≡ reader.old.whole }
    ensures shorter { result ≡ true → length reader.new.left < length reader.old.left }
    ensures taken { result ≡ true → (vars : Variables) (read : ReadWords) → AreWords reader.old.whole (manner_of kind) vars reader.new.left read → AreWords reader.old.whole (manner_of kind) vars reader.old.left read }
    ensures stays { result ≡ false → (begins (is_gap (manner_of kind)) reader.old.left ≡ false) × (reader.new ≡ reader.old) }
{
    let mut ahead = reader.again();
    let Some(piece) = ahead.next() else {
        return false;
    };
    if !kind.is_gap(piece) {
        return false;
    }
    *reader = ahead;
    true
}

/// Goes on to the next word, or to the end.
fn skip_gaps(reader: &mut Reader, kind: TextKind)
    ensures whole { reader.new.whole ≡ reader.old.whole }
    ensures shorter { length reader.new.left ≤ length reader.old.left }
    ensures same { (vars : Variables) (read : ReadWords) → AreWords reader.old.whole (manner_of kind) vars reader.new.left read → AreWords reader.old.whole (manner_of kind) vars reader.old.left read }
    ensures ink { begins (is_gap (manner_of kind)) reader.new.left ≡ false }
{
    while takes_gap(reader, kind) {}
}

/// Adds a word.
fn put_word(words: &mut List<Bytes>, word: Vec<u8>) -> Result<(), Memory>
    ensures { OnOk result (words.new ≡ words.old ++ word.items ∷ []) }
{
    let Some(word) = Bytes::from_vec(word) else {
        return Err(Memory);
    };
    words.push(word)?;
    Ok(())
}

/// The words from here up to the end of the command or list.
pub(crate) fn words(
    alloc: Global,
    reader: &mut Reader,
    settings: &Settings,
    kind: TextKind,
) -> Result<List<Bytes>, TclFault>
    ensures whole { reader.new.whole ≡ reader.old.whole }
    ensures ok { IfOk result (λ words. (vars : Variables) → Holds settings.now vars → AreWords reader.old.whole (manner_of kind) vars reader.old.left (Ok (words, reader.new.left))) }
    ensures err { IfErr result (Fails (λ fault. (vars : Variables) → Holds settings.now vars → AreWords reader.old.whole (manner_of kind) vars reader.old.left (Err fault))) }
{
    let mut words = List::new(alloc);
    loop {
        skip_gaps(reader, kind);
        if kind.ends(reader) {
            return Ok(words);
        }
        let word = single_words::word(alloc, reader, settings, kind)?;
        put_word(&mut words, word)?;
    }
}

/// The words of a list's text, which white space and newlines part. Braces and quotes keep a word together.
///
/// An error is the first fault of the text by place, or want of memory.
pub fn split_list(alloc: Global, text: &[u8]) -> Result<List<Bytes>, TclFault>
    ensures ok { IfOk result (PartsInto text.now) }
    ensures err { IfErr result (λ fault. fault ≢ OutOfMemory → HasListFault text.now fault) }
{
    let mut reader = Reader::new(text);
    words(alloc, &mut reader, &Settings::new(alloc), TextKind::List)
}
