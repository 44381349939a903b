//! The words of a list's text.
ghost use Rattle.std.specs.Prelude.{◌≡◌, ◌↔◌, IsTrue, IfOk};
ghost use Rattle.upf_commands.specs.CommandWords.{IsOneName};
ghost use Rattle.upf_reader.specs.Readings.{HasParting};

use pw_defs::{Bytes, List, Memory, TclFault};
use std::alloc::Global;
use tcl_words::split_list;

/// The words of a list's text; or a brace or quote in it is never closed, or something follows a closed word.
#[derive(Drop)]
pub(crate) enum Parting {
    Words(List<Bytes>),
    Unclosed,
    AfterWord,
}

/// Parts a list's text.
pub(crate) fn parted(alloc: Global, text: &[u8]) -> Result<Parting, Memory>
    ensures { IfOk result (HasParting text.now) }
{
    match split_list(alloc, text) {
        Ok(words) => Ok(Parting::Words(words)),
        Err(TclFault::T1(_)) => Ok(Parting::Unclosed),
        Err(TclFault::T2(_)) => Ok(Parting::AfterWord),
        Err(_) => Err(Memory),
    }
}

/// Whether the word is a list of one name.
pub(crate) fn is_one_name(alloc: Global, word: &[u8]) -> Result<bool, Memory>
    ensures { IfOk result (λ is. IsTrue is ↔ IsOneName word.now) }
{
    match parted(alloc, word)? {
        Parting::Words(words) => Ok(words.len() == 1),
        _ => Ok(false),
    }
}
