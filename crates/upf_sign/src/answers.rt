//! What is answered of the texts of a library, a netlist and a script with the name of a top.
ghost use Rattle.std.specs.Prelude.{◌≡◌, IfOk};
ghost use Rattle.upf_sign.specs.Answers.{IsAnswer};

use crate::judging::judge;
use crate::loading::load;
use form_intent::intents_are_sound;
use pw_defs::{Bytes, Memory};
use std::alloc::Global;

/// What a job deserves.
#[derive(Drop)]
pub enum Answer {
    /// The whole text of the report. It is clean where there are no findings.
    Report { text: Bytes, clean: bool },
    /// The files aren't of the form that is read.
    OtherForm,
    /// No state of the supplies is legal.
    NoLegal,
    /// The supplies have more than 65,536 states.
    Bound,
}

/// The answer to the texts of a library, a netlist and a script, for the module of this name.
///
/// `Memory`, for want of memory, is the one answer that no clause limits.
pub fn sign_off(
    alloc: Global,
    library: &[u8],
    netlist: &[u8],
    script: &[u8],
    top: &[u8],
) -> Result<Answer, Memory>
    ensures { IfOk result (λ answer. IsAnswer library.now netlist.now script.now top.now answer) }
{
    match load(alloc, library, netlist, script, top)? {
        Some(loaded) => {
            intents_are_sound();
            judge(alloc, &loaded.design, &loaded.intent)
        }
        None => Ok(Answer::OtherForm),
    }
}
