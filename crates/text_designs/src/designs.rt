//! The design that texts make.
ghost use Rattle.std.specs.Prelude.{IfErr, IfOk};
ghost use Rattle.text_designs.specs.Texts.{AreReadModels, IsDesignOfTexts, IsFaultOfTexts};

use crate::faults::{TextFault, text_of_fault};
use crate::libraries::cells_of_texts;
use crate::netlists::modules_of_texts;
use design_rows::Design;
use net_design::elaborate;
use pw_defs::{Bytes, List, Model};
use std::alloc::Global;

/// The design that libraries and netlists make below the top of this name, where models stand for modules.
///
/// Errors: the first fault of the libraries, then of the netlists, then of the design that they make, with the number of
/// the text that it is told of; or want of memory.
pub fn design_of_texts(
    alloc: Global,
    libraries: &List<Bytes>,
    netlists: &List<Bytes>,
    models: List<Model>,
    top: &[u8],
) -> Result<Design, TextFault>
    requires { AreReadModels models }
    ensures ok { IfOk result (IsDesignOfTexts libraries.now netlists.now models top.now) }
    ensures cause { IfErr result (IsFaultOfTexts libraries.now netlists.now models top.now) }
{
    let cells = cells_of_texts(alloc, libraries)?;
    let read = modules_of_texts(alloc, netlists)?;
    match elaborate(alloc, &read.modules, cells, models, top) {
        Ok(design) => Ok(design),
        Err(fault) => {
            let text = text_of_fault(&read.counts, &fault);
            Err(TextFault::Design { text, fault })
        }
    }
}
