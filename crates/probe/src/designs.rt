//! Designs of libraries, netlists and models as text.

use crate::model_forms::are_read;
use crate::models::model_of;
use crate::texts::{put_name, text_of};
use crate::words::{answer_text, unknown};
use pw_defs::{AtModule, Bytes, DesignFault, List, Memory, Model};
use std::alloc::{AllocError, Global};
use text_designs::{TextFault, design_of_texts};

/// The texts of a design and its models, each kind in the order of its words.
#[derive(Drop)]
struct Texts {
    libraries: List<Bytes>,
    netlists: List<Bytes>,
    models: List<Model>,
}

impl Texts {
    /// Adds a text by the word for its kind: whether there is such a kind, and a model is one.
    fn add(&mut self, alloc: Global, kind: &str, text: Bytes) -> Result<bool, AllocError> {
        match kind {
            "library" => self.libraries.push(text)?,
            "netlist" => self.netlists.push(text)?,
            "model" => return self.add_model(alloc, text.as_slice()),
            _ => return Ok(false),
        }
        Ok(true)
    }

    /// Adds a model: whether the text writes one.
    fn add_model(&mut self, alloc: Global, text: &[u8]) -> Result<bool, AllocError> {
        match model_of(alloc, text) {
            Ok(Some(model)) => {
                self.models.push(model)?;
                Ok(true)
            }
            Ok(None) => Ok(false),
            Err(Memory) => Err(AllocError),
        }
    }

    /// Adds a text as its words say it: whether these are right.
    fn add_words(&mut self, alloc: Global, kind: &str, word: &str) -> Result<bool, AllocError> {
        let Some(bytes) = text_of(alloc, word)? else {
            return Ok(false);
        };
        match Bytes::from_vec(bytes) {
            Some(text) => self.add(alloc, kind, text),
            None => Ok(false),
        }
    }
}

/// The texts that words say, a kind and a text each, which is `None` where they say no texts.
fn texts_in(alloc: Global, words: &[&str]) -> Result<Option<Texts>, AllocError> {
    let mut texts = Texts {
        libraries: List::new(alloc),
        netlists: List::new(alloc),
        models: List::new(alloc),
    };
    let mut kind = None;
    for word in words {
        match kind {
            None => kind = Some(*word),
            Some(of) => {
                if !texts.add_words(alloc, of, *word)? {
                    return Ok(None);
                }
                kind = None;
            }
        }
    }
    if kind.is_some() {
        return Ok(None);
    }
    Ok(Some(texts))
}

/// How many instances and bits the design of libraries and netlists below a top has, where models stand for modules, or its first
/// fault. Words that say no texts are unknown, and so are models that aren't well-formed and two of one module.
pub fn design_text(alloc: Global, words: &[&str]) -> Result<String, AllocError> {
    let Some((top, rest)) = words.split_first() else {
        return unknown(alloc);
    };
    let Some(top) = text_of(alloc, *top)? else {
        return unknown(alloc);
    };
    match texts_in(alloc, rest)? {
        Some(texts) => answer_of(alloc, texts, top.as_slice()),
        None => unknown(alloc),
    }
}

/// The answer to texts and a top.
fn answer_of(alloc: Global, texts: Texts, top: &[u8]) -> Result<String, AllocError> {
    let Texts {
        libraries,
        netlists,
        models,
    } = texts;
    let Ok(right) = are_read(alloc, &models) else {
        return Err(AllocError);
    };
    if !right {
        return unknown(alloc);
    }
    match design_of_texts(alloc, &libraries, &netlists, models, top) {
        Ok(design) => {
            let insts = design.len_insts();
            let bits = design.len_bits();
            format!(in alloc; "ok {insts} {bits}")
        }
        Err(TextFault::Library { text, fault }) => crate::libraries::fault_text(
            alloc,
            &fault,
            Some(text),
        ),
        Err(TextFault::Netlist { text, fault }) => crate::netlists::fault_text(
            alloc,
            &fault,
            Some(text),
        ),
        Err(TextFault::Design { text, fault }) => fault_text(alloc, &fault, text),
    }
}

/// The code of a fault of a design, its line, the name that is refused, and the numbers of its module and of its netlist.
fn fault_text(alloc: Global, fault: &DesignFault, netlist: u32) -> Result<String, AllocError> {
    let (code, at) = match fault {
        DesignFault::N5(at) => ("N5", at),
        DesignFault::N6(at) => ("N6", at),
        DesignFault::N7(at) => ("N7", at),
        DesignFault::N8(at) => ("N8", at),
        DesignFault::N9(at) => ("N9", at),
        DesignFault::N10(at) => ("N10", at),
        DesignFault::N11(at) => ("N11", at),
        DesignFault::N12(at) => ("N12", at),
        DesignFault::M5(at) => ("M5", at),
        DesignFault::X1(at) => ("X1", at),
        DesignFault::Memory => return answer_text(alloc, true, "memory"),
    };
    refused_in(alloc, code, at, netlist)
}

/// A refusal by its code: the line, the name, the module and the netlist.
fn refused_in(
    alloc: Global,
    code: &str,
    at: &AtModule,
    netlist: u32,
) -> Result<String, AllocError> {
    let line = at.line;
    let module = at.module;
    let mut text = format!(in alloc; "{code} {line} ")?;
    put_name(alloc, &mut text, at.name.as_slice())?;
    text.push_str(format!(in alloc; " {module} {netlist}")?.as_str())?;
    Ok(text)
}
