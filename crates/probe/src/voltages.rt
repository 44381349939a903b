//! Calls on voltages as they are written and printed.

use crate::words::{numbers_of, unknown};
use pw_defs::{Bytes, VoltFault};
use pw_lex::{read_volts, volts_text};
use std::alloc::{AllocError, Global};

/// The microvolts of a text, or why it is no voltage.
pub fn read_text(alloc: Global, arguments: &[&str]) -> Result<String, AllocError> {
    match arguments {
        [text] => match read_volts((*text).as_bytes()) {
            Ok(microvolts) => format!(in alloc; "{microvolts}"),
            Err(VoltFault::Form) => String::from_str(alloc, "form"),
            Err(VoltFault::Range) => String::from_str(alloc, "range"),
        },
        _ => unknown(alloc),
    }
}

/// Microvolts as they are printed.
pub fn printed_text(alloc: Global, arguments: &[&str]) -> Result<String, AllocError> {
    let Some(numbers) = numbers_of(alloc, arguments)? else {
        return unknown(alloc);
    };
    let [microvolts] = numbers.as_slice() else {
        return unknown(alloc);
    };
    let mut text = Bytes::new(alloc);
    match volts_text(*microvolts, &mut text) {
        Ok(()) => match std::str::from_utf8(text.as_slice()) {
            Ok(text) => String::from_str(alloc, text),
            Err(_) => unknown(alloc),
        },
        Err(_) => String::from_str(alloc, "memory"),
    }
}
