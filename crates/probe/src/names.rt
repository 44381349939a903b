//! Calls on an index of names.

use crate::words::unknown;
use name_index::NameIndex;
use std::alloc::{AllocError, Global};

/// The number of a name, which is put in where it isn't there yet.
pub fn number_text(
    alloc: Global,
    names: &mut NameIndex,
    arguments: &[&str],
) -> Result<String, AllocError> {
    match arguments {
        [name] => {
            let number = names.number((*name).as_bytes())?;
            format!(in alloc; "{number}")
        }
        _ => unknown(alloc),
    }
}
