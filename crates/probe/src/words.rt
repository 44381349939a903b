//! Words and numbers of a line, and answers as text.

use plain_lists::DiagFault;
use std::alloc::{AllocError, Global};

/// The words of a line.
pub fn words_of<'a>(alloc: Global, line: &'a str) -> Result<Vec<&'a str>, AllocError> {
    let mut words = Vec::new(alloc);
    for word in line.split_whitespace() {
        words.push(word)?;
    }
    Ok(words)
}

/// The words as numbers, which is `None` where one isn't a number.
pub fn numbers_of(alloc: Global, words: &[&str]) -> Result<Option<Vec<u32>>, AllocError> {
    let mut numbers = Vec::new(alloc);
    for word in words {
        match word.parse::<u32>() {
            Ok(number) => numbers.push(number)?,
            Err(_) => return Ok(None),
        }
    }
    Ok(Some(numbers))
}

/// What answers a line that is no call, or whose arguments don't meet the call's conditions.
pub fn unknown(alloc: Global) -> Result<String, AllocError> {
    String::from_str(alloc, "unknown")
}

/// A text where there is an answer, and else `unknown`.
pub fn answer_text(alloc: Global, known: bool, text: &str) -> Result<String, AllocError> {
    if known {
        String::from_str(alloc, text)
    } else {
        unknown(alloc)
    }
}

/// A number of a table, or why there is none.
pub fn number_text(alloc: Global, number: Result<u32, DiagFault>) -> Result<String, AllocError> {
    match number {
        Ok(n) => format!(in alloc; "{n}"),
        Err(DiagFault::Bound { nodes }) => format!(in alloc; "bound {nodes}"),
        Err(DiagFault::Memory) => String::from_str(alloc, "memory"),
    }
}
