//! Texts as words of a call, and names and refusals in an answer.

use hex::{FromHexError, decode};
use pw_defs::At;
use std::alloc::{AllocError, Global};

/// The bytes of a text, which is written as `x` and two hexadecimal digits for each byte.
pub fn text_of(alloc: Global, word: &str) -> Result<Option<Vec<u8>>, AllocError> {
    let Some(digits) = word.strip_prefix("x") else {
        return Ok(None);
    };
    match decode(alloc, digits.as_bytes()) {
        Ok(text) => Ok(Some(text)),
        Err(FromHexError::OutOfMemory) => Err(AllocError),
        Err(_) => Ok(None),
    }
}

/// The bytes of all texts, which is `None` where a word isn't a text.
pub fn texts_of(alloc: Global, words: &[&str]) -> Result<Option<Vec<Vec<u8>>>, AllocError> {
    let mut texts = Vec::new(alloc);
    for word in words {
        match text_of(alloc, *word)? {
            Some(text) => texts.push(text)?,
            None => return Ok(None),
        }
    }
    Ok(Some(texts))
}

/// Appends a name. Bytes that aren't printed, and `~`, are `~` with two hexadecimal digits.
pub fn put_name(alloc: Global, out: &mut String, name: &[u8]) -> Result<(), AllocError> {
    for byte in name {
        match *byte {
            0x21..=0x7D => out.push(*byte as char)?,
            other => out.push_str(format!(in alloc; "~{other:02X}")?.as_str())?,
        }
    }
    Ok(())
}

/// A refusal by its code: the line, the name, and the number of the text where there is one.
pub fn refused(
    alloc: Global,
    code: &str,
    at: &At,
    text: Option<u32>,
) -> Result<String, AllocError> {
    let line = at.line;
    let mut out = format!(in alloc; "{code} {line} ")?;
    put_name(alloc, &mut out, at.name.as_slice())?;
    if let Some(number) = text {
        out.push_str(format!(in alloc; " {number}")?.as_str())?;
    }
    Ok(out)
}
