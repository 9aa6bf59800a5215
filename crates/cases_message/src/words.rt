//! The parts of a line.
use cases::{CaseError, cut};
use percent_encoding::percent_decode;
use rkt_base::NoMemory;
use std::alloc::Global;

/// What stands before the first semicolon with its blank, and behind it.
pub fn first_piece(text: &str) -> (&str, &str) {
    cut(text, "; ")
}

/// The bytes of a text, in which `%XX` stands for a byte.
pub fn bytes_of(alloc: Global, text: &str) -> Result<Vec<u8>, NoMemory> {
    let mut bytes = Vec::new(alloc);
    percent_decode(text.as_bytes()).append_to(&mut bytes)?;
    Ok(bytes)
}

/// The same as a text.
pub fn text_of(alloc: Global, text: &str) -> Result<String, CaseError> {
    match String::from_utf8(bytes_of(alloc, text)?) {
        Ok(text) => Ok(text),
        Err(_) => Err(CaseError::Line),
    }
}
