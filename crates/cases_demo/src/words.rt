//! The parts of a line.
use cases::CaseError;
use std::alloc::{AllocError, Global};

fn push_word(alloc: Global, words: &mut Vec<String>, text: &str) -> Result<(), CaseError> {
    let word = String::from_str(alloc, text)?;
    Ok(words.push(word)?)
}

/// The words of `WORD,WORD,..`, or none where the text is `-`.
pub fn words(alloc: Global, text: &str) -> Result<Vec<String>, CaseError> {
    let mut words = Vec::new(alloc);
    if text == "-" {
        return Ok(words);
    }
    for piece in text.split(',') {
        push_word(alloc, &mut words, piece)?;
    }
    Ok(words)
}

/// The script that a text says.
pub fn script(alloc: Global, text: &str) -> Result<String, AllocError> {
    let lines = text.replace(alloc, "\\n", "\n")?;
    lines.replace(alloc, "\\r", "\r")
}
