//! The parts of a line.
use cases::{CaseError, first_word, parsed, plain};

/// A number and the text behind it.
pub fn numbered(rest: &str) -> Result<(usize, &str), CaseError> {
    let (word, text) = first_word(rest);
    Ok((parsed::<usize>(word)?, plain(text)))
}
