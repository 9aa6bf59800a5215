//! The parts of a line.
use cases::{CaseError, first_word, pair, parsed};

/// A number, and what stands behind the blank that ends it.
pub fn number_cut(text: &str) -> Result<(u32, &str), CaseError> {
    let (word, rest) = first_word(text);
    Ok((parsed::<u32>(word)?, rest))
}

/// The name and the value of a header, which a colon parts, and maybe a blank.
pub fn named(text: &str) -> Result<(&str, &str), CaseError> {
    let (name, value) = pair(text, ":")?;
    Ok((name, value.strip_prefix(' ').unwrap_or(value)))
}
