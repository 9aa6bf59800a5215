//! The parts of a line.
use cases::{CaseError, first_word, parsed};
use rkt_base::NoMemory;
use std::alloc::Global;

/// A word, and the number behind it.
pub fn numbered(text: &str) -> Result<(&str, u64), CaseError> {
    let (word, rest) = first_word(text);
    Ok((word, parsed::<u64>(rest)?))
}

/// The text in which `\n` and `\t` stand for a line feed and a tab.
pub fn unescaped(alloc: Global, text: &str) -> Result<String, NoMemory> {
    let text = text.replace(alloc, "\\n", "\n")?;
    text.as_str().replace(alloc, "\\t", "\t")
}
