//! The parts of a line.
use std::alloc::{AllocError, Global};

/// The text with a line feed in place of each `\n`.
pub fn unescaped(alloc: Global, text: &str) -> Result<String, AllocError> {
    text.replace(alloc, "\\n", "\n")
}
