//! The parts of a line.
use cases::cut;

/// What stands before the first semicolon with its blank, and behind it.
pub fn first_piece(text: &str) -> (&str, &str) {
    cut(text, "; ")
}

/// What stands between the quotes, where the text has them. They keep blanks at its ends in sight.
pub fn unquoted(text: &str) -> &str {
    match text.strip_prefix('"') {
        Some(inner) => inner.strip_suffix('"').unwrap_or(inner),
        None => text,
    }
}
