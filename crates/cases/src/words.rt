//! The parts of a line.
use crate::error::CaseError;
use std::alloc::{AllocError, Global};
use std::str::FromStr;

/// What stands before the first mark and behind it; the whole text and nothing where there is no mark.
pub fn cut<'a>(text: &'a str, mark: &str) -> (&'a str, &'a str) {
    match text.split_once(mark) {
        Some(parts) => parts,
        None => (text, ""),
    }
}

/// The first word of a text, and what stands behind the blank that ends it.
pub fn first_word(text: &str) -> (&str, &str) {
    cut(text, " ")
}

/// What stands before the first mark and behind it.
pub fn pair<'a>(text: &'a str, mark: &str) -> Result<(&'a str, &'a str), CaseError> {
    match text.split_once(mark) {
        Some(parts) => Ok(parts),
        None => Err(CaseError::Line),
    }
}

/// The value that std reads from a word.
pub fn parsed<V: FromStr>(word: &str) -> Result<V, CaseError>
where
    V::Err: Drop,
{
    match word.parse::<V>() {
        Ok(value) => Ok(value),
        Err(_) => Err(CaseError::Line),
    }
}

fn push_number(list: &mut Vec<u64>, word: &str) -> Result<(), CaseError> {
    let number = parsed::<u64>(word)?;
    Ok(list.push(number)?)
}

fn push_numbers(list: &mut Vec<u64>, text: &str) -> Result<(), CaseError> {
    for word in text.split(',') {
        push_number(list, word)?;
    }
    Ok(())
}

/// The numbers of `N,N,..`, or none where the text is `-`.
pub fn numbers(alloc: Global, text: &str) -> Result<Vec<u64>, CaseError> {
    let mut list = Vec::new(alloc);
    if text != "-" {
        push_numbers(&mut list, text)?;
    }
    Ok(list)
}

/// What stands between the quotes, where the text has them.
fn between_quotes(text: &str) -> Option<&str> {
    text.strip_prefix('"')?.strip_suffix('"')
}

/// The text, without the quotes that it may stand between to keep blanks at its ends in sight.
pub fn plain(text: &str) -> &str {
    between_quotes(text).unwrap_or(text)
}

/// Adds an item behind a comma, or as the first of a list.
pub fn push_item(list: &mut String, item: &str) -> Result<(), AllocError> {
    if !list.is_empty() {
        list.push_str(", ")?;
    }
    list.push_str(item)
}
