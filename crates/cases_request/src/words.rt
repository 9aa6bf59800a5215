//! The parts of a line.
use cases::{CaseError, cut, pair, written};
use std::alloc::Global;

/// What stands before the first bar.
pub fn first_piece(text: &str) -> &str {
    cut(text, " | ").0
}

/// The name and the value of `NAME: VALUE`.
pub fn field(text: &str) -> Result<(&str, &str), CaseError> {
    let (name, value) = pair(text, ":")?;
    Ok((name, value.strip_prefix(' ').unwrap_or(value)))
}

/// The byte of two hexadecimal digits, and what stands behind them.
fn escaped(text: &str) -> Result<(u8, &str), CaseError> {
    let Some((digits, rest)) = text.split_at_checked(2) else {
        return Err(CaseError::Line);
    };
    match u8::from_str_radix(digits, 16) {
        Ok(byte) => Ok((byte, rest)),
        Err(_) => Err(CaseError::Line),
    }
}

/// Adds what stands behind a backslash.
fn push_escaped(bytes: &mut Vec<u8>, piece: &str) -> Result<(), CaseError> {
    let (byte, rest) = escaped(piece)?;
    bytes.push(byte)?;
    written(bytes.extend_from_slice(rest.as_bytes()))
}

fn push_all_escaped(bytes: &mut Vec<u8>, text: &str) -> Result<(), CaseError> {
    for piece in text.split('\\').skip(1) {
        push_escaped(bytes, piece)?;
    }
    Ok(())
}

/// The bytes of a text with escapes.
pub fn unescaped(alloc: Global, text: &str) -> Result<Vec<u8>, CaseError> {
    let mut bytes = cut(text, "\\").0.as_bytes().to_vec(alloc)?;
    push_all_escaped(&mut bytes, text)?;
    Ok(bytes)
}
