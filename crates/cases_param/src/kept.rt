//! Texts and paths, and what keeps the answer of another type, by the names of their types.
use crate::numbers::number_answer;
use crate::read::read_shown;
use cases::CaseError;
use rkt_uri::{PathBuf, PathError};
use std::alloc::Global;
use std::convert::Infallible;

/// Adds what a text gives as a value of a type.
pub fn param_answer(
    alloc: Global,
    name: &str,
    text: &str,
    out: &mut String,
) -> Result<(), CaseError> {
    match name {
        "String" => read_shown::<String>(alloc, text, out),
        "PathBuf" => read_shown::<PathBuf>(alloc, text, out),
        _ => option_answer(alloc, name, text, out),
    }
}

fn option_answer(alloc: Global, name: &str, text: &str, out: &mut String) -> Result<(), CaseError> {
    match name {
        "Option<u8>" => read_shown::<Option<u8>>(alloc, text, out),
        "Option<String>" => read_shown::<Option<String>>(alloc, text, out),
        "Option<PathBuf>" => read_shown::<Option<PathBuf>>(alloc, text, out),
        _ => result_answer(alloc, name, text, out),
    }
}

fn result_answer(alloc: Global, name: &str, text: &str, out: &mut String) -> Result<(), CaseError> {
    match name {
        "Result<u8>" => read_shown::<Result<u8, String>>(alloc, text, out),
        "Result<String>" => read_shown::<Result<String, Infallible>>(alloc, text, out),
        "Result<PathBuf>" => read_shown::<Result<PathBuf, PathError>>(alloc, text, out),
        _ => number_answer(alloc, name, text, out),
    }
}
