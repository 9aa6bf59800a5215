//! A responder of a content type that the line names.
use crate::inner::inner;
use crate::shown::{Asked, respond};
use cases::{CaseError, first_word};
use rkt_http::{ContentType, Known};
use std::alloc::Global;

/// The content type of a word, or that is read from it.
fn content_type(alloc: Global, name: &str) -> Result<ContentType, CaseError> {
    if name == "XML" {
        return Ok(ContentType::known(alloc, Known::XML)?);
    }
    Ok(ContentType::parse(alloc, name)?)
}

/// Adds what `TYPE INNER` answers.
pub fn typed(
    alloc: Global,
    request: &Asked<'_>,
    line: &str,
    out: &mut String,
) -> Result<(), CaseError> {
    let (name, rest) = first_word(line);
    let kind = content_type(alloc, name)?;
    respond(alloc, request, (kind, inner(rest)), out)
}
