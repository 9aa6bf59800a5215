//! The parts of a line.
use cases::{CaseError, parsed};
use rkt_http::{MediaType, Method, Status};
use std::alloc::Global;
use std::str::FromStr;

pub fn method(text: &str) -> Result<Method, CaseError> {
    match Method::from_str(text) {
        Some(method) => Ok(method),
        None => Err(CaseError::Line),
    }
}

pub fn status(text: &str) -> Result<Status, CaseError> {
    Ok(Status::new(parsed::<u16>(text)?))
}

/// A code or a rank, or none for `any`.
pub fn parsed_or_any<N: FromStr>(text: &str) -> Result<Option<N>, CaseError>
where
    N::Err: Drop,
{
    if text == "any" {
        return Ok(None);
    }
    match parsed::<N>(text) {
        Ok(number) => Ok(Some(number)),
        Err(error) => Err(error),
    }
}

/// The media type of a text.
pub fn media_type(alloc: Global, text: &str) -> Result<MediaType, CaseError> {
    Ok(MediaType::parse(alloc, text)?)
}
