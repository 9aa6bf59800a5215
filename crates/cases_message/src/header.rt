//! Headers, as lines say them.
use crate::words::text_of;
use cases::{CaseError, pair};
use rkt_http::Header;
use std::alloc::Global;

/// A name and a value.
#[derive(Drop)]
pub struct NameAndValue {
    pub name: String,
    pub value: String,
}

/// The name and the value of `NAME=VALUE`.
pub fn named(alloc: Global, text: &str) -> Result<NameAndValue, CaseError> {
    let (name, value) = pair(text, "=")?;
    Ok(NameAndValue {
        name: text_of(alloc, name)?,
        value: text_of(alloc, value)?,
    })
}

/// The header of `NAME=VALUE`.
pub fn header(alloc: Global, text: &str) -> Result<Header, CaseError> {
    let named = named(alloc, text)?;
    Ok(Header::new(alloc, named.name.as_str(), named.value.as_str())?)
}
