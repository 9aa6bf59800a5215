//! Texts, bytes and sources.
use crate::shown::{Asked, respond, respond_made};
use cases::{CaseError, first_word};
use rkt_base::NoMemory;
use rkt_data::MemorySource;
use rkt_response::responder::stream::{ByteStream, TextStream};
use std::alloc::Global;
use std::borrow::{CowSlice, CowStr};
use std::boxed::{BoxedSlice, BoxedStr};
use std::sync::{ArcSlice, ArcStr};

fn owned_text(alloc: Global, text: &str) -> Result<CowStr<'_>, NoMemory> {
    let owned = String::from_str(alloc, text)?;
    Ok(CowStr::Owned(owned))
}

/// Adds what a text of some kind answers.
pub fn text(
    alloc: Global,
    request: &Asked<'_>,
    line: &str,
    out: &mut String,
) -> Result<(), CaseError> {
    let (kind, text) = first_word(line);
    match kind {
        "str" => respond(alloc, request, text, out),
        "string" => respond_made(alloc, request, String::from_str(alloc, text), out),
        "boxed" => respond_made(alloc, request, BoxedStr::from_str(alloc, text), out),
        "arc" => respond_made(alloc, request, ArcStr::from_str(alloc, text), out),
        "cow" => respond::<CowStr<'_>>(alloc, request, CowStr::Borrowed(text), out),
        "owned_cow" => respond_made(alloc, request, owned_text(alloc, text), out),
        _ => Err(CaseError::Line),
    }
}

fn owned_bytes(alloc: Global, bytes: &[u8]) -> Result<CowSlice<'_, u8>, NoMemory> {
    let owned = bytes.to_vec(alloc)?;
    Ok(CowSlice::Owned(owned))
}

/// Adds what bytes of some kind answer.
pub fn bytes(
    alloc: Global,
    request: &Asked<'_>,
    line: &str,
    out: &mut String,
) -> Result<(), CaseError> {
    let (kind, text) = first_word(line);
    let bytes = text.as_bytes();
    match kind {
        "slice" => respond(alloc, request, bytes, out),
        "vec" => respond_made(alloc, request, bytes.to_vec(alloc), out),
        "boxed" => respond_made(alloc, request, BoxedSlice::from_slice(alloc, bytes), out),
        "arc" => respond_made(alloc, request, ArcSlice::from_slice(alloc, bytes), out),
        "cow" => respond::<CowSlice<'_, u8>>(alloc, request, CowSlice::Borrowed(bytes), out),
        "owned_cow" => respond_made(alloc, request, owned_bytes(alloc, bytes), out),
        _ => Err(CaseError::Line),
    }
}

/// A source that gives two bytes at a time.
pub fn source(alloc: Global, text: &str) -> Result<MemorySource, NoMemory> {
    let bytes = text.as_bytes().to_vec(alloc)?;
    Ok(MemorySource::new(bytes, 2, Vec::new(alloc)))
}

/// Adds what a source answers as bytes.
pub fn byte_stream(
    alloc: Global,
    request: &Asked<'_>,
    text: &str,
    out: &mut String,
) -> Result<(), CaseError> {
    let made = source(alloc, text).map(ByteStream::from);
    respond_made(alloc, request, made, out)
}

/// Adds what a source answers as a text.
pub fn text_stream(
    alloc: Global,
    request: &Asked<'_>,
    text: &str,
    out: &mut String,
) -> Result<(), CaseError> {
    let made = source(alloc, text).map(TextStream::from);
    respond_made(alloc, request, made, out)
}
