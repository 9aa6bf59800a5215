//! Cases of media types, content types and lists of accepted ones.
use crate::headers::push_line;
use cases::{CaseError, first_word, pair, written};
use rkt_base::{NoMemory, Want};
use rkt_http::{Accept, ContentType, InvalidMedia, Known, MediaType};
use std::alloc::Global;

/// Adds the fault of a text that is refused.
fn push_fault(error: Want<InvalidMedia>, out: &mut String) -> Result<(), CaseError> {
    match error {
        Want::Refused(fault) => written(write!(out, "{fault}")),
        Want::NoMemory => Err(CaseError::NoMemory),
    }
}

fn push_printed(alloc: Global, media: &MediaType, out: &mut String) -> Result<(), NoMemory> {
    let text = media.to_text(alloc)?;
    out.push_str(text.as_str())
}

/// Adds what a media type is printed as, as a copy has it.
fn push_copy(alloc: Global, media: &MediaType, out: &mut String) -> Result<(), NoMemory> {
    let copy = media.try_clone(alloc)?;
    push_printed(alloc, &copy, out)
}

fn push_parts(media: &MediaType, out: &mut String) -> Result<(), NoMemory> {
    let (top, sub, specificity) = (media.top(), media.sub(), media.specificity());
    write!(out, "{top:?} {sub:?} {specificity}")
}

/// Adds whether a text is read as this media type.
fn push_read_again(
    alloc: Global,
    media: &MediaType,
    text: &str,
    out: &mut String,
) -> Result<(), CaseError> {
    match MediaType::parse(alloc, text) {
        Ok(again) => written(write!(out, "{}", again == *media)),
        Err(error) => push_fault(error, out),
    }
}

/// Adds whether a media type that was printed is read as this one.
fn push_again(alloc: Global, media: &MediaType, out: &mut String) -> Result<(), CaseError> {
    let text = media.to_text(alloc)?;
    push_read_again(alloc, media, text.as_str(), out)
}

fn push_told(
    alloc: Global,
    command: &str,
    media: &MediaType,
    out: &mut String,
) -> Result<(), CaseError> {
    match command {
        "parts" => written(push_parts(media, out)),
        "again" => push_again(alloc, media, out),
        _ => written(push_copy(alloc, media, out)),
    }
}

/// Adds what a command answers of a media type.
pub fn push_media(
    alloc: Global,
    command: &str,
    text: &str,
    out: &mut String,
) -> Result<(), CaseError> {
    match MediaType::parse(alloc, text) {
        Ok(media) => push_told(alloc, command, &media, out),
        Err(error) => push_fault(error, out),
    }
}

fn push_content_header(
    alloc: Global,
    content: &ContentType,
    out: &mut String,
) -> Result<(), NoMemory> {
    let header = content.header(alloc)?;
    push_line(&header, out)
}

/// Adds the header of a content type, as a copy has it.
fn push_content_copy(
    alloc: Global,
    content: &ContentType,
    out: &mut String,
) -> Result<(), NoMemory> {
    let copy = content.try_clone(alloc)?;
    push_content_header(alloc, &copy, out)
}

fn push_kind(content: &ContentType, out: &mut String) -> Result<(), NoMemory> {
    let (json, form) = (content.media_type().is_json(), content.is_form());
    write!(out, "json={json} form={form}")
}

fn push_content_told(
    alloc: Global,
    command: &str,
    content: &ContentType,
    out: &mut String,
) -> Result<(), CaseError> {
    match command {
        "kind" => written(push_kind(content, out)),
        _ => written(push_content_copy(alloc, content, out)),
    }
}

/// Adds what a command answers of a content type.
pub fn push_content(
    alloc: Global,
    command: &str,
    text: &str,
    out: &mut String,
) -> Result<(), CaseError> {
    match ContentType::parse(alloc, text) {
        Ok(content) => push_content_told(alloc, command, &content, out),
        Err(error) => push_fault(error, out),
    }
}

const KNOWN: [(&str, Known); 11] = [
    ("Any", Known::Any),
    ("Plain", Known::Plain),
    ("Text", Known::Text),
    ("Binary", Known::Binary),
    ("JSON", Known::JSON),
    ("JavaScript", Known::JavaScript),
    ("MsgPack", Known::MsgPack),
    ("HTML", Known::HTML),
    ("CSS", Known::CSS),
    ("XML", Known::XML),
    ("Form", Known::Form),
];

fn known(text: &str) -> Option<Known> {
    for (name, known) in KNOWN {
        if name == text {
            return Some(known);
        }
    }
    None
}

fn push_known_header(alloc: Global, known: Known, out: &mut String) -> Result<(), NoMemory> {
    let header = ContentType::known_header(alloc, known)?;
    push_line(&header, out)
}

/// Adds the header of the content type with this name of its own.
pub fn push_known(alloc: Global, name: &str, out: &mut String) -> Result<(), CaseError> {
    match known(name) {
        Some(known) => written(push_known_header(alloc, known, out)),
        None => Err(CaseError::Line),
    }
}

/// Adds whether a text is a content type that is the same as this one.
fn push_equals(
    alloc: Global,
    content: &ContentType,
    text: &str,
    out: &mut String,
) -> Result<(), CaseError> {
    match ContentType::parse(alloc, text) {
        Ok(other) => written(write!(out, "{}", *content == other)),
        Err(error) => push_fault(error, out),
    }
}

fn push_is(alloc: Global, known: Known, text: &str, out: &mut String) -> Result<(), CaseError> {
    let content = ContentType::known(alloc, known)?;
    push_equals(alloc, &content, text, out)
}

/// Adds whether the content type of `NAME TEXT` is the one with this name.
pub fn push_is_known(alloc: Global, rest: &str, out: &mut String) -> Result<(), CaseError> {
    let (name, text) = first_word(rest);
    match known(name) {
        Some(known) => push_is(alloc, known, text, out),
        None => Err(CaseError::Line),
    }
}

/// Adds whether the two content types of `TEXT <=> OTHER` are the same.
pub fn push_equal(alloc: Global, rest: &str, out: &mut String) -> Result<(), CaseError> {
    let (one, other) = pair(rest, " <=> ")?;
    match ContentType::parse(alloc, one) {
        Ok(content) => push_equals(alloc, &content, other, out),
        Err(error) => push_fault(error, out),
    }
}

/// Adds what a list prefers, as a copy has it.
fn push_preferred(alloc: Global, accept: &Accept, out: &mut String) -> Result<(), NoMemory> {
    let copy = accept.try_clone(alloc)?;
    push_printed(alloc, copy.preferred(), out)
}

/// Adds the media type that a list prefers.
pub fn push_accept(alloc: Global, text: &str, out: &mut String) -> Result<(), CaseError> {
    match Accept::parse(alloc, text) {
        Ok(accept) => written(push_preferred(alloc, &accept, out)),
        Err(error) => push_fault(error, out),
    }
}
