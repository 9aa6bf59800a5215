//! Lines that change the response at hand by its own calls.
use crate::header::{NameAndValue, header, named};
use crate::shape::{body_of, sized, source};
use crate::shown::Answer;
use crate::words::text_of;
use cases::{CaseError, first_word, parsed, written};
use rkt_base::NoMemory;
use rkt_http::Status;
use std::alloc::Global;

fn set_named(response: &mut Answer, named: &NameAndValue) -> Result<bool, NoMemory> {
    response.set_raw_header(named.name.as_str(), named.value.as_str())
}

/// Sets a header, or a name and a value, and answers whether there was one.
pub fn set_header(
    alloc: Global,
    response: &mut Answer,
    command: &str,
    text: &str,
) -> Result<bool, CaseError> {
    if command == "header" {
        let header = header(alloc, text)?;
        return Ok(response.set_header(header)?);
    }
    let named = named(alloc, text)?;
    Ok(set_named(response, &named)?)
}

fn adjoin(alloc: Global, response: &mut Answer, text: &str) -> Result<(), CaseError> {
    let header = header(alloc, text)?;
    written(response.adjoin_header(header))
}

fn adjoin_raw(alloc: Global, response: &mut Answer, text: &str) -> Result<(), CaseError> {
    let named = named(alloc, text)?;
    written(response.adjoin_raw_header(named.name.as_str(), named.value.as_str()))
}

fn remove(alloc: Global, response: &mut Answer, text: &str) -> Result<(), CaseError> {
    let name = text_of(alloc, text)?;
    response.remove_header(name.as_str());
    Ok(())
}

fn set_sized(alloc: Global, response: &mut Answer, text: &str) -> Result<(), CaseError> {
    let (bytes, shape) = sized(alloc, text)?;
    response.set_sized_body(shape.size, bytes);
    Ok(())
}

fn set_streamed(alloc: Global, response: &mut Answer, text: &str) -> Result<(), CaseError> {
    let stream = source(alloc, text)?;
    response.set_streamed_body(stream);
    Ok(())
}

/// Writes a body through the one that the response lends.
fn write_body(alloc: Global, response: &mut Answer, text: &str) -> Result<(), CaseError> {
    let (kind, rest) = first_word(text);
    let body = body_of(alloc, kind, rest)?;
    *response.body_mut() = body;
    Ok(())
}

/// Changes the headers.
fn change_headers(
    alloc: Global,
    response: &mut Answer,
    command: &str,
    text: &str,
) -> Result<(), CaseError> {
    match command {
        "adjoin" => adjoin(alloc, response, text),
        "adjoin_raw" => adjoin_raw(alloc, response, text),
        "remove" => remove(alloc, response, text),
        _ => Err(CaseError::Line),
    }
}

/// Changes the body, or the headers.
fn change_body(
    alloc: Global,
    response: &mut Answer,
    command: &str,
    text: &str,
) -> Result<(), CaseError> {
    match command {
        "sized" => set_sized(alloc, response, text),
        "streamed" => set_streamed(alloc, response, text),
        "body" => write_body(alloc, response, text),
        _ => change_headers(alloc, response, command, text),
    }
}

/// Changes a response.
pub fn change(
    alloc: Global,
    response: &mut Answer,
    command: &str,
    text: &str,
) -> Result<(), CaseError> {
    match command {
        "status" => response.set_status(Status::new(parsed::<u16>(text)?)),
        "chunk" => response.set_max_chunk_size(parsed::<usize>(text)?),
        "strip" => response.strip_body(),
        _ => return change_body(alloc, response, command, text),
    }
    Ok(())
}
