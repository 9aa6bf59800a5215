//! Lines that change the response at hand by a builder over it.
use crate::header::{header, named};
use crate::shape::{sized, source};
use crate::shown::Answer;
use crate::stalling::Stalling;
use cases::{CaseError, first_word, parsed, written};
use rkt_http::Status;
use rkt_message::Builder;
use std::alloc::Global;

type Build = Builder<Stalling>;

fn build_header(alloc: Global, builder: &mut Build, text: &str) -> Result<(), CaseError> {
    let header = header(alloc, text)?;
    written(builder.header(header))
}

fn build_raw_header(alloc: Global, builder: &mut Build, text: &str) -> Result<(), CaseError> {
    let named = named(alloc, text)?;
    written(builder.raw_header(named.name.as_str(), named.value.as_str()))
}

fn build_adjoined(alloc: Global, builder: &mut Build, text: &str) -> Result<(), CaseError> {
    let header = header(alloc, text)?;
    written(builder.header_adjoin(header))
}

fn build_raw_adjoined(alloc: Global, builder: &mut Build, text: &str) -> Result<(), CaseError> {
    let named = named(alloc, text)?;
    written(builder.raw_header_adjoin(named.name.as_str(), named.value.as_str()))
}

/// Sets status 201, body and size of chunks in one row of calls.
fn build_row(alloc: Global, builder: &mut Build, text: &str) -> Result<(), CaseError> {
    let (bytes, shape) = sized(alloc, text)?;
    builder
        .status(Status::Created)
        .sized_body(shape.size, bytes)
        .max_chunk_size(shape.chunk);
    Ok(())
}

fn build_sized(alloc: Global, builder: &mut Build, text: &str) -> Result<(), CaseError> {
    let (bytes, shape) = sized(alloc, text)?;
    builder.sized_body(shape.size, bytes);
    Ok(())
}

fn build_streamed(alloc: Global, builder: &mut Build, text: &str) -> Result<(), CaseError> {
    let stream = source(alloc, text)?;
    builder.streamed_body(stream);
    Ok(())
}

fn build_headers(
    alloc: Global,
    builder: &mut Build,
    command: &str,
    text: &str,
) -> Result<(), CaseError> {
    match command {
        "header" => build_header(alloc, builder, text),
        "raw_header" => build_raw_header(alloc, builder, text),
        "adjoin" => build_adjoined(alloc, builder, text),
        "adjoin_raw" => build_raw_adjoined(alloc, builder, text),
        _ => Err(CaseError::Line),
    }
}

fn build_body(
    alloc: Global,
    builder: &mut Build,
    command: &str,
    text: &str,
) -> Result<(), CaseError> {
    match command {
        "sized" => build_sized(alloc, builder, text),
        "streamed" => build_streamed(alloc, builder, text),
        "row" => build_row(alloc, builder, text),
        _ => build_headers(alloc, builder, command, text),
    }
}

/// Takes over what was put aside.
fn build_over(
    alloc: Global,
    builder: &mut Build,
    other: &mut Answer,
    command: &str,
) -> Result<(), CaseError> {
    let other = std::mem::replace(other, Answer::new(alloc));
    match command {
        "merge" => written(builder.merge(other)),
        _ => written(builder.join(other)),
    }
}

fn build_status(builder: &mut Build, code: Result<u16, CaseError>) -> Result<(), CaseError> {
    builder.status(Status::new(code?));
    Ok(())
}

fn build_chunk(builder: &mut Build, size: Result<usize, CaseError>) -> Result<(), CaseError> {
    builder.max_chunk_size(size?);
    Ok(())
}

fn end_first(builder: &mut Build) -> Result<(), CaseError> {
    builder.finalize();
    Ok(())
}

/// Sets the status or the size of chunks, or ends the builder a first time.
fn build_value(builder: &mut Build, command: &str, text: &str) -> Result<(), CaseError> {
    match command {
        "status" => build_status(builder, parsed::<u16>(text)),
        "chunk" => build_chunk(builder, parsed::<usize>(text)),
        _ => end_first(builder),
    }
}

/// Does what a line says to a builder; `other` is the response that was put aside.
fn build_on(
    alloc: Global,
    builder: &mut Build,
    other: &mut Answer,
    command: &str,
    text: &str,
) -> Result<(), CaseError> {
    match command {
        "status" | "chunk" | "twice" => build_value(builder, command, text),
        "merge" | "join" => build_over(alloc, builder, other, command),
        _ => build_body(alloc, builder, command, text),
    }
}

/// Changes a response by a builder over it.
fn build_so(
    alloc: Global,
    response: &mut Answer,
    other: &mut Answer,
    command: &str,
    text: &str,
) -> Result<(), CaseError> {
    let base = std::mem::replace(response, Answer::default(alloc));
    let mut builder = Answer::build_from(base);
    let built = build_on(alloc, &mut builder, other, command, text);
    *response = builder.finalize();
    built
}

/// What a builder gives that is ended by `ok`.
fn ended_by_ok(mut builder: Build) -> Result<Answer, CaseError> {
    builder.ok()
}

fn end_by_ok(alloc: Global, response: &mut Answer) -> Result<(), CaseError> {
    let base = std::mem::replace(response, Answer::default(alloc));
    *response = ended_by_ok(Builder::new(base))?;
    Ok(())
}

/// Begins with what a builder gives that was told nothing.
fn begin_anew(alloc: Global, response: &mut Answer) {
    *response = Answer::build(alloc).finalize();
}

/// Changes a response by a builder over it, or begins with what one gives over nothing.
pub fn build(
    alloc: Global,
    response: &mut Answer,
    other: &mut Answer,
    line: &str,
) -> Result<(), CaseError> {
    let (command, text) = first_word(line);
    match command {
        "new" => {
            begin_anew(alloc, response);
            Ok(())
        }
        "ok" => end_by_ok(alloc, response),
        _ => build_so(alloc, response, other, command, text),
    }
}
