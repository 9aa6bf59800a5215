//! Responders that are made of more than another responder.
use crate::around::around;
use crate::content::typed;
use crate::inner::inner;
use crate::redirect::made_redirect;
use crate::shown::{Asked, respond, respond_made};
use cases::{CaseError, first_word, parsed, written};
use rkt_http::Status;
use rkt_response::Debug;
use rkt_response::responder::status::{Accepted, Created, Custom};
use std::alloc::Global;

/// The status of a code, and the text behind it.
fn status_and_rest(line: &str) -> Result<(Status, &str), CaseError> {
    let (code, rest) = first_word(line);
    Ok((Status::new(parsed::<u16>(code)?), rest))
}

fn custom(
    alloc: Global,
    request: &Asked<'_>,
    line: &str,
    out: &mut String,
) -> Result<(), CaseError> {
    let (status, rest) = status_and_rest(line)?;
    respond(alloc, request, Custom(status, inner(rest)), out)
}

fn pair(alloc: Global, request: &Asked<'_>, line: &str, out: &mut String) -> Result<(), CaseError> {
    let (status, rest) = status_and_rest(line)?;
    respond(alloc, request, (status, inner(rest)), out)
}

fn created(
    alloc: Global,
    request: &Asked<'_>,
    place: &str,
    out: &mut String,
) -> Result<(), CaseError> {
    respond_made(alloc, request, Created::<&str>::new(alloc, place), out)
}

fn created_with(
    alloc: Global,
    request: &Asked<'_>,
    line: &str,
    out: &mut String,
) -> Result<(), CaseError> {
    let (place, rest) = first_word(line);
    let created = Created::new(alloc, place)?;
    respond(alloc, request, created.body(inner(rest)), out)
}

/// Adds whether two of the same status are equal.
fn same(line: &str, out: &mut String) -> Result<(), CaseError> {
    let (one, other) = first_word(line);
    let one = Accepted(parsed::<u16>(one)?);
    let other = Accepted(parsed::<u16>(other)?);
    let equal = one == other;
    written(write!(out, "{equal}"))
}

fn debug(
    alloc: Global,
    request: &Asked<'_>,
    text: &str,
    out: &mut String,
) -> Result<(), CaseError> {
    let number = parsed::<u16>(text)?;
    respond(alloc, request, Debug::from(number), out)
}

/// Adds what a redirect answers, or what stands around another responder.
fn led(
    alloc: Global,
    request: &Asked<'_>,
    command: &str,
    rest: &str,
    out: &mut String,
) -> Result<(), CaseError> {
    match made_redirect(alloc, command, rest) {
        Some(made) => respond_made(alloc, request, made, out),
        None => around(alloc, request, command, inner(rest), out),
    }
}

fn said(
    alloc: Global,
    request: &Asked<'_>,
    command: &str,
    rest: &str,
    out: &mut String,
) -> Result<(), CaseError> {
    match command {
        "typed" => typed(alloc, request, rest, out),
        "debug" => debug(alloc, request, rest, out),
        "same" => same(rest, out),
        _ => led(alloc, request, command, rest, out),
    }
}

/// Adds what a responder answers that is made of more than another.
pub fn push_made(
    alloc: Global,
    request: &Asked<'_>,
    command: &str,
    rest: &str,
    out: &mut String,
) -> Result<(), CaseError> {
    match command {
        "custom" => custom(alloc, request, rest, out),
        "pair" => pair(alloc, request, rest, out),
        "created" => created(alloc, request, rest, out),
        "created_with" => created_with(alloc, request, rest, out),
        _ => said(alloc, request, command, rest, out),
    }
}
