//! Responders around another.
use crate::shown::{Asked, respond};
use cases::CaseError;
use either::{Either, Left, Right};
use rkt_data::{Capped, SourceError};
use rkt_http::Status;
use rkt_response::Responder;
use rkt_response::responder::content::{
    RawCss, RawHtml, RawJavaScript, RawJson, RawMsgPack, RawText, RawXml,
};
use rkt_response::responder::status::{
    Accepted, BadRequest, Conflict, Forbidden, NoContent, NotFound, Unauthorized,
};
use sample_app::Sample;
use std::alloc::Global;

fn boxed<H: Responder<Sample> + Drop>(
    alloc: Global,
    request: &Asked<'_>,
    held: H,
    out: &mut String,
) -> Result<(), CaseError> {
    match Box::new(alloc, held) {
        Ok(value) => respond(alloc, request, value, out),
        Err(_) => Err(CaseError::NoMemory),
    }
}

/// Adds what an error answers, which is around none.
fn of_error(
    alloc: Global,
    request: &Asked<'_>,
    command: &str,
    out: &mut String,
) -> Result<(), CaseError> {
    match command {
        "none" => respond(alloc, request, None::<Status>, out),
        "fault" => respond(alloc, request, SourceError::SourceFault, out),
        "gone" => respond(alloc, request, SourceError::Gone, out),
        "timed_out" => respond(alloc, request, SourceError::TimedOut, out),
        _ => Err(CaseError::Line),
    }
}

fn in_either<H: Responder<Sample> + Drop>(
    alloc: Global,
    request: &Asked<'_>,
    command: &str,
    held: H,
    out: &mut String,
) -> Result<(), CaseError> {
    match command {
        "left" => respond::<Either<H, ()>>(alloc, request, Left(held), out),
        "right" => respond::<Either<(), H>>(alloc, request, Right(held), out),
        "box" => boxed(alloc, request, held, out),
        "capped" => respond(alloc, request, Capped::complete(held, 0), out),
        _ => of_error(alloc, request, command, out),
    }
}

fn in_std<H: Responder<Sample> + Drop>(
    alloc: Global,
    request: &Asked<'_>,
    command: &str,
    held: H,
    out: &mut String,
) -> Result<(), CaseError> {
    match command {
        "some" => respond(alloc, request, Some(held), out),
        "ok" => respond::<Result<H, ()>>(alloc, request, Ok(held), out),
        "error" => respond::<Result<(), H>>(alloc, request, Err(held), out),
        _ => in_either(alloc, request, command, held, out),
    }
}

/// Adds what a responder of a page's content type answers.
fn page<H: Responder<Sample> + Drop>(
    alloc: Global,
    request: &Asked<'_>,
    command: &str,
    held: H,
    out: &mut String,
) -> Result<(), CaseError> {
    match command {
        "html" => respond(alloc, request, RawHtml(held), out),
        "html_accepted" => respond(alloc, request, RawHtml(Accepted(held)), out),
        "css" => respond(alloc, request, RawCss(held), out),
        "javascript" => respond(alloc, request, RawJavaScript(held), out),
        _ => in_std(alloc, request, command, held, out),
    }
}

/// Adds what a responder of another content type answers.
fn data<H: Responder<Sample> + Drop>(
    alloc: Global,
    request: &Asked<'_>,
    command: &str,
    held: H,
    out: &mut String,
) -> Result<(), CaseError> {
    match command {
        "json" => respond(alloc, request, RawJson(held), out),
        "xml" => respond(alloc, request, RawXml(held), out),
        "msgpack" => respond(alloc, request, RawMsgPack(held), out),
        "plain_text" => respond(alloc, request, RawText(held), out),
        _ => page(alloc, request, command, held, out),
    }
}

fn refusal<H: Responder<Sample> + Drop>(
    alloc: Global,
    request: &Asked<'_>,
    command: &str,
    held: H,
    out: &mut String,
) -> Result<(), CaseError> {
    match command {
        "unauthorized" => respond(alloc, request, Unauthorized(held), out),
        "forbidden" => respond(alloc, request, Forbidden(held), out),
        "not_found" => respond(alloc, request, NotFound(held), out),
        "conflict" => respond(alloc, request, Conflict(held), out),
        _ => data(alloc, request, command, held, out),
    }
}

/// Adds what a responder around another answers.
pub fn around<H: Responder<Sample> + Drop>(
    alloc: Global,
    request: &Asked<'_>,
    command: &str,
    held: H,
    out: &mut String,
) -> Result<(), CaseError> {
    match command {
        "plain" => respond(alloc, request, held, out),
        "accepted" => respond(alloc, request, Accepted(held), out),
        "no_content" => respond(alloc, request, NoContent, out),
        "bad_request" => respond(alloc, request, BadRequest(held), out),
        _ => refusal(alloc, request, command, held, out),
    }
}
