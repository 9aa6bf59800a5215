//! Answers of handlers and of catchers.
use crate::words::status;
use cases::{CaseError, first_word, written};
use rkt_answers::{from, try_from};
use rkt_base::NoMemory;
use rkt_data::{Data, MemorySource};
use rkt_http::{Outcome, Status};
use rkt_request::{Body0, Ctx, Request};
use rkt_response::Response;
use rkt_router::route::{error, forward};
use rkt_router::{RouteOutcome, Step};
use sample_app::Sample;
use std::alloc::{AllocError, Global};

type Reply = RouteOutcome<Sample>;

/// A body of these bytes.
pub fn body_of(alloc: Global, text: &str) -> Result<Body0<Sample>, NoMemory> {
    let bytes = text.as_bytes().to_vec(alloc)?;
    Ok(Data::local(bytes))
}

pub fn push_response(
    response: &mut Response<MemorySource>,
    out: &mut String,
) -> Result<(), NoMemory> {
    let (code, size) = (response.status().code, response.body_mut().size());
    write!(out, "success {code} {size:?}")
}

pub fn push_error(status: Status, out: &mut String) -> Result<(), NoMemory> {
    write!(out, "error {}", status.code)
}

fn push_forward(body: &Body0<Sample>, status: Status, out: &mut String) -> Result<(), NoMemory> {
    let (code, complete) = (status.code, body.peek_complete());
    write!(out, "forward {code} complete={complete:?}")
}

/// Adds an answer of a handler.
pub fn push_outcome(reply: Reply, out: &mut String) -> Result<(), NoMemory> {
    match reply {
        Outcome::Success(mut response) => push_response(&mut response, out),
        Outcome::Error(status) => push_error(status, out),
        Outcome::Forward((body, status)) => push_forward(&body, status, out),
    }
}

/// Adds what a poll of a handler answers.
pub fn push_step(step: Step<Reply>, out: &mut String) -> Result<(), NoMemory> {
    match step {
        Step::Done(reply) => push_outcome(reply, out),
        Step::Pending => out.push_str("pending"),
        Step::Fault => out.push_str("fault"),
        Step::Starved => Err(AllocError),
    }
}

/// A number is a status that errs, and any other text a text that answers.
fn responder(text: &str) -> Result<&str, Status> {
    match text.parse() {
        Ok(code) => Err(Status::new(code)),
        Err(_) => Ok(text),
    }
}

fn made_from(
    alloc: Global,
    request: &Request<'_, Sample>,
    ctx: &mut Ctx<Sample>,
    text: &str,
    out: &mut String,
) -> Result<(), NoMemory> {
    let reply = from(alloc, request, ctx, responder(text))?;
    push_outcome(reply, out)
}

fn made_from_value(
    alloc: Global,
    request: &Request<'_, Sample>,
    ctx: &mut Ctx<Sample>,
    text: &str,
    out: &mut String,
) -> Result<(), NoMemory> {
    let value = if text.is_empty() {
        Err(())
    } else {
        Ok(responder(text))
    };
    let reply = try_from(alloc, request, ctx, value)?;
    push_outcome(reply, out)
}

fn made_forward(alloc: Global, line: &str, out: &mut String) -> Result<(), CaseError> {
    let (code, text) = first_word(line);
    let status = status(code)?;
    let body = body_of(alloc, text)?;
    written(push_outcome(forward::<Sample>(body, status), out))
}

/// Adds an answer that is made by one of the functions for it.
pub fn push_made(
    alloc: Global,
    request: &Request<'_, Sample>,
    ctx: &mut Ctx<Sample>,
    asked: (&str, &str),
    out: &mut String,
) -> Result<(), CaseError> {
    match asked.0 {
        "from" => written(made_from(alloc, request, ctx, asked.1, out)),
        "try_from" => written(made_from_value(alloc, request, ctx, asked.1, out)),
        "error" => Ok(push_outcome(error::<Sample>(status(asked.1)?), out)?),
        "forward" => made_forward(alloc, asked.1, out),
        _ => Err(CaseError::Line),
    }
}
