//! What a responder answers.
use cases::{CaseError, written};
use rkt_base::{NoMemory, Poll, Want};
use rkt_cookie::CookieJar;
use rkt_data::{DataError, Source};
use rkt_request::{Ctx, Request, Types};
use rkt_response::{Body, Responder, Response, ResponseResult};
use sample_app::{Sample, context, gate_at};
use std::alloc::Global;

/// The request that is answered.
pub type Asked<'a> = Request<'a, Sample>;

/// Adds a blank and the bytes, which are a text, if there are any.
fn push_bytes(bytes: &[u8], out: &mut String) -> Result<(), NoMemory> {
    if bytes.is_empty() {
        return Ok(());
    }
    match std::str::from_utf8(bytes) {
        Ok(text) => write!(out, " {text}"),
        Err(_) => out.push_str(" (no text)"),
    }
}

/// What gathering a body answers.
fn gathered<S: Source>(alloc: Global, body: Body<S>) -> Poll<Result<Vec<u8>, DataError>> {
    let mut all = body.to_bytes();
    all.poll(alloc, gate_at(0))
}

fn push_body<S: Source>(alloc: Global, body: Body<S>, out: &mut String) -> Result<(), NoMemory> {
    match gathered(alloc, body) {
        Poll::Ready(Ok(bytes)) => push_bytes(bytes.as_slice(), out),
        Poll::Ready(Err(_)) => out.push_str(" (fault)"),
        Poll::Pending => out.push_str(" (pending)"),
    }
}

fn push_status<S: Source>(response: &mut Response<S>, out: &mut String) -> Result<(), NoMemory> {
    let (code, size) = (response.status().code, response.body_mut().size());
    write!(out, "{code} {size:?}")
}

fn push_header(name: &str, value: &str, out: &mut String) -> Result<(), NoMemory> {
    write!(out, " [{name}: {value}]")
}

/// Adds a response's status, size and headers.
fn push_head<S: Source>(response: &mut Response<S>, out: &mut String) -> Result<(), NoMemory> {
    push_status(response, out)?;
    for (name, value) in response.headers().iter() {
        push_header(name, value, out)?;
    }
    Ok(())
}

/// Adds a response's status, size, headers and body.
fn push_response<S: Source>(
    alloc: Global,
    response: &mut Response<S>,
    out: &mut String,
) -> Result<(), CaseError> {
    push_head(response, out)?;
    written(push_body(alloc, response.body_mut().take(), out))
}

/// Adds a response, or the status in its place.
fn push_answer<S: Source>(
    alloc: Global,
    answer: ResponseResult<S>,
    out: &mut String,
) -> Result<(), CaseError> {
    match answer {
        Ok(mut response) => push_response(alloc, &mut response, out),
        Err(Want::Refused(status)) => written(write!(out, "err {}", status.code)),
        Err(Want::NoMemory) => Err(CaseError::NoMemory),
    }
}

/// Adds what a responder answers under a context.
pub fn respond_under<T: Types, R: Responder<T> + Drop>(
    alloc: Global,
    request: &Request<'_, T>,
    ctx: &mut Ctx<T>,
    responder: R,
    out: &mut String,
) -> Result<(), CaseError> {
    push_answer(alloc, responder.respond_to(alloc, request, ctx), out)
}

/// Adds what a responder answers to a request without cookies.
pub fn respond<R: Responder<Sample> + Drop>(
    alloc: Global,
    request: &Asked<'_>,
    responder: R,
    out: &mut String,
) -> Result<(), CaseError> {
    let mut ctx = context(alloc, CookieJar::new(alloc))?;
    respond_under(alloc, request, &mut ctx, responder, out)
}

/// The same of a responder for which there may have been no memory.
pub fn respond_made<R: Responder<Sample> + Drop>(
    alloc: Global,
    request: &Asked<'_>,
    made: Result<R, NoMemory>,
    out: &mut String,
) -> Result<(), CaseError> {
    match made {
        Ok(responder) => respond(alloc, request, responder, out),
        Err(_) => Err(CaseError::NoMemory),
    }
}
