//! What a framework gets of an author's callbacks, by the bounds alone.
use crate::asked::{push_response, push_status};
use crate::author::Site;
use cases::{CaseError, written};
use rkt_data::{Data, MemorySource};
use rkt_http::{Outcome, Status};
use rkt_request::{Body0, Ctx, Request, Types};
use rkt_response::Response;
use rkt_router::{CatchHandler, Final, Handler, Polled, RouteOutcome, turn_catch, turn_handler};
use std::alloc::Global;

fn push_reply(out: &mut String, reply: RouteOutcome<Site>) -> Result<(), CaseError> {
    match reply {
        Outcome::Success(response) => push_response(out, response),
        Outcome::Error(status) => push_status(out, "error", status),
        Outcome::Forward((_, status)) => push_status(out, "forward", status),
    }
}

/// Polls a call of a handler that has so many turns; what it gives at last, if it is over by then.
fn handled<T: Types, H: Handler<T>>(
    alloc: Global,
    handler: &H,
    turns: u32,
    request: &Request<'_, T>,
    ctx: &mut Ctx<T>,
    body: Body0<T>,
) -> Option<Final<RouteOutcome<T>>> {
    let mut task = handler.start(request, body);
    for turn in 0..turns {
        match turn_handler(alloc, handler, turns, turn, &mut task, request, ctx) {
            Polled::Pending => {}
            Polled::Over(last) => return Some(last),
        }
    }
    None
}

/// What a handler gives in one turn, without a body.
pub fn push_handled<H: Handler<Site>>(
    alloc: Global,
    out: &mut String,
    handler: &H,
    request: &Request<'_, Site>,
    ctx: &mut Ctx<Site>,
) -> Result<(), CaseError> {
    push_taken(alloc, out, handler, request, ctx, Vec::new(alloc))
}

/// The same with the bytes of a body.
pub fn push_taken<H: Handler<Site>>(
    alloc: Global,
    out: &mut String,
    handler: &H,
    request: &Request<'_, Site>,
    ctx: &mut Ctx<Site>,
    bytes: Vec<u8>,
) -> Result<(), CaseError> {
    match handled(alloc, handler, 1, request, ctx, Data::local(bytes)) {
        Some(Final::Done(reply)) => push_reply(out, reply),
        Some(Final::Starved) => Err(CaseError::NoMemory),
        _ => written(out.push_str("failed turn")),
    }
}

fn push_answer(
    out: &mut String,
    answer: Result<Response<MemorySource>, Status>,
) -> Result<(), CaseError> {
    match answer {
        Ok(response) => push_response(out, response),
        Err(status) => push_status(out, "error", status),
    }
}

/// The same of a catcher.
fn caught<T: Types, C: CatchHandler<T>>(
    alloc: Global,
    catcher: &C,
    status: Status,
    turns: u32,
    request: &Request<'_, T>,
    ctx: &mut Ctx<T>,
) -> Option<Final<Result<Response<T::Stream>, Status>>> {
    let mut task = catcher.start(status, request);
    for turn in 0..turns {
        match turn_catch(alloc, catcher, turns, turn, &mut task, request, ctx) {
            Polled::Pending => {}
            Polled::Over(last) => return Some(last),
        }
    }
    None
}

/// What a catcher gives in one turn.
pub fn push_caught<C: CatchHandler<Site>>(
    alloc: Global,
    out: &mut String,
    catcher: &C,
    status: Status,
    request: &Request<'_, Site>,
    ctx: &mut Ctx<Site>,
) -> Result<(), CaseError> {
    match caught(alloc, catcher, status, 1, request, ctx) {
        Some(Final::Done(answer)) => push_answer(out, answer),
        Some(Final::Starved) => Err(CaseError::NoMemory),
        _ => written(out.push_str("failed turn")),
    }
}
