//! Calls that are polled to their end.
use crate::handlers::{Bare, Faults, Marks, Waits};
use crate::replies::{body_of, push_error, push_outcome, push_response};
use crate::words::status;
use cases::{CaseError, first_word, parsed, written};
use rkt_base::NoMemory;
use rkt_data::MemorySource;
use rkt_http::Status;
use rkt_request::{Body0, Ctx, Request};
use rkt_response::Response;
use rkt_router::{CatchHandler, Final, Handler, Polled, RouteOutcome, turn_catch, turn_handler};
use sample_app::Sample;
use std::alloc::{AllocError, Global};

/// Adds what a whole call of a handler gives.
fn push_final(last: Final<RouteOutcome<Sample>>, out: &mut String) -> Result<(), NoMemory> {
    match last {
        Final::Done(reply) => push_outcome(reply, out),
        Final::FailedTurn => out.push_str("failed turn"),
        Final::Starved => Err(AllocError),
    }
}

/// Polls a call of a handler until it is over.
fn finish<H: Handler<Sample>>(
    alloc: Global,
    handler: &H,
    turns: u32,
    request: &Request<'_, Sample>,
    ctx: &mut Ctx<Sample>,
    body: Body0<Sample>,
    out: &mut String,
) -> Result<(), CaseError> {
    let mut task = handler.start(request, body);
    for turn in 0..turns {
        match turn_handler(alloc, handler, turns, turn, &mut task, request, ctx) {
            Polled::Pending => out.push_str("pending, ")?,
            Polled::Over(last) => return Ok(push_final(last, out)?),
        }
    }
    Err(CaseError::Line)
}

/// Adds how many changes of cookies there are.
fn push_changes(ctx: &Ctx<Sample>, out: &mut String) -> Result<(), NoMemory> {
    let changes = ctx.cookies().log().len();
    write!(out, ", changes {changes}")
}

fn finish_named(
    alloc: Global,
    request: &Request<'_, Sample>,
    ctx: &mut Ctx<Sample>,
    name: &str,
    turns: u32,
    body: Body0<Sample>,
    out: &mut String,
) -> Result<(), CaseError> {
    match name {
        "waits" => finish(alloc, &Waits, turns, request, ctx, body, out),
        "marks" => finish(alloc, &Marks, turns, request, ctx, body, out),
        "faults" => finish(alloc, &Faults, turns, request, ctx, body, out),
        _ => Err(CaseError::Line),
    }
}

/// Adds what a handler gives that has so many turns, and the changes that it leaves.
pub fn push_turns(
    alloc: Global,
    request: &Request<'_, Sample>,
    ctx: &mut Ctx<Sample>,
    line: &str,
    out: &mut String,
) -> Result<(), CaseError> {
    let (name, rest) = first_word(line);
    let (turns, text) = first_word(rest);
    let turns = parsed::<u32>(turns)?;
    let body = body_of(alloc, text)?;
    finish_named(alloc, request, ctx, name, turns, body, out)?;
    written(push_changes(ctx, out))
}

/// Adds what a whole call of a catcher gives.
fn push_caught(
    last: Final<Result<Response<MemorySource>, Status>>,
    out: &mut String,
) -> Result<(), NoMemory> {
    match last {
        Final::Done(Ok(mut response)) => push_response(&mut response, out),
        Final::Done(Err(status)) => push_error(status, out),
        Final::FailedTurn => out.push_str("failed turn"),
        Final::Starved => Err(AllocError),
    }
}

/// Polls a call of a catcher until it is over.
fn finish_catch<C: CatchHandler<Sample>>(
    alloc: Global,
    catcher: &C,
    status: Status,
    turns: u32,
    request: &Request<'_, Sample>,
    ctx: &mut Ctx<Sample>,
    out: &mut String,
) -> Result<(), CaseError> {
    let mut task = catcher.start(status, request);
    for turn in 0..turns {
        match turn_catch(alloc, catcher, turns, turn, &mut task, request, ctx) {
            Polled::Pending => out.push_str("pending, ")?,
            Polled::Over(last) => return Ok(push_caught(last, out)?),
        }
    }
    Err(CaseError::Line)
}

/// Adds what the catcher `Bare` gives for a status, which has so many turns.
pub fn push_catch_turns(
    alloc: Global,
    request: &Request<'_, Sample>,
    ctx: &mut Ctx<Sample>,
    line: &str,
    out: &mut String,
) -> Result<(), CaseError> {
    let (turns, code) = first_word(line);
    let (turns, code) = (parsed::<u32>(turns)?, status(code)?);
    finish_catch(alloc, &Bare, code, turns, request, ctx, out)
}
