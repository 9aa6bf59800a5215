//! What callbacks answer when they are polled.
use crate::handlers::{Bare, Passes};
use crate::replies::{body_of, push_error, push_made, push_response, push_step};
use crate::turns::{push_catch_turns, push_turns};
use crate::words::status;
use cases::{CaseError, written};
use rkt_base::NoMemory;
use rkt_cookie::CookieJar;
use rkt_data::{Data, MemorySource};
use rkt_http::Status;
use rkt_request::{Ctx, Request};
use rkt_response::Response;
use rkt_router::catcher::default_handler;
use rkt_router::{CatchHandler, Dummy, Handler, Step};
use sample_app::{Sample, context};
use std::alloc::{AllocError, Global};

fn dummy(
    alloc: Global,
    request: &Request<'_, Sample>,
    ctx: &mut Ctx<Sample>,
    text: &str,
    out: &mut String,
) -> Result<(), NoMemory> {
    let body = body_of(alloc, text)?;
    Handler::<Sample>::start(&Dummy, request, body);
    let step = Dummy.poll(alloc, &mut (), request, ctx);
    push_step(step, out)
}

fn passes(
    alloc: Global,
    request: &Request<'_, Sample>,
    ctx: &mut Ctx<Sample>,
    text: &str,
    out: &mut String,
) -> Result<(), NoMemory> {
    let mut task = Passes.start(request, Data::local(text.as_bytes().to_vec(alloc)?));
    let step = Passes.poll(alloc, &mut task, request, ctx);
    push_step(step, out)
}

/// Adds what a poll of a catcher answers.
fn push_caught(
    step: Step<Result<Response<MemorySource>, Status>>,
    out: &mut String,
) -> Result<(), NoMemory> {
    match step {
        Step::Done(Ok(mut response)) => push_response(&mut response, out),
        Step::Done(Err(status)) => push_error(status, out),
        Step::Pending => out.push_str("pending"),
        Step::Fault => out.push_str("fault"),
        Step::Starved => Err(AllocError),
    }
}

fn bare(
    alloc: Global,
    request: &Request<'_, Sample>,
    ctx: &mut Ctx<Sample>,
    code: &str,
    out: &mut String,
) -> Result<(), CaseError> {
    let mut task = Bare.start(status(code)?, request);
    let step = Bare.poll(alloc, &mut task, request, ctx);
    Ok(push_caught(step, out)?)
}

fn page(
    alloc: Global,
    request: &Request<'_, Sample>,
    code: &str,
    out: &mut String,
) -> Result<(), CaseError> {
    let mut response = default_handler(alloc, status(code)?, request)?;
    written(push_response(&mut response, out))
}

fn called(
    alloc: Global,
    request: &Request<'_, Sample>,
    ctx: &mut Ctx<Sample>,
    asked: (&str, &str),
    out: &mut String,
) -> Result<(), CaseError> {
    match asked.0 {
        "turns" => push_turns(alloc, request, ctx, asked.1, out),
        "catch_turns" => push_catch_turns(alloc, request, ctx, asked.1, out),
        "page" => page(alloc, request, asked.1, out),
        _ => push_made(alloc, request, ctx, asked, out),
    }
}

fn polled(
    alloc: Global,
    request: &Request<'_, Sample>,
    ctx: &mut Ctx<Sample>,
    asked: (&str, &str),
    out: &mut String,
) -> Result<(), CaseError> {
    match asked.0 {
        "dummy" => written(dummy(alloc, request, ctx, asked.1, out)),
        "passes" => written(passes(alloc, request, ctx, asked.1, out)),
        "bare" => bare(alloc, request, ctx, asked.1, out),
        _ => called(alloc, request, ctx, asked, out),
    }
}

/// Adds what a callback answers to a request.
pub fn push_call(
    alloc: Global,
    request: &Request<'_, Sample>,
    command: &str,
    rest: &str,
    out: &mut String,
) -> Result<(), CaseError> {
    let mut ctx = context(alloc, CookieJar::new(alloc))?;
    let pushed = polled(alloc, request, &mut ctx, (command, rest), out);
    drop(ctx);
    pushed
}
