//! What a router answers, most of it for requests.
use crate::callbacks::push_call;
use crate::question::{Asked, Question, parse_asked};
use crate::refusal::push_misplaced;
use crate::routes::SampleRouter;
use cases::{CaseError, written};
use rkt_base::{NoMemory, Want};
use rkt_http::{Origin, Status};
use rkt_request::Request;
use rkt_router::Collisions;
use sample_app::{Sample, Server};
use std::alloc::Global;

/// Adds what the walk gives.
fn push_walk(
    router: &SampleRouter,
    request: &Request<'_, Sample>,
    out: &mut String,
) -> Result<(), NoMemory> {
    // So the walk and the steps below go over one list.
    router.has_tries(request);
    out.push_str("walk")?;
    for (position, _) in router.route(request) {
        write!(out, " {position}")?;
    }
    Ok(())
}

/// Adds what is tried one after another.
fn push_nexts(
    router: &SampleRouter,
    request: &Request<'_, Sample>,
    out: &mut String,
) -> Result<(), NoMemory> {
    out.push_str(", next")?;
    let mut after = None;
    for _ in router.routes() {
        after = router.next_try(request, after);
        match after {
            Some(position) => write!(out, " {position}")?,
            None => return Ok(()),
        }
    }
    Ok(())
}

fn push_tries(
    router: &SampleRouter,
    request: &Request<'_, Sample>,
    out: &mut String,
) -> Result<(), NoMemory> {
    push_walk(router, request, out)?;
    push_nexts(router, request, out)
}

fn push_caught(
    router: &SampleRouter,
    request: &Request<'_, Sample>,
    status: Status,
    out: &mut String,
) -> Result<(), NoMemory> {
    match router.catch(status, request) {
        Some((position, _)) => write!(out, "{position}"),
        None => out.push_str("none"),
    }
}

/// Adds what is asked for a request.
fn push_asked(
    alloc: Global,
    router: &SampleRouter,
    request: &Request<'_, Sample>,
    question: Question<'_>,
    out: &mut String,
) -> Result<(), CaseError> {
    match question {
        Question::Tries => written(push_tries(router, request, out)),
        Question::Catch(status) => written(push_caught(router, request, status, out)),
        Question::Call(command, rest) => push_call(alloc, request, command, rest, out),
    }
}

fn ask(
    alloc: Global,
    server: &Server,
    router: &SampleRouter,
    uri: Origin,
    asked: Asked<'_>,
    out: &mut String,
) -> Result<(), CaseError> {
    let request = server.request(alloc, asked.method, uri);
    let pushed = push_asked(alloc, router, &request, asked.question, out);
    drop(request);
    pushed
}

/// Answers a question that is asked for a request.
pub fn answer_question(
    alloc: Global,
    server: &Server,
    router: &SampleRouter,
    line: (&str, &str),
    out: &mut String,
) -> Result<(), CaseError> {
    let asked = parse_asked(line.0, line.1)?;
    match Origin::parse(alloc, asked.uri) {
        Ok(uri) => ask(alloc, server, router, uri, asked, out),
        Err(error) => push_misplaced(error, out),
    }
}

fn push_collisions(found: &Collisions, out: &mut String) -> Result<(), CaseError> {
    let (routes, catchers) = (found.routes.as_slice(), found.catchers.as_slice());
    written(write!(out, "routes {routes:?}, catchers {catchers:?}"))
}

/// Adds whether a router is taken, or all that collides.
pub fn finalize(alloc: Global, router: &SampleRouter, out: &mut String) -> Result<(), CaseError> {
    match router.finalize(alloc) {
        Ok(()) => written(out.push_str("ok")),
        Err(Want::Refused(found)) => push_collisions(&found, out),
        Err(Want::NoMemory) => Err(CaseError::NoMemory),
    }
}
