use crate::bodies::push_body_guard;
use crate::context::{change_ctx, push_ctx};
use crate::guards::push_guard;
use crate::heads::answer_head;
use crate::kept::{Kept, config, managed};
use crate::params::{push_param, push_params, push_segment, push_segments};
use crate::question::{Question, parse_question};
use crate::requests::{method_and_target, take_steps};
use crate::told::push_request;
use cases::{Answers, CaseError, done, first_word, written};
use rkt_http::{Method, Origin};
use rkt_request::{Ctx, Request};
use sample_app::{Sample, Server};
use std::alloc::Global;

/// Adds what is asked of a request.
fn push_asked(
    alloc: Global,
    request: &Request<'_, Sample>,
    ctx: &mut Ctx<Sample>,
    question: Question<'_>,
    out: &mut String,
) -> Result<(), CaseError> {
    match question {
        Question::Tell => written(push_request(alloc, request, out)),
        Question::Segment(n) => written(push_segment(request, n, out)),
        Question::Segments(n) => written(push_segments(request, n, out)),
        Question::Param(n, name) => push_param(alloc, name, request, n, out),
        Question::Params(n, name) => push_params(alloc, name, request, n, out),
        Question::Guard(name) => push_guard(alloc, name, request, ctx, out),
        Question::Body(text) => push_body_guard(alloc, request, text, out),
    }
}

/// Takes the steps of a request, and adds what is asked of it then.
fn push_stepped(
    alloc: Global,
    request: &mut Request<'_, Sample>,
    ctx: &mut Ctx<Sample>,
    asked: (Question<'_>, &str),
    out: &mut String,
) -> Result<(), CaseError> {
    take_steps(alloc, request, asked.1)?;
    push_asked(alloc, request, ctx, asked.0, out)
}

/// Asks the request that begins so.
fn ask(
    alloc: Global,
    server: &Server,
    ctx: &mut Ctx<Sample>,
    first: (Method, Origin),
    asked: (Question<'_>, &str),
    out: &mut String,
) -> Result<(), CaseError> {
    let mut request = server.request(alloc, first.0, first.1);
    let pushed = push_stepped(alloc, &mut request, ctx, asked, out);
    drop(request);
    pushed
}

/// The answer to a question, by the request behind it.
fn answer_question(
    alloc: Global,
    kept: &mut Kept,
    command: &str,
    text: &str,
    out: &mut String,
) -> Result<(), CaseError> {
    let asked = parse_question(command, text)?;
    let (method, target) = method_and_target(asked.1)?;
    match Origin::parse(alloc, target) {
        Ok(uri) => ask(
            alloc,
            &kept.server,
            &mut kept.ctx,
            (method, uri),
            asked,
            out,
        ),
        Err(error) => Err(CaseError::from(error)),
    }
}

/// Puts what was made in the place of what was there.
fn replace<V: Drop>(place: &mut V, made: Result<V, CaseError>) -> Result<(), CaseError> {
    *place = made?;
    Ok(())
}

/// Changes what is lent to each request.
fn answer_set(
    alloc: Global,
    server: &mut Server,
    command: &str,
    text: &str,
    out: &mut String,
) -> Result<(), CaseError> {
    match command {
        "config" => done(replace(&mut server.config, config(alloc, text)), out),
        _ => done(replace(&mut server.managed, managed(alloc, text)), out),
    }
}

fn answer_ctx(
    alloc: Global,
    ctx: &mut Ctx<Sample>,
    text: &str,
    out: &mut String,
) -> Result<(), CaseError> {
    let (command, text) = first_word(text);
    match command {
        "cache" | "tell" | "parts" => push_ctx(alloc, ctx, command, text, out),
        _ => done(change_ctx(alloc, ctx, command, text), out),
    }
}

impl Answers for Kept {
    fn answer(&mut self, alloc: Global, line: &str, out: &mut String) -> Result<(), CaseError> {
        let (command, text) = first_word(line);
        match command {
            "config" | "managed" => answer_set(alloc, &mut self.server, command, text, out),
            "ctx" => answer_ctx(alloc, &mut self.ctx, text, out),
            "head" | "copy" => answer_head(alloc, &self.server, command, text, out),
            _ => answer_question(alloc, self, command, text, out),
        }
    }
}
