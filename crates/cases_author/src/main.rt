//! An application whose author says nothing of it to the prover, and what callers get of it. Each line of standard input says
//! a case, and is written again with ` -> ` and its answer; empty lines and those that begin with `#` are headings.
//!
//! | Line | Answer |
//! |---|---|
//! | `token` | what the guard `Token` answers where the header is not there |
//! | `token TEXT` | its answer where the header has the text, which may stand between quotes |
//! | `hex PATH` | the first segment of the path, read to the base 16; `none` where there is none, or `refused` |
//! | `depth PATH` | how many segments the path has, or `refused` where they are more than three |
//! | `point TEXT` | the point that a body of this text spells, or the status of the error |
//! | `loud TEXT` | the status of the response, or of the error, and the size of its body |
//! | `greets PATH`, `shows TEXT` | the same of a handler's answer: it greets the first segment, or shows the token |
//! | `motto` | the same of one that promises which text it answers, and that text |
//! | `places TEXT` | the same of one that reads a body of this text |
//! | `rocket` | how many routes and catchers the application's rocket has |
//! | `fairing KIND` | the name, the key and the kind that a fairing of this kind tells which is made of one change |
//! | `visits` | the same of one that leaves a cookie, and how many changes of cookies it leaves |
//! | `says STATUS PATH`, `notes STATUS PATH` | the same of a catcher's answer, and how many changes of cookies it leaves |
//!
//! Any other line answers `? line`.
#![tactic(auto)]

mod app;
mod asked;
mod author;
mod callbacks;
mod called;
mod fairings;
mod question;

use crate::app::{places, push_rocket};
use crate::asked::{
    Setting, context, made_setting, motto, push_depth, push_loud, push_param, push_point,
    push_token, request, show_token,
};
use crate::author::Site;
use crate::callbacks::{Greets, Motto, Notes, Says, Shows, Visits};
use crate::called::{push_caught, push_handled, push_taken};
use crate::fairings::push_fairing;
use crate::question::{Callback, Question, parse_line};
use cases::{Answers, CaseError, answer_lines_if_made, written};
use rkt_answers::{Answering, AnsweringIf, AnsweringWith};
use rkt_base::NoMemory;
use rkt_http::Status;
use rkt_request::{Ctx, Request};
use std::alloc::Global;
use std::io;

/// What requests are lent, and the context of the line at hand.
#[derive(Drop)]
struct Program {
    setting: Setting,
    ctx: Ctx<Site>,
}

impl Program {
    fn new(alloc: Global) -> Result<Program, NoMemory> {
        let setting = made_setting(alloc)?;
        Ok(Program {
            setting,
            ctx: context(alloc)?,
        })
    }
}

/// Adds how many changes of cookies there are, behind an answer.
fn with_changes(
    answer: Result<(), CaseError>,
    out: &mut String,
    ctx: &Ctx<Site>,
) -> Result<(), CaseError> {
    match answer {
        Ok(()) => written(write!(out, ", changes {}", ctx.cookies().log().len())),
        Err(error) => Err(error),
    }
}

fn push_shown(
    alloc: Global,
    out: &mut String,
    request: &mut Request<'_, Site>,
    ctx: &mut Ctx<Site>,
    token: &str,
) -> Result<(), CaseError> {
    show_token(alloc, request, token)?;
    push_handled(alloc, out, &AnsweringIf(Shows), request, ctx)
}

/// The status and the size of the response, and the motto that it is made of.
fn push_motto(
    alloc: Global,
    out: &mut String,
    request: &Request<'_, Site>,
    ctx: &mut Ctx<Site>,
) -> Result<(), CaseError> {
    push_handled(alloc, out, &Answering(Motto), request, ctx)?;
    write!(out, ", {}", motto(alloc, request)?)?;
    Ok(())
}

/// Through the type of the application's pages.
fn push_places(
    alloc: Global,
    out: &mut String,
    request: &Request<'_, Site>,
    ctx: &mut Ctx<Site>,
    text: &str,
) -> Result<(), CaseError> {
    let bytes = text.as_bytes().to_vec(alloc)?;
    push_taken(alloc, out, &places(), request, ctx, bytes)
}

fn push_visit(
    alloc: Global,
    out: &mut String,
    request: &Request<'_, Site>,
    ctx: &mut Ctx<Site>,
) -> Result<(), CaseError> {
    let answer = push_handled(alloc, out, &AnsweringWith(Visits), request, ctx);
    with_changes(answer, out, ctx)
}

fn push_said(
    alloc: Global,
    out: &mut String,
    request: &Request<'_, Site>,
    ctx: &mut Ctx<Site>,
    status: Status,
) -> Result<(), CaseError> {
    let answer = push_caught(alloc, out, &Answering(Says), status, request, ctx);
    with_changes(answer, out, ctx)
}

fn push_noted(
    alloc: Global,
    out: &mut String,
    request: &Request<'_, Site>,
    ctx: &mut Ctx<Site>,
    status: Status,
) -> Result<(), CaseError> {
    let answer = push_caught(alloc, out, &AnsweringWith(Notes), status, request, ctx);
    with_changes(answer, out, ctx)
}

fn push_called(
    alloc: Global,
    out: &mut String,
    request: &mut Request<'_, Site>,
    ctx: &mut Ctx<Site>,
    callback: Callback<'_>,
) -> Result<(), CaseError> {
    match callback {
        Callback::Greets => push_handled(alloc, out, &Answering(Greets), request, ctx),
        Callback::Motto => push_motto(alloc, out, request, ctx),
        Callback::Places(text) => push_places(alloc, out, request, ctx, text),
        Callback::Shows(token) => push_shown(alloc, out, request, ctx, token),
        Callback::Visits => push_visit(alloc, out, request, ctx),
        Callback::Says(status) => push_said(alloc, out, request, ctx, status),
        Callback::Notes(status) => push_noted(alloc, out, request, ctx, status),
    }
}

fn push_guarded(
    alloc: Global,
    out: &mut String,
    request: &mut Request<'_, Site>,
    ctx: &mut Ctx<Site>,
    token: &str,
) -> Result<(), CaseError> {
    show_token(alloc, request, token)?;
    push_token(alloc, out, request, ctx)
}

fn push_asked(
    alloc: Global,
    out: &mut String,
    request: &mut Request<'_, Site>,
    ctx: &mut Ctx<Site>,
    question: Question<'_>,
) -> Result<(), CaseError> {
    match question {
        Question::Token(token) => push_guarded(alloc, out, request, ctx, token),
        Question::Hex => push_param(alloc, out, request),
        Question::Depth => push_depth(alloc, out, request),
        Question::Point(text) => push_point(alloc, out, request, text),
        Question::Loud(text) => push_loud(alloc, out, request, ctx, text),
        Question::Call(callback) => push_called(alloc, out, request, ctx, callback),
    }
}

fn ask(
    alloc: Global,
    out: &mut String,
    program: &mut Program,
    question: Question<'_>,
    path: &str,
) -> Result<(), CaseError> {
    match request(alloc, &program.setting, path) {
        Ok(mut request) => {
            let pushed = push_asked(alloc, out, &mut request, &mut program.ctx, question);
            drop(request);
            pushed
        }
        Err(error) => Err(error),
    }
}

impl Answers for Program {
    fn answer(&mut self, alloc: Global, line: &str, out: &mut String) -> Result<(), CaseError> {
        if line == "rocket" {
            return push_rocket(alloc, out);
        }
        if let Some(kind) = line.strip_prefix("fairing ") {
            return push_fairing(out, kind);
        }
        let (question, path) = parse_line(line)?;
        self.ctx = context(alloc)?;
        ask(alloc, out, self, question, path)
    }
}

fn main(rt: HostRuntime) -> io::Result<()> {
    let alloc = rt.alloc();
    answer_lines_if_made(&rt, alloc, Program::new(alloc))
}
