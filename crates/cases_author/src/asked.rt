//! What callers get of them: the framework's promises, by the bounds alone.
ghost use Rattle.std.specs.Prelude.{◌≡◌, IfOk, codes};

use crate::author::{Depth, Hex, Loud, NoPoint, Point, Site, Stopped, Token};
use crate::callbacks::Motto;
use cases::{CaseError, plain, written};
use rkt_answers::Answers;
use rkt_base::{NoMemory, Poll, Want};
use rkt_cookie::CookieJar;
use rkt_data::{Data, Gate, MemorySource};
use rkt_http::{Header, Method, Origin, Outcome, Status};
use rkt_request::{
    Body0, Config, Ctx, DataOutcome, FromData, Managed, Parsed, Request, TextError, Types,
};
use rkt_response::{Responder, Response};
use rkt_turn::TripWire;
use std::alloc::Global;

const GATE: Gate = Gate {
    moment: 0,
    tripped: None,
    grace: 2,
    mercy: 3,
};

/// What a request is lent.
#[derive(Drop)]
pub struct Setting {
    config: Config,
    managed: Managed<u8>,
}

pub fn made_setting(alloc: Global) -> Result<Setting, NoMemory> {
    Ok(Setting {
        config: Config::default(alloc)?,
        managed: Managed::new(alloc),
    })
}

pub fn context(alloc: Global) -> Result<Ctx<Site>, NoMemory> {
    let (_wire, shutdown) = TripWire::<Stopped>::new(alloc)?;
    Ok(Ctx::new(alloc, CookieJar::new(alloc), shutdown, GATE))
}

pub fn request<'a>(
    alloc: Global,
    setting: &'a Setting,
    path: &str,
) -> Result<Request<'a, Site>, CaseError> {
    let uri = Origin::parse(alloc, path)?;
    Ok(Request::new(alloc, &setting.config, &setting.managed, Method::Get, uri))
}

pub fn push_status(out: &mut String, word: &str, status: Status) -> Result<(), CaseError> {
    written(write!(out, "{word} {}", status.code))
}

/// What the guard answers, which leaves the context as it was.
pub fn push_token(
    alloc: Global,
    out: &mut String,
    request: &Request<'_, Site>,
    ctx: &mut Ctx<Site>,
) -> Result<(), CaseError>
    ensures { ctx.new ≡ ctx.old }
{
    match request.guard::<Token>(alloc, ctx)? {
        Outcome::Success(token) => written(out.push_str(token.text.as_str())),
        Outcome::Error((status, _)) => push_status(out, "error", status),
        Outcome::Forward(status) => push_status(out, "forward", status),
    }
}

fn add_token(alloc: Global, request: &mut Request<'_, Site>, token: &str) -> Result<(), NoMemory> {
    let header = Header::new(alloc, "X-Token", token)?;
    request.add_header(header)
}

/// Has the request show a token, if there is one.
pub fn show_token(
    alloc: Global,
    request: &mut Request<'_, Site>,
    token: &str,
) -> Result<(), CaseError> {
    if token.is_empty() {
        return Ok(());
    }
    written(add_token(alloc, request, plain(token)))
}

/// What the first segment is as a number to the base 16.
pub fn push_param(
    alloc: Global,
    out: &mut String,
    request: &Request<'_, Site>,
) -> Result<(), CaseError> {
    match request.param::<Hex>(alloc, 0) {
        Some(Ok(Hex(number))) => written(write!(out, "{number}")),
        Some(Err(_)) => written(out.push_str("refused")),
        None => written(out.push_str("none")),
    }
}

/// How deep the path is.
pub fn push_depth(
    alloc: Global,
    out: &mut String,
    request: &Request<'_, Site>,
) -> Result<(), CaseError> {
    match request.segments::<Depth>(alloc, 0..) {
        Ok(Depth(depth)) => written(write!(out, "{depth}")),
        Err(_) => written(out.push_str("refused")),
    }
}

/// Adds the point that was read, or the status in its place.
fn push_read(
    out: &mut String,
    outcome: DataOutcome<Parsed<Point>, TextError<NoPoint>, Body0<Site>>,
) -> Result<(), CaseError> {
    match outcome {
        Outcome::Success(Parsed(Point { x, y })) => written(write!(out, "{x} right, {y} up")),
        Outcome::Error((status, _)) => push_status(out, "error", status),
        Outcome::Forward((_, status)) => push_status(out, "forward", status),
    }
}

/// What the guard of a body answers. A body in memory is never waited for.
fn push_body(
    alloc: Global,
    out: &mut String,
    request: &Request<'_, Site>,
    body: Body0<Site>,
) -> Result<(), CaseError> {
    let mut reading = <Parsed<Point> as FromData<Site>>::from_data(request, body);
    match <Parsed<Point> as FromData<Site>>::poll_data(alloc, &mut reading, GATE) {
        Poll::Ready(Ok(outcome)) => push_read(out, outcome),
        Poll::Ready(Err(_)) => Err(CaseError::NoMemory),
        Poll::Pending => Err(CaseError::Line),
    }
}

/// The point that a body of this text spells.
pub fn push_point(
    alloc: Global,
    out: &mut String,
    request: &Request<'_, Site>,
    text: &str,
) -> Result<(), CaseError> {
    let bytes = text.as_bytes().to_vec(alloc)?;
    push_body(alloc, out, request, Data::local(bytes))
}

/// What a handler answers that promises it: its callers know the text by that alone.
pub fn motto<T: Types>(alloc: Global, request: &Request<'_, T>) -> Result<&'static str, NoMemory>
    ensures { IfOk result (λ text. text.now ≡ codes "we prove it") }
{
    Motto.answer(alloc, request)
}

/// Adds the size of a response's body, if it is known.
fn push_size(out: &mut String, size: Option<usize>) -> Result<(), NoMemory> {
    match size {
        Some(size) => write!(out, " size {size}"),
        None => Ok(()),
    }
}

fn push_head(out: &mut String, response: &mut Response<MemorySource>) -> Result<(), NoMemory> {
    write!(out, "status {}", response.status().code)?;
    push_size(out, response.body_mut().size())
}

pub fn push_response(
    out: &mut String,
    mut response: Response<MemorySource>,
) -> Result<(), CaseError> {
    written(push_head(out, &mut response))
}

/// What the responder answers, which leaves the context as it was.
pub fn push_loud(
    alloc: Global,
    out: &mut String,
    request: &Request<'_, Site>,
    ctx: &mut Ctx<Site>,
    text: &str,
) -> Result<(), CaseError>
    ensures { ctx.new ≡ ctx.old }
{
    let loud = Loud {
        text: String::from_str(alloc, text)?,
    };
    match loud.respond_to(alloc, request, ctx) {
        Ok(response) => push_response(out, response),
        Err(error) => push_refusal(out, error),
    }
}

fn push_refusal(out: &mut String, error: Want<Status>) -> Result<(), CaseError> {
    match error {
        Want::Refused(status) => push_status(out, "error", status),
        Want::NoMemory => Err(CaseError::NoMemory),
    }
}
