//! What pages do.
ghost use Rattle.std.specs.Prelude.{◌≡◌};
ghost use Rattle.rkt_request.specs.Lent.{MayGrow};

use crate::app::Site;
use crate::owned::kept;
use crate::page::{Act, Made};
use rkt_base::{NoMemory, Poll, Want};
use rkt_cookie::Cookie;
use rkt_data::{Gate, MemorySource};
use rkt_http::{Key, Outcome, Status};
use rkt_request::{Body0, Ctx, DataOutcome, FromData, HasBody, Mounted, Request};
use rkt_response::responder::stream::TextStream;
use rkt_response::{Flash, Redirect, Responder, Response};
use sample_app::Stopped;
use std::alloc::{AllocError, Global};

/// What a page says at last. Where it says Forward, the body is given back.
#[derive(Drop)]
pub enum Said {
    Response(Response<MemorySource>),
    Error(Status),
    Forward(Status),
    /// It fails its turn.
    Fault,
}

/// What the body is read as.
type TextOutcome = DataOutcome<String, <String as FromData<Site>>::Error, Body0<Site>>;

/// Adds a cookie of this name, with the value 1.
pub fn add_cookie(alloc: Global, name: &str, ctx: &mut Ctx<Site>) -> Result<(), NoMemory>
    ensures grows { MayGrow ctx.old ctx.new }
{
    let cookie = Cookie::new(alloc, name, "1")?;
    ctx.cookies_mut().add(cookie)
}

fn remove_cookie(alloc: Global, name: &str, ctx: &mut Ctx<Site>) -> Result<(), NoMemory>
    ensures grows { MayGrow ctx.old ctx.new }
{
    let cookie = Cookie::new(alloc, name, "")?;
    ctx.cookies_mut().remove(cookie)
}

/// Adds a cookie of this name, if there is one.
pub fn mark(alloc: Global, name: Option<&'static str>, ctx: &mut Ctx<Site>) -> Result<(), NoMemory>
    ensures grows { MayGrow ctx.old ctx.new }
{
    match name {
        Some(name) => add_cookie(alloc, name, ctx),
        None => Ok(()),
    }
}

/// What a responder answers.
fn responds<R: Responder<Site>>(
    alloc: Global,
    request: &Request<'_, Site>,
    ctx: &mut Ctx<Site>,
    responder: R,
) -> Result<Said, NoMemory>
    ensures grows { MayGrow ctx.old ctx.new }
{
    match responder.respond_to(alloc, request, ctx) {
        Ok(response) => Ok(Said::Response(response)),
        Err(Want::Refused(status)) => Ok(Said::Error(status)),
        Err(Want::NoMemory) => Err(AllocError),
    }
}

/// The body, of which the first bytes were peeked at.
pub fn peeked(mut body: Body0<Site>, gate: Gate) -> Body0<Site>
    ensures { ⟦<Site as HasBody>⟧.whole result ≡ ⟦<Site as HasBody>⟧.whole body }
{
    match body.peek(gate, 3) {
        Poll::Ready(_) | Poll::Pending => {}
    }
    body
}

/// What the body is read as, if it is not Pending.
fn read(
    alloc: Global,
    request: &Request<'_, Site>,
    body: Body0<Site>,
    gate: Gate,
) -> Poll<Result<TextOutcome, NoMemory>> {
    let mut reading = <String as FromData<Site>>::from_data(request, body);
    let read = <String as FromData<Site>>::poll_data(alloc, &mut reading, gate);
    drop(reading);
    read
}

/// What the text of a body, or its refusal, answers.
fn echo(
    alloc: Global,
    request: &Request<'_, Site>,
    outcome: TextOutcome,
    ctx: &mut Ctx<Site>,
) -> Result<Said, NoMemory>
    ensures grows { MayGrow ctx.old ctx.new }
{
    match outcome {
        Outcome::Success(text) => responds(alloc, request, ctx, text),
        Outcome::Error((status, _)) => Ok(Said::Error(status)),
        Outcome::Forward(left) => {
            drop(left);
            Ok(Said::Fault)
        }
    }
}

/// What the text of the body, or its refusal, answers. A body that is Pending then is not waited for.
pub fn echoed(
    alloc: Global,
    request: &Request<'_, Site>,
    body: Body0<Site>,
    ctx: &mut Ctx<Site>,
) -> Result<Said, NoMemory>
    ensures grows { MayGrow ctx.old ctx.new }
{
    match read(alloc, request, body, ctx.gate()) {
        Poll::Ready(Ok(outcome)) => echo(alloc, request, outcome, ctx),
        Poll::Ready(Err(_)) => Err(AllocError),
        Poll::Pending => Ok(Said::Fault),
    }
}

/// The greeting, unless the age is no small number.
fn greeting(alloc: Global, request: &Request<'_, Site>) -> Result<Option<String>, NoMemory> {
    let Some(name) = request.routed_segment(0) else {
        return Ok(None);
    };
    match request.param::<u8>(alloc, 1) {
        Some(Ok(age)) => Ok(Some(format!(in alloc; "Hello, {age} year old named {name}!")?)),
        _ => Ok(None),
    }
}

fn greets(alloc: Global, request: &Request<'_, Site>, ctx: &mut Ctx<Site>) -> Result<Said, NoMemory>
    ensures grows { MayGrow ctx.old ctx.new }
{
    match greeting(alloc, request)? {
        Some(text) => responds(alloc, request, ctx, text),
        None => Ok(Said::Forward(Status::NotFound)),
    }
}

fn it_worked(alloc: Global) -> Result<Flash<Redirect>, NoMemory> {
    let redirect = Redirect::to(alloc, "/page")?;
    Flash::success(alloc, redirect, "It worked!")
}

fn flashes(
    alloc: Global,
    request: &Request<'_, Site>,
    ctx: &mut Ctx<Site>,
) -> Result<Said, NoMemory>
    ensures grows { MayGrow ctx.old ctx.new }
{
    let flash = it_worked(alloc)?;
    responds(alloc, request, ctx, flash)
}

/// A text that a source gives three bytes at a time.
fn stream(alloc: Global) -> Result<TextStream<MemorySource>, NoMemory> {
    let bytes = b"streamed".to_vec(alloc)?;
    Ok(TextStream(MemorySource::new(bytes, 3, Vec::new(alloc))))
}

fn streams(
    alloc: Global,
    request: &Request<'_, Site>,
    ctx: &mut Ctx<Site>,
) -> Result<Said, NoMemory>
    ensures grows { MayGrow ctx.old ctx.new }
{
    let stream = stream(alloc)?;
    responds(alloc, request, ctx, stream)
}

fn tell_length(response: &mut Response<MemorySource>) -> Result<(), NoMemory> {
    response.set_raw_header("Content-Length", "5")?;
    response.set_raw_header("Transfer-Encoding", "chunked")?;
    Ok(())
}

fn say_hello(alloc: Global, response: &mut Response<MemorySource>) -> Result<(), NoMemory> {
    let bytes = b"hello".to_vec(alloc)?;
    response.set_sized_body(None, bytes);
    tell_length(response)
}

/// A response with the text `hello`, and with the headers of one that tells its length itself.
fn with_length(alloc: Global, status: Status) -> Result<Response<MemorySource>, NoMemory> {
    let mut response = Response::new(alloc);
    response.set_status(status);
    let said = say_hello(alloc, &mut response);
    kept(response, said)
}

/// An empty response with one header.
fn with_header(alloc: Global, name: &str, value: &str) -> Result<Response<MemorySource>, NoMemory> {
    let mut response = Response::new(alloc);
    let set = response.set_raw_header(name, value);
    kept(response, set)
}

fn made_alone(alloc: Global, made: Made) -> Result<Response<MemorySource>, NoMemory> {
    match made {
        Made::NoContent => with_length(alloc, Status::NoContent),
        Made::NotModified => with_length(alloc, Status::NotModified),
        Made::Served => with_header(alloc, "Server", "own"),
        // No response may have a header with a line feed.
        _ => with_header(alloc, "X-Bad", "\n"),
    }
}

/// Adds a cookie and takes it away again.
fn removal(alloc: Global, ctx: &mut Ctx<Site>) -> Result<&'static str, NoMemory>
    ensures grows { MayGrow ctx.old ctx.new }
{
    add_cookie(alloc, "a", ctx)?;
    remove_cookie(alloc, "a", ctx)?;
    Ok("removed")
}

/// Caches a value, where none is cached yet, and answers which one is.
fn cached(value: u8, ctx: &mut Ctx<Site>) -> Result<u8, NoMemory>
    ensures grows { MayGrow ctx.old ctx.new }
{
    ctx.local_cache(Key(1), move || value)
}

/// Caches a value, and asks for it once more.
fn caching(ctx: &mut Ctx<Site>) -> Result<&'static str, NoMemory>
    ensures grows { MayGrow ctx.old ctx.new }
{
    let first = cached(5, ctx)?;
    let again = cached(6, ctx)?;
    Ok(if first == again { "cached" } else { "changed" })
}

/// Caches a value, where none is cached yet.
pub fn cache(ctx: &mut Ctx<Site>) -> Result<(), NoMemory>
    ensures grows { MayGrow ctx.old ctx.new }
{
    let _cached = cached(5, ctx)?;
    Ok(())
}

/// Notifies the wire, of the one reason.
pub fn notify(ctx: &mut Ctx<Site>) -> Result<(), NoMemory>
    ensures grows { MayGrow ctx.old ctx.new }
{
    ctx.shutdown().notify(Stopped);
    Ok(())
}

fn notice(ctx: &mut Ctx<Site>) -> Result<&'static str, NoMemory>
    ensures grows { MayGrow ctx.old ctx.new }
{
    notify(ctx)?;
    Ok("notified")
}

/// What is said when what is lent was changed.
fn changed(alloc: Global, made: Made, ctx: &mut Ctx<Site>) -> Result<&'static str, NoMemory>
    ensures grows { MayGrow ctx.old ctx.new }
{
    match made {
        Made::Removal => removal(alloc, ctx),
        Made::Cached => caching(ctx),
        _ => notice(ctx),
    }
}

fn changes(
    alloc: Global,
    made: Made,
    request: &Request<'_, Site>,
    ctx: &mut Ctx<Site>,
) -> Result<Said, NoMemory>
    ensures grows { MayGrow ctx.old ctx.new }
{
    let text = changed(alloc, made, ctx)?;
    responds(alloc, request, ctx, text)
}

/// The method, and the route with the number of its base's segments.
fn facts(alloc: Global, request: &Request<'_, Site>) -> Result<String, NoMemory> {
    let method = request.method().as_str();
    match request.route() {
        Some(
            Mounted {
                position,
                base_segments,
            },
        ) => format!(in alloc; "{method}, route {position} behind {base_segments}"),
        None => format!(in alloc; "{method}, no route"),
    }
}

fn tells(alloc: Global, request: &Request<'_, Site>, ctx: &mut Ctx<Site>) -> Result<Said, NoMemory>
    ensures grows { MayGrow ctx.old ctx.new }
{
    let text = facts(alloc, request)?;
    responds(alloc, request, ctx, text)
}

fn makes_text(
    alloc: Global,
    made: Made,
    request: &Request<'_, Site>,
    ctx: &mut Ctx<Site>,
) -> Result<Said, NoMemory>
    ensures grows { MayGrow ctx.old ctx.new }
{
    match made {
        Made::Flash => flashes(alloc, request, ctx),
        Made::Stream => streams(alloc, request, ctx),
        Made::Facts => tells(alloc, request, ctx),
        _ => responds(alloc, request, ctx, (Status::NotFound, "own")),
    }
}

fn makes(
    alloc: Global,
    made: Made,
    request: &Request<'_, Site>,
    ctx: &mut Ctx<Site>,
) -> Result<Said, NoMemory>
    ensures grows { MayGrow ctx.old ctx.new }
{
    match made {
        Made::Broken | Made::NoContent | Made::NotModified | Made::Served => {
            Ok(Said::Response(made_alone(alloc, made)?))
        }
        Made::Removal | Made::Cached | Made::Notice => changes(alloc, made, request, ctx),
        _ => makes_text(alloc, made, request, ctx),
    }
}

/// What is said by what needs neither request nor body.
fn says_at_once(act: Act) -> Said {
    match act {
        Act::Passes(code) => Said::Forward(Status::new(code)),
        Act::Errs(code) => Said::Error(Status::new(code)),
        _ => Said::Fault,
    }
}

/// Does what needs no body; the others fail their turn.
pub fn does(
    alloc: Global,
    act: Act,
    request: &Request<'_, Site>,
    ctx: &mut Ctx<Site>,
) -> Result<Said, NoMemory>
    ensures grows { MayGrow ctx.old ctx.new }
{
    match act {
        Act::Greets => greets(alloc, request, ctx),
        Act::Says(text) => responds(alloc, request, ctx, text),
        Act::Makes(made) => makes(alloc, made, request, ctx),
        _ => Ok(says_at_once(act)),
    }
}
