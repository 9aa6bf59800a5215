//! A stream of sources as a responder. The application that is asked then has no other streamed bodies.
use crate::shown::respond_under;
use crate::texts::source;
use cases::CaseError;
use rkt_base::NoMemory;
use rkt_cookie::CookieJar;
use rkt_data::{MemorySource, One};
use rkt_http::{Method, Origin};
use rkt_request::{Ctx, Request, Types};
use rkt_response::responder::stream::ReaderStream;
use rkt_turn::TripWire;
use sample_app::{Server, Stopped, gate_at};
use std::alloc::Global;

/// The application, by its types.
struct Streaming;

impl Types for Streaming {
    type Source = MemorySource;

    type Stream = ReaderStream<One<MemorySource>>;

    type Cached = u8;

    type Value = u8;

    type Reason = Stopped;
}

fn request(alloc: Global, server: &Server, uri: Origin) -> Request<'_, Streaming> {
    Request::new(alloc, &server.config, &server.managed, Method::Get, uri)
}

fn context(alloc: Global) -> Result<Ctx<Streaming>, NoMemory> {
    let (_wire, shutdown) = TripWire::<Stopped>::new(alloc)?;
    Ok(Ctx::new(alloc, CookieJar::new(alloc), shutdown, gate_at(0)))
}

fn stream_under(
    alloc: Global,
    request: &Request<'_, Streaming>,
    ctx: &mut Ctx<Streaming>,
    text: &str,
    out: &mut String,
) -> Result<(), CaseError> {
    let source = source(alloc, text)?;
    respond_under(alloc, request, ctx, ReaderStream::one(source), out)
}

fn stream_to(
    alloc: Global,
    request: &Request<'_, Streaming>,
    text: &str,
    out: &mut String,
) -> Result<(), CaseError> {
    let mut ctx = context(alloc)?;
    stream_under(alloc, request, &mut ctx, text, out)
}

/// Adds what the stream of one source answers.
pub fn reader_stream(
    alloc: Global,
    server: &Server,
    text: &str,
    out: &mut String,
) -> Result<(), CaseError> {
    let uri = Origin::parse(alloc, "/")?;
    let request = request(alloc, server, uri);
    let streamed = stream_to(alloc, &request, text, out);
    drop(request);
    streamed
}
