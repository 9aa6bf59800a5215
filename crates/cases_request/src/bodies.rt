//! Guards of bodies, by the names of their types.
use crate::shown::{Shown, show_error, show_forward, show_named};
use crate::words::unescaped;
use cases::{CaseError, first_word, numbers, parsed, written};
use rkt_base::{NoMemory, Poll};
use rkt_data::{CancellableIo, Capped, Data, MemorySource};
use rkt_http::{Outcome, Status};
use rkt_request::{Body0, FromData, GuardError, Request};
use sample_app::{Sample, gate_at};
use std::alloc::Global;
use std::fmt::Debug;

type Answer<G, E> = Outcome<G, (Status, E), (Body0<Sample>, Status)>;

/// What a guard answers, where the line is of the language.
type Polled<G, E> = Result<Answer<G, E>, CaseError>;

/// Adds what a guard answers.
fn push_polled<G: Shown, E: Debug>(
    alloc: Global,
    polled: &Polled<G, E>,
    out: &mut String,
) -> Result<(), CaseError> {
    match polled {
        Ok(Outcome::Success(value)) => show_named(alloc, "Success", value, out),
        Ok(Outcome::Error((status, error))) => written(show_error(*status, error, out)),
        Ok(Outcome::Forward((_body, status))) => written(show_forward(*status, out)),
        Err(error) => Err(*error),
    }
}

/// What was polled. What waits makes no case.
fn ready<V>(poll: Poll<Result<V, NoMemory>>) -> Result<V, CaseError> {
    match poll {
        Poll::Ready(Ok(value)) => Ok(value),
        Poll::Ready(Err(_)) => Err(CaseError::NoMemory),
        Poll::Pending => Err(CaseError::Line),
    }
}

/// What a guard answers of the body of `CHUNK FAILS BYTES`, through the bound.
fn polled<G: FromData<Sample>>(
    alloc: Global,
    request: &Request<'_, Sample>,
    text: &str,
) -> Polled<G, G::Error> {
    let body = body_of(alloc, text)?;
    let mut reading = G::from_data(request, body);
    ready(G::poll_data(alloc, &mut reading, gate_at(0)))
}

fn push_guarded<G: FromData<Sample> + Shown + Drop>(
    alloc: Global,
    request: &Request<'_, Sample>,
    text: &str,
    out: &mut String,
) -> Result<(), CaseError>
where
    G::Error: Debug,
{
    push_polled(alloc, &polled::<G>(alloc, request, text), out)
}

/// Adds what a body has to read first.
fn push_peeked(body: &mut Body0<Sample>, out: &mut String) -> Result<(), CaseError> {
    match body.peek(gate_at(0), 9) {
        Poll::Ready(bytes) => written(write!(out, "peeked {bytes:?}")),
        Poll::Pending => Err(CaseError::Line),
    }
}

/// Adds a body that is handed on.
fn push_handed_on(
    alloc: Global,
    request: &Request<'_, Sample>,
    text: &str,
    out: &mut String,
) -> Result<(), CaseError> {
    match polled::<Body0<Sample>>(alloc, request, text) {
        Ok(Outcome::Success(mut body)) => push_peeked(&mut body, out),
        Ok(_) => Err(CaseError::Line),
        Err(error) => Err(error),
    }
}

fn push_option_or_result(
    alloc: Global,
    name: &str,
    request: &Request<'_, Sample>,
    text: &str,
    out: &mut String,
) -> Result<(), CaseError> {
    match name {
        "Option<String>" => push_guarded::<Option<String>>(alloc, request, text, out),
        "Result<String>" => push_guarded::<Result<String, GuardError>>(alloc, request, text, out),
        _ => Err(CaseError::Line),
    }
}

fn push_capped(
    alloc: Global,
    name: &str,
    request: &Request<'_, Sample>,
    text: &str,
    out: &mut String,
) -> Result<(), CaseError> {
    match name {
        "Capped<String>" => push_guarded::<Capped<String>>(alloc, request, text, out),
        "Capped<Vec<u8>>" => push_guarded::<Capped<Vec<u8>>>(alloc, request, text, out),
        _ => push_option_or_result(alloc, name, request, text, out),
    }
}

/// The source of `CHUNK FAILS BYTES`.
fn source(alloc: Global, text: &str) -> Result<MemorySource, CaseError> {
    let (chunk, rest) = first_word(text);
    let (fails, bytes) = first_word(rest);
    let chunk = parsed::<usize>(chunk)?;
    let fails = numbers(alloc, fails)?;
    let bytes = unescaped(alloc, bytes)?;
    Ok(MemorySource::new(bytes, chunk, fails))
}

fn body_over(alloc: Global, source: MemorySource) -> Result<Body0<Sample>, NoMemory> {
    Data::from_source(alloc, CancellableIo::new(source))
}

fn body_of(alloc: Global, text: &str) -> Result<Body0<Sample>, CaseError> {
    match body_over(alloc, source(alloc, text)?) {
        Ok(body) => Ok(body),
        Err(_) => Err(CaseError::NoMemory),
    }
}

/// Adds the outcome of the guard of `TYPE CHUNK FAILS BYTES`.
pub fn push_body_guard(
    alloc: Global,
    request: &Request<'_, Sample>,
    line: &str,
    out: &mut String,
) -> Result<(), CaseError> {
    let (name, text) = first_word(line);
    match name {
        "Data" => push_handed_on(alloc, request, text, out),
        "String" => push_guarded::<String>(alloc, request, text, out),
        "Vec<u8>" => push_guarded::<Vec<u8>>(alloc, request, text, out),
        _ => push_capped(alloc, name, request, text, out),
    }
}
