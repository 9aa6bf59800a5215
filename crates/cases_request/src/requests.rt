//! Requests, as lines say them.
use crate::words::{field, first_piece};
use cases::{CaseError, first_word, parsed, written};
use rkt_http::{Header, Host, Method, Origin};
use rkt_request::{Mounted, Request};
use sample_app::Sample;
use std::alloc::Global;
use std::net::SocketAddr;

fn method(word: &str) -> Result<Method, CaseError> {
    match Method::from_wire(word) {
        Some(method) => Ok(method),
        None => Err(CaseError::Line),
    }
}

fn header(alloc: Global, text: &str) -> Result<Header, CaseError> {
    let (name, value) = field(text)?;
    Header::new(alloc, name, value).map_err(CaseError::from)
}

/// The method and the target of a request that begins with `METHOD TARGET`.
pub fn method_and_target(text: &str) -> Result<(Method, &str), CaseError> {
    let (word, target) = first_word(first_piece(text));
    Ok((method(word)?, target))
}

fn set_route(request: &mut Request<'_, Sample>, text: &str) -> Result<(), CaseError> {
    let (position, base) = first_word(text);
    let position = parsed::<usize>(position)?;
    let base_segments = parsed::<usize>(base)?;
    request.set_route(Mounted {
        position,
        base_segments,
    });
    Ok(())
}

fn add(alloc: Global, request: &mut Request<'_, Sample>, text: &str) -> Result<(), CaseError> {
    let header = header(alloc, text)?;
    written(request.add_header(header))
}

fn replace(alloc: Global, request: &mut Request<'_, Sample>, text: &str) -> Result<(), CaseError> {
    let header = header(alloc, text)?;
    written(request.replace_header(header))
}

/// Takes a step that changes the headers or the route.
fn take_change(
    alloc: Global,
    request: &mut Request<'_, Sample>,
    command: &str,
    text: &str,
) -> Result<(), CaseError> {
    match command {
        "add" => add(alloc, request, text),
        "replace" => replace(alloc, request, text),
        "route" => set_route(request, text),
        _ => Err(CaseError::Line),
    }
}

fn take_step(
    alloc: Global,
    request: &mut Request<'_, Sample>,
    step: &str,
) -> Result<(), CaseError> {
    let (command, text) = first_word(step);
    match command {
        "method" => request.set_method(method(text)?),
        "uri" => request.set_uri(Origin::parse(alloc, text)?),
        "host" => request.set_host(Host::parse(alloc, text)?),
        "remote" => request.set_remote(parsed::<SocketAddr>(text)?),
        _ => return take_change(alloc, request, command, text),
    }
    Ok(())
}

/// Takes the steps of `METHOD TARGET | STEP | ..`.
pub fn take_steps(
    alloc: Global,
    request: &mut Request<'_, Sample>,
    text: &str,
) -> Result<(), CaseError> {
    for step in text.split(" | ").skip(1) {
        take_step(alloc, request, step)?;
    }
    Ok(())
}
