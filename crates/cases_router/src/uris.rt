//! Segments, URIs of routes, and media types.
use crate::refusal::push_misplaced;
use crate::words::media_type;
use cases::{CaseError, first_word, written};
use rkt_base::NoMemory;
use rkt_http::MediaType;
use rkt_router::{Collide, RouteUri, Segment};
use std::alloc::Global;

/// Adds what a segment is read as.
pub fn segment(alloc: Global, text: &str, out: &mut String) -> Result<(), NoMemory> {
    let segment = Segment::from(alloc, text)?;
    let (dynamic, trailing) = (segment.dynamic, segment.trailing);
    let value = segment.value.as_str();
    write!(out, "{value:?} dynamic={dynamic:?} trailing={trailing:?}")
}

/// Adds the whole URI, its base, and its path as it was written.
fn push_origins(uri: &RouteUri, out: &mut String) -> Result<(), NoMemory> {
    let (base, unmounted) = (uri.base_origin().as_str(), uri.unmounted_origin().as_str());
    write!(out, "{uri} base={base} unmounted={unmounted}")
}

/// Adds its path, query and default rank.
fn push_parts(uri: &RouteUri, out: &mut String) -> Result<(), NoMemory> {
    let (path, query, rank) = (uri.path(), uri.query(), uri.default_rank());
    write!(out, " path={path} query={query:?} rank={rank}")
}

/// Whether the other ways to say it say the same.
fn says_the_same(uri: &RouteUri) -> bool {
    uri.base() == uri.base_origin().path() && uri.as_str() == uri.origin().as_str()
}

/// Adds that the other ways say something else.
fn push_doubt(uri: &RouteUri, out: &mut String) -> Result<(), NoMemory> {
    if says_the_same(uri) {
        return Ok(());
    }
    out.push_str(" but")
}

fn push_uri(uri: &RouteUri, out: &mut String) -> Result<(), NoMemory> {
    push_origins(uri, out)?;
    push_parts(uri, out)?;
    push_doubt(uri, out)
}

/// Adds what a base and a path are mounted as.
pub fn uri(alloc: Global, line: &str, out: &mut String) -> Result<(), CaseError> {
    let (base, path) = first_word(line);
    match RouteUri::try_new(alloc, base, path) {
        Ok(uri) => written(push_uri(&uri, out)),
        Err(error) => push_misplaced(error, out),
    }
}

fn push_collide(
    alloc: Global,
    one: &MediaType,
    other: &str,
    out: &mut String,
) -> Result<(), CaseError> {
    let other = media_type(alloc, other)?;
    let collides = one.collides_with(&other);
    written(write!(out, "{collides}"))
}

/// Adds whether two media types collide.
pub fn media(alloc: Global, line: &str, out: &mut String) -> Result<(), CaseError> {
    let (one, other) = first_word(line);
    let one = media_type(alloc, one)?;
    push_collide(alloc, &one, other, out)
}
