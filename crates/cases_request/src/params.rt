//! Parameters of requests, by the names of their types.
use crate::shown::Shown;
use cases::{CaseError, written};
use rkt_base::{NoMemory, Want};
use rkt_http::{PathBuf, PathError, Segments};
use rkt_request::{FromParam, FromSegments, Request};
use sample_app::Sample;
use std::alloc::Global;
use std::fmt::Debug;

/// Adds a value, or the error in its place.
fn push_read<P: Shown, E: Debug>(
    alloc: Global,
    read: &Result<P, Want<E>>,
    out: &mut String,
) -> Result<(), CaseError> {
    match read {
        Ok(value) => value.show(alloc, out),
        Err(Want::Refused(error)) => written(write!(out, "refused {error:?}")),
        Err(Want::NoMemory) => Err(CaseError::NoMemory),
    }
}

/// Adds what a segment gives, through the bound.
fn push_one<P: FromParam + Shown + Drop>(
    alloc: Global,
    request: &Request<'_, Sample>,
    n: usize,
    out: &mut String,
) -> Result<(), CaseError>
where
    P::Error: Debug,
{
    match request.param::<P>(alloc, n) {
        Some(read) => push_read(alloc, &read, out),
        None => written(out.push_str("none")),
    }
}

/// Adds what a segment gives as a value of a type.
pub fn push_param(
    alloc: Global,
    name: &str,
    request: &Request<'_, Sample>,
    n: usize,
    out: &mut String,
) -> Result<(), CaseError> {
    match name {
        "String" => push_one::<String>(alloc, request, n, out),
        "u8" => push_one::<u8>(alloc, request, n, out),
        "Option<u8>" => push_one::<Option<u8>>(alloc, request, n, out),
        "PathBuf" => push_one::<PathBuf>(alloc, request, n, out),
        _ => Err(CaseError::Line),
    }
}

/// Adds what the segments from one on give, through the bound.
fn push_from<P: FromSegments + Shown + Drop>(
    alloc: Global,
    request: &Request<'_, Sample>,
    n: usize,
    out: &mut String,
) -> Result<(), CaseError>
where
    P::Error: Debug,
{
    push_read(alloc, &request.segments::<P>(alloc, n..), out)
}

/// Adds what the segments from one on give as a value of a type.
pub fn push_params(
    alloc: Global,
    name: &str,
    request: &Request<'_, Sample>,
    n: usize,
    out: &mut String,
) -> Result<(), CaseError> {
    match name {
        "PathBuf" => push_from::<PathBuf>(alloc, request, n, out),
        "Option<PathBuf>" => push_from::<Option<PathBuf>>(alloc, request, n, out),
        "Result<PathBuf>" => push_from::<Result<PathBuf, PathError>>(alloc, request, n, out),
        "Vec<String>" => push_from::<Vec<String>>(alloc, request, n, out),
        _ => Err(CaseError::Line),
    }
}

pub fn push_segment(
    request: &Request<'_, Sample>,
    n: usize,
    out: &mut String,
) -> Result<(), NoMemory> {
    match request.routed_segment(n) {
        Some(segment) => write!(out, "{segment:?}"),
        None => out.push_str("none"),
    }
}

fn push_each(segments: Segments<'_>, out: &mut String) -> Result<(), NoMemory> {
    for n in 0..segments.len() {
        let segment = segments.get(n).unwrap_or("");
        write!(out, "|{segment}")?;
    }
    Ok(())
}

/// Adds how many segments there are from one on, and each behind a bar.
pub fn push_segments(
    request: &Request<'_, Sample>,
    n: usize,
    out: &mut String,
) -> Result<(), NoMemory> {
    let segments = request.routed_segments(n..);
    write!(out, "{}", segments.len())?;
    push_each(segments, out)
}
