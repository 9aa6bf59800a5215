//! Cases of origins.
use crate::refusal::Refusal;
use crate::shown::{push_fields, push_pieces, push_segments};
use rkt_base::NoMemory;
use rkt_uri::Origin;
use std::alloc::Global;

fn push_path_and_query(origin: &Origin, out: &mut String) -> Result<(), NoMemory> {
    let (path, query) = (origin.path(), origin.query());
    write!(out, "path={path:?} query={query:?}")
}

/// Adds the path and the query, as a copy has them.
fn push_parts(alloc: Global, origin: &Origin, out: &mut String) -> Result<(), NoMemory> {
    let copy = origin.try_clone(alloc)?;
    push_path_and_query(&copy, out)
}

fn push_told(
    alloc: Global,
    command: &str,
    origin: &Origin,
    out: &mut String,
) -> Result<(), NoMemory> {
    match command {
        "origin" | "route" => push_parts(alloc, origin, out),
        "segments" => push_segments(&origin.segments(), out),
        "raw" => push_pieces(origin, out),
        "fields" => push_fields(origin, out),
        _ => out.push_str(origin.as_str()),
    }
}

/// The origin that a command asks about: that of a route, of a request, its normal form, or without its query.
fn asked(alloc: Global, command: &str, text: &str) -> Result<Origin, Refusal> {
    if command == "route" {
        return Ok(Origin::parse_route(alloc, text)?);
    }
    let mut origin = Origin::parse(alloc, text)?;
    match command {
        "normal" => Ok(origin.into_normalized(alloc)?),
        "cleared" => {
            origin.clear_query();
            Ok(origin)
        }
        _ => Ok(origin),
    }
}

/// Adds what a command answers that is about one origin.
pub fn push_origin(
    alloc: Global,
    command: &str,
    text: &str,
    out: &mut String,
) -> Result<(), Refusal> {
    let origin = asked(alloc, command, text)?;
    Ok(push_told(alloc, command, &origin, out)?)
}
