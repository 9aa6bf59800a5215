//! Lists, as answers show them: how many items there are, and each behind a bar.
use rkt_base::NoMemory;
use rkt_uri::{Origin, QueryFields, RawSegments, Segments};

fn push_items(segments: &Segments<'_>, out: &mut String) -> Result<(), NoMemory> {
    for at in 0..segments.len() {
        write!(out, "|{}", segments.get(at).unwrap_or(""))?;
    }
    Ok(())
}

/// Adds the segments.
pub fn push_segments(segments: &Segments<'_>, out: &mut String) -> Result<(), NoMemory> {
    write!(out, "{}", segments.len())?;
    push_items(segments, out)
}

fn count_of(pieces: RawSegments<'_>) -> u64 {
    let mut count = 0u64;
    for _ in pieces {
        count = count.wrapping_add(1);
    }
    count
}

fn push_each_piece(pieces: RawSegments<'_>, out: &mut String) -> Result<(), NoMemory> {
    for piece in pieces {
        write!(out, "|{piece}")?;
    }
    Ok(())
}

/// Adds the pieces of an origin's path as they stand.
pub fn push_pieces(origin: &Origin, out: &mut String) -> Result<(), NoMemory> {
    write!(out, "{}", count_of(origin.raw_segments()))?;
    push_each_piece(origin.raw_segments(), out)
}

fn push_field(name: &str, value: &str, out: &mut String) -> Result<(), NoMemory> {
    write!(out, "|{name}={value}")
}

fn push_each_field(fields: QueryFields<'_>, out: &mut String) -> Result<(), NoMemory> {
    for (name, value) in fields {
        push_field(name, value, out)?;
    }
    Ok(())
}

/// Adds the decoded fields of an origin's query.
pub fn push_fields(origin: &Origin, out: &mut String) -> Result<(), NoMemory> {
    write!(out, "{}", origin.query_fields().count())?;
    push_each_field(origin.query_fields(), out)
}
