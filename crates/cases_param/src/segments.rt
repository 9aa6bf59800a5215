//! Cases of several segments.
use crate::read::read_segments;
use cases::{CaseError, first_word};
use rkt_base::{NoMemory, Text};
use rkt_uri::{PathBuf, PathError, Segments};
use std::alloc::Global;

fn push_segment(alloc: Global, list: &mut Vec<Text>, segment: &str) -> Result<(), NoMemory> {
    let segment = Text::new(alloc, segment)?;
    Ok(list.push(segment)?)
}

/// Adds the segments that stand behind a bar each.
fn push_segments(alloc: Global, list: &mut Vec<Text>, text: &str) -> Result<(), NoMemory> {
    for segment in text.split('|').skip(1) {
        push_segment(alloc, list, segment)?;
    }
    Ok(())
}

fn read_as(
    alloc: Global,
    name: &str,
    segments: Segments<'_>,
    out: &mut String,
) -> Result<(), CaseError> {
    match name {
        "PathBuf" => read_segments::<PathBuf>(alloc, segments, out),
        "Vec<String>" => read_segments::<Vec<String>>(alloc, segments, out),
        "Option<PathBuf>" => read_segments::<Option<PathBuf>>(alloc, segments, out),
        "Result<PathBuf>" => read_segments::<Result<PathBuf, PathError>>(alloc, segments, out),
        _ => Err(CaseError::Line),
    }
}

/// Adds what the segments of `TYPE LIST` give.
pub fn segments_answer(alloc: Global, line: &str, out: &mut String) -> Result<(), CaseError> {
    let (name, text) = first_word(line);
    let mut list = Vec::new(alloc);
    push_segments(alloc, &mut list, text)?;
    read_as(alloc, name, Segments::new(list.as_slice()), out)
}
