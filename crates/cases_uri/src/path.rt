//! Cases of segments.
use crate::refusal::Refusal;
use crate::shown::push_segments;
use crate::words::numbered;
use cases::first_word;
use rkt_base::{NoMemory, Seq, Text};
use rkt_uri::{Origin, Segments};
use std::alloc::Global;

/// Adds the path of the file system that segments walk to.
fn push_path(
    alloc: Global,
    dots: bool,
    segments: Segments<'_>,
    out: &mut String,
) -> Result<(), Refusal> {
    let path = segments.to_path_buf(alloc, dots)?;
    Ok(out.push_str(path.as_str())?)
}

/// Adds what a command asks of the segments from a number on.
fn push_from_number(
    alloc: Global,
    command: &str,
    number: usize,
    segments: Segments<'_>,
    out: &mut String,
) -> Result<(), Refusal> {
    match command {
        "segment" => Ok(write!(out, "{:?}", segments.get(number))?),
        "path" => push_path(alloc, false, segments.skip(number), out),
        "dotted" => push_path(alloc, true, segments.skip(number), out),
        _ => Ok(push_segments(&segments.skip(number), out)?),
    }
}

/// Adds what a command with a number answers.
pub fn push_numbered(
    alloc: Global,
    command: &str,
    rest: &str,
    out: &mut String,
) -> Result<(), Refusal> {
    let (number, text) = numbered(rest)?;
    let origin = Origin::parse(alloc, text)?;
    push_from_number(alloc, command, number, origin.segments(), out)
}

fn push_name(alloc: Global, names: &mut Seq<Text>, name: &str) -> Result<(), NoMemory> {
    let name = Text::new(alloc, name)?;
    names.push(name)
}

/// What the commas part, with what is empty between them.
fn names_of(alloc: Global, text: &str) -> Result<Seq<Text>, NoMemory> {
    let mut names = Seq::new(alloc);
    for name in text.split(',') {
        push_name(alloc, &mut names, name)?;
    }
    Ok(names)
}

/// Adds the path of the file system that segments walk to which are listed one by one.
pub fn push_named(alloc: Global, text: &str, out: &mut String) -> Result<(), Refusal> {
    let names = names_of(alloc, text)?;
    push_path(alloc, false, Segments::new(names.as_slice()), out)
}

/// What a command asks of two lists of segments.
fn compare(command: &str, ones: Segments<'_>, others: Segments<'_>) -> bool {
    match command {
        "front" => ones.prefix_of(others),
        _ => ones == others,
    }
}

fn compared(alloc: Global, command: &str, one: &Origin, text: &str) -> Result<bool, Refusal> {
    let other = Origin::parse(alloc, text)?;
    Ok(compare(command, one.segments(), other.segments()))
}

/// Whether what a command says holds of the origins of two texts.
fn holds_of(alloc: Global, command: &str, one: &str, other: &str) -> Result<bool, Refusal> {
    let one = Origin::parse(alloc, one)?;
    compared(alloc, command, &one, other)
}

/// Adds what a command with two origins answers.
pub fn push_compared(
    alloc: Global,
    command: &str,
    rest: &str,
    out: &mut String,
) -> Result<(), Refusal> {
    let (one, other) = first_word(rest);
    let holds = holds_of(alloc, command, one, other)?;
    Ok(write!(out, "{holds}")?)
}
