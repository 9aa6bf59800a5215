//! Cases of headers, and of texts that are compared without regard to case.
use crate::words::named;
use cases::{CaseError, first_word, written};
use rkt_base::NoMemory;
use rkt_http::{Header, Uncased};
use std::alloc::Global;

/// Adds a header as a line.
pub fn push_line(header: &Header, out: &mut String) -> Result<(), NoMemory> {
    let (name, value) = (header.name().as_str(), header.value());
    write!(out, "{name}: {value}")
}

/// The header that a text says.
pub fn made_header(alloc: Global, text: &str) -> Result<Header, CaseError> {
    let (name, value) = named(text)?;
    Ok(Header::new(alloc, name, value)?)
}

fn push_copy(alloc: Global, header: &Header, out: &mut String) -> Result<(), NoMemory> {
    let copy = header.try_clone(alloc)?;
    push_line(&copy, out)
}

/// Adds the header that a text says, as a copy has it.
pub fn push_header(alloc: Global, text: &str, out: &mut String) -> Result<(), CaseError> {
    let header = made_header(alloc, text)?;
    written(push_copy(alloc, &header, out))
}

fn push_compared(one: &Uncased, other: &Uncased, out: &mut String) -> Result<(), NoMemory> {
    write!(out, "{} {}", one.as_str(), one == other)
}

fn push_copy_compared(
    alloc: Global,
    one: &Uncased,
    other: &str,
    out: &mut String,
) -> Result<(), NoMemory> {
    let copy = one.try_clone(alloc)?;
    let other = Uncased::new(alloc, other)?;
    push_compared(&copy, &other, out)
}

/// Adds how a word is spelled, and whether it is the same as the other, as a copy has it.
pub fn push_uncased(alloc: Global, rest: &str, out: &mut String) -> Result<(), NoMemory> {
    let (one, other) = first_word(rest);
    let one = Uncased::new(alloc, one)?;
    push_copy_compared(alloc, &one, other, out)
}
