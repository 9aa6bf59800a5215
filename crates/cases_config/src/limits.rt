//! Cases of limits, which are kept from line to line.
use crate::words::numbered;
use cases::{CaseError, first_word};
use rkt_base::NoMemory;
use rkt_config::Limits;
use rkt_data::ByteUnit;
use std::alloc::Global;

fn push_bytes_or_none(limit: Option<ByteUnit>, out: &mut String) -> Result<(), NoMemory> {
    match limit {
        Some(limit) => write!(out, "{}", limit.0),
        None => out.push_str("none"),
    }
}

/// A copy of limits with one that is set.
fn with_limit(limits: &Limits, name: &str, bytes: u64) -> Result<Limits, NoMemory> {
    limits.try_clone()?.limit(name, ByteUnit(bytes))
}

/// Sets the limit that `NAME BYTES` says.
fn set(limits: &mut Limits, text: &str) -> Result<(), CaseError> {
    let (name, bytes) = numbered(text)?;
    *limits = with_limit(limits, name, bytes)?;
    Ok(())
}

fn push_layer(alloc: Global, layers: &mut Vec<String>, layer: &str) -> Result<(), NoMemory> {
    let layer = String::from_str(alloc, layer)?;
    Ok(layers.push(layer)?)
}

/// The layers that stand behind a bar each.
fn layers(alloc: Global, text: &str) -> Result<Vec<String>, NoMemory> {
    let mut layers = Vec::new(alloc);
    for layer in text.split('|').skip(1) {
        push_layer(alloc, &mut layers, layer)?;
    }
    Ok(layers)
}

/// Adds the limit of some layers.
fn push_found(
    alloc: Global,
    limits: &Limits,
    text: &str,
    out: &mut String,
) -> Result<(), NoMemory> {
    let layers = layers(alloc, text)?;
    push_bytes_or_none(limits.find(layers.as_slice()), out)
}

/// Adds whether the limits equal a copy in which one is set.
fn push_same(limits: &Limits, text: &str, out: &mut String) -> Result<(), CaseError> {
    let (name, bytes) = numbered(text)?;
    let other = with_limit(limits, name, bytes)?;
    let same = *limits == other;
    Ok(write!(out, "{same}")?)
}

/// Adds what limits tell that are only asked.
fn push_told(
    alloc: Global,
    limits: &Limits,
    command: &str,
    rest: &str,
    out: &mut String,
) -> Result<(), CaseError> {
    match command {
        "get" => Ok(push_bytes_or_none(limits.get(rest), out)?),
        "find" => Ok(push_found(alloc, limits, rest, out)?),
        "same" => push_same(limits, rest, out),
        _ => Err(CaseError::Line),
    }
}

/// Adds what limits answer to a command: behind a change, how they print, in quotes.
pub fn push_limits(
    alloc: Global,
    limits: &mut Limits,
    line: &str,
    out: &mut String,
) -> Result<(), CaseError> {
    let (command, rest) = first_word(line);
    match command {
        "new" => *limits = Limits::new(alloc),
        "default" => *limits = Limits::default(alloc)?,
        "set" => set(limits, rest)?,
        _ => return push_told(alloc, limits, command, rest, out),
    }
    Ok(write!(out, "\"{}\"", limits)?)
}
