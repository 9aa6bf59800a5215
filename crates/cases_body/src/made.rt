//! Objects, as lines say them.
use crate::objects::{Counts, Listed, Peer};
use crate::setting::{Setting, parse_setting};
use crate::words::quoted;
use cases::{CaseError, numbers};
use rkt_data::{MemorySink, MemorySource};
use std::alloc::Global;
use std::collections::VecDeque;

/// The calls that fail.
fn made_fails(alloc: Global, setting: Setting<'_>) -> Result<Vec<u64>, CaseError> {
    match setting.fails {
        Some(text) => numbers(alloc, text),
        None => Ok(Vec::new(alloc)),
    }
}

fn made_memory(alloc: Global, text: &str, setting: Setting<'_>) -> Result<MemorySource, CaseError> {
    let fails = made_fails(alloc, setting)?;
    let bytes = text.as_bytes().to_vec(alloc)?;
    Ok(MemorySource::new(bytes, setting.chunk, fails))
}

/// The source of `"TEXT" NAME=VALUE ..`.
pub fn made_peer<'a>(
    alloc: Global,
    counts: &'a Counts,
    words: &str,
) -> Result<Peer<'a>, CaseError> {
    let (text, rest) = quoted(words)?;
    let setting = parse_setting(rest)?;
    let memory = made_memory(alloc, text, setting)?;
    Ok(Peer::new(memory, counts, setting.pends))
}

/// A sink that fails as a setting says.
pub fn made_sink(alloc: Global, setting: Setting<'_>) -> Result<MemorySink, CaseError> {
    let fails = made_fails(alloc, setting)?;
    Ok(MemorySink::new(alloc, fails))
}

/// The setting that stands behind the last quote.
fn behind_quotes(words: &str) -> Result<Setting<'_>, CaseError> {
    match words.rsplit_once('"') {
        Some((_, rest)) => parse_setting(rest),
        None => Err(CaseError::Line),
    }
}

fn push_text(
    alloc: Global,
    items: &mut VecDeque<Vec<u8>>,
    number: usize,
    text: &str,
) -> Result<(), CaseError> {
    if number % 2 == 0 {
        return Ok(());
    }
    let bytes = text.as_bytes().to_vec(alloc)?;
    Ok(items.push_back(bytes)?)
}

/// The texts between quotes: each second piece of those that quotes part.
fn texts(alloc: Global, words: &str) -> Result<VecDeque<Vec<u8>>, CaseError> {
    let mut items = VecDeque::new(alloc);
    for (number, text) in words.split('"').enumerate() {
        push_text(alloc, &mut items, number, text)?;
    }
    Ok(items)
}

/// The stream of `"TEXT" "TEXT" .. NAME=VALUE ..`.
pub fn made_pieces(alloc: Global, words: &str) -> Result<Listed<Vec<u8>>, CaseError> {
    let setting = behind_quotes(words)?;
    let items = texts(alloc, words)?;
    Ok(Listed::new(items, setting.pends))
}

fn push_memory(
    alloc: Global,
    items: &mut VecDeque<MemorySource>,
    number: usize,
    text: &str,
    setting: Setting<'_>,
) -> Result<(), CaseError> {
    if number % 2 == 0 {
        return Ok(());
    }
    let memory = made_memory(alloc, text, setting)?;
    Ok(items.push_back(memory)?)
}

/// A source over each text between quotes.
fn memories(
    alloc: Global,
    words: &str,
    setting: Setting<'_>,
) -> Result<VecDeque<MemorySource>, CaseError> {
    let mut items = VecDeque::new(alloc);
    for (number, text) in words.split('"').enumerate() {
        push_memory(alloc, &mut items, number, text, setting)?;
    }
    Ok(items)
}

/// The stream of sources of `"TEXT" "TEXT" .. NAME=VALUE ..`.
pub fn made_sources(alloc: Global, words: &str) -> Result<Listed<MemorySource>, CaseError> {
    let setting = behind_quotes(words)?;
    let items = memories(alloc, words, setting)?;
    Ok(Listed::new(items, setting.pends))
}
