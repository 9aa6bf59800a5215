use crate::events::events;
use crate::fails::fails;
use crate::running::{Run, outcome, sink, summary};
use crate::words::{script, words};
use cases::{CaseError, first_word, numbers};
use rkt_data::MemorySource;
use std::alloc::{AllocError, Global};
use std::sync::Wait;
use std::thread::Threads;

const CHUNK: usize = 4;

const LARGE_CHUNK: usize = 65_536;

/// The source of `READS SCRIPT`, where the reads come apart.
fn source(alloc: Global, reads: &str, text: &str) -> Result<MemorySource, CaseError> {
    let reads = numbers(alloc, reads)?;
    let script = script(alloc, text)?;
    Ok(MemorySource::new(script.into_bytes(), CHUNK, reads))
}

/// The run of `WORDS READS WRITES SCRIPT`.
fn run_of(alloc: Global, text: &str) -> Result<Run, CaseError> {
    let (named, rest) = first_word(text);
    let (reads, rest) = first_word(rest);
    let (writes, text) = first_word(rest);
    let sink = sink(alloc, numbers(alloc, writes)?);
    let source = source(alloc, reads, text)?;
    let words = words(alloc, named)?;
    Ok(Run {
        words,
        source,
        sink,
    })
}

/// One request line of so many bytes, without a line feed.
fn long_line(alloc: Global, count: usize) -> Result<Vec<u8>, AllocError> {
    let mut line = b"GET /".to_vec(alloc)?;
    line.resize(count, b'a')?;
    Ok(line)
}

fn long_run(alloc: Global, count: usize) -> Result<Run, CaseError> {
    let line = long_line(alloc, count)?;
    let source = MemorySource::new(line, LARGE_CHUNK, Vec::new(alloc));
    let words = words(alloc, "serve")?;
    let sink = sink(alloc, Vec::new(alloc));
    Ok(Run {
        words,
        source,
        sink,
    })
}

fn run_case<R: Wait + Threads>(rt: &R, alloc: Global, text: &str) -> Result<String, CaseError> {
    let mut asked = run_of(alloc, text)?;
    Ok(outcome(rt, alloc, &mut asked)?)
}

fn long_case<R: Wait + Threads>(rt: &R, alloc: Global, count: usize) -> Result<String, CaseError> {
    let mut asked = long_run(alloc, count)?;
    Ok(summary(rt, alloc, &mut asked)?)
}

/// What a case answers.
pub fn answer<R: Wait + Threads>(rt: &R, alloc: Global, line: &str) -> Result<String, CaseError> {
    let (command, rest) = first_word(line);
    match (command, rest.parse::<u32>()) {
        ("run", _) => run_case(rt, alloc, rest),
        ("events", _) => events(rt, alloc, rest),
        ("fails", _) => fails(rt, alloc, rest),
        ("long", Ok(count)) => long_case(rt, alloc, count as usize),
        _ => Err(CaseError::Line),
    }
}
