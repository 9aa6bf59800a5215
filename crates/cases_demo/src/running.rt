//! Runs over a script and streams in memory.
use crate::trickle::Trickle;
use rkt_data::{MemorySink, MemorySource};
use rkt_demo::run;
use rkt_serve::ListClock;
use std::alloc::{AllocError, Global};
use std::sync::Wait;
use std::thread::Threads;

/// What a run is handed.
#[derive(Drop)]
pub struct Run {
    pub words: Vec<String>,
    pub source: MemorySource,
    pub sink: Trickle,
}

/// A sink of which these writes fail.
pub fn sink(alloc: Global, writes: Vec<u64>) -> Trickle {
    Trickle::new(MemorySink::new(alloc, writes))
}

/// The exit status.
pub fn status<R: Wait + Threads>(rt: &R, alloc: Global, asked: &mut Run) -> u8 {
    let clock = ListClock::new(Vec::new(alloc));
    run(
        rt,
        alloc,
        asked.words.as_slice(),
        &mut asked.source,
        &mut asked.sink,
        clock,
    )
}

fn written(alloc: Global, status: u8, bytes: &[u8]) -> Result<String, AllocError> {
    let text = String::from_utf8_lossy(alloc, bytes)?;
    format!(in alloc; "{status}, {} bytes {:?}", bytes.len(), text.as_str())
}

/// The status and what was written.
pub fn outcome<R: Wait + Threads>(
    rt: &R,
    alloc: Global,
    asked: &mut Run,
) -> Result<String, AllocError> {
    let status = status(rt, alloc, asked);
    written(alloc, status, asked.sink.bytes())
}

/// The status and how much was written.
pub fn summary<R: Wait + Threads>(
    rt: &R,
    alloc: Global,
    asked: &mut Run,
) -> Result<String, AllocError> {
    let status = status(rt, alloc, asked);
    format!(in alloc; "{status}, {} bytes", asked.sink.bytes().len())
}
