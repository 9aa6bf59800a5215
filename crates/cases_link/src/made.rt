//! Links over the ends of pipes, as lines say them.
use cases::{CaseError, first_word, numbers, parsed};
use rkt_base::{NoMemory, Seq, Text};
use rkt_request::Head;
use sample_link::{Calls, PipeSink, PipeSource, StreamLink};
use std::alloc::Global;

pub type PipeLink = StreamLink<PipeSource, PipeSink>;

/// The head of a request without headers.
pub fn made_head(alloc: Global, method: &str, target: &str) -> Result<Head, NoMemory> {
    let method = Text::new(alloc, method)?;
    let target = Text::new(alloc, target)?;
    Ok(Head {
        method,
        target,
        headers: Seq::new(alloc),
        remote: None,
    })
}

/// The calls of which these are Pending, and these fail.
pub fn made_calls(alloc: Global, pends: &str, fails: &str) -> Result<Calls, CaseError> {
    let pends = numbers(alloc, pends)?;
    let fails = numbers(alloc, fails)?;
    Ok(Calls::new(pends, fails))
}

fn closed_after(word: &str) -> Result<usize, CaseError> {
    if word == "-" {
        return Ok(usize::MAX);
    }
    parsed::<usize>(word)
}

/// The sink of `ROOM PENDS FAILS CLOSED`.
fn made_sink(alloc: Global, words: &str) -> Result<PipeSink, CaseError> {
    let (room, words) = first_word(words);
    let (pends, words) = first_word(words);
    let (fails, closed) = first_word(words);
    let room = parsed::<usize>(room)?;
    let closed_after = closed_after(closed)?;
    let calls = made_calls(alloc, pends, fails)?;
    Ok(PipeSink::new(alloc, room, closed_after, calls))
}

fn quiet_calls(alloc: Global) -> Calls {
    Calls::new(Vec::new(alloc), Vec::new(alloc))
}

fn link_to(alloc: Global, head: Head, sink: PipeSink) -> PipeLink {
    let source = PipeSource::new(Vec::new(alloc), 1, quiet_calls(alloc));
    StreamLink::new(alloc, head, source, sink)
}

/// A link whose request has no body, over the sink of `ROOM PENDS FAILS CLOSED`.
pub fn link_over(alloc: Global, words: &str) -> Result<PipeLink, CaseError> {
    let sink = made_sink(alloc, words)?;
    let head = made_head(alloc, "GET", "/")?;
    Ok(link_to(alloc, head, sink))
}

/// A link whose request has this head and no body.
pub fn link_with(alloc: Global, head: Head) -> PipeLink {
    link_to(alloc, head, PipeSink::new(alloc, 1, 0, quiet_calls(alloc)))
}

/// A link whose body comes in pieces of at most `chunk` bytes.
pub fn link_from(alloc: Global, head: Head, body: Vec<u8>, chunk: usize, calls: Calls) -> PipeLink {
    let source = PipeSource::new(body, chunk, calls);
    let sink = PipeSink::new(alloc, 1, 0, quiet_calls(alloc));
    StreamLink::new(alloc, head, source, sink)
}
