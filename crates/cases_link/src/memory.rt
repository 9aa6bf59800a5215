//! What stands for the outside in memory: a link, a listener and a clock, asked one call after another.
use crate::made::made_head;
use crate::reads::{GATE, ROOM};
use cases::{CaseError, first_word, numbers, parsed, push_item, written};
use rkt_base::{NoMemory, Poll};
use rkt_data::{CancellableIo, Source};
use rkt_link::{
    Accepted, CancellableListener, Clock, Link, Links, ListClock, ListListener, Listener,
    MemoryLink,
};
use std::alloc::Global;
use std::str;

fn push_link(alloc: Global, links: &mut Links, words: &str) -> Result<(), NoMemory> {
    let (method, target) = first_word(words);
    let head = made_head(alloc, method, target)?;
    links.push(alloc, head, Vec::new(alloc))
}

/// The links of `METHOD TARGET | METHOD TARGET ..`.
fn made_links(alloc: Global, text: &str) -> Result<Links, NoMemory> {
    let mut links = Links::new(alloc);
    if text.is_empty() {
        return Ok(links);
    }
    for words in text.split(" | ") {
        push_link(alloc, &mut links, words)?;
    }
    Ok(links)
}

fn made_listener(
    alloc: Global,
    pends: Vec<u64>,
    fails: &[u64],
    links: &str,
) -> Result<ListListener, NoMemory> {
    let fails = fails.to_vec(alloc)?;
    let links = made_links(alloc, links)?;
    ListListener::new(alloc, links.into_vec(), pends, fails)
}

fn polled(listener: &mut ListListener) -> &'static str {
    match listener.poll_accept() {
        Poll::Ready(Accepted::Given(_)) => "given",
        Poll::Ready(Accepted::End) => "end",
        Poll::Ready(Accepted::Fault) => "fault",
        Poll::Pending => "pending",
    }
}

fn push_all_polled(
    listener: &mut ListListener,
    count: u64,
    out: &mut String,
) -> Result<(), NoMemory> {
    for _ in 0..count {
        push_item(out, polled(listener))?;
    }
    Ok(())
}

/// How often the listener is polled, and that listener, of `POLLS COUNT LINK | LINK ..`.
fn read_polls(alloc: Global, fails: &[u64], words: &str) -> Result<(u64, ListListener), CaseError> {
    let (pends, words) = first_word(words);
    let (count, links) = first_word(words);
    let count = parsed::<u64>(count)?;
    let pends = numbers(alloc, pends)?;
    Ok((count, made_listener(alloc, pends, fails, links)?))
}

/// `POLLS COUNT LINK | LINK ..`, where the polls of these numbers fail.
pub fn push_polls(
    alloc: Global,
    fails: &[u64],
    words: &str,
    out: &mut String,
) -> Result<(), CaseError> {
    let (count, mut listener) = read_polls(alloc, fails, words)?;
    written(push_all_polled(&mut listener, count, out))
}

/// The target that a link asks, and whether a trip has been seen at it.
fn push_cuttable(link: &CancellableIo<MemoryLink>, out: &mut String) -> Result<(), NoMemory> {
    let stage = match link.saw() {
        None => "active",
        Some(_) => "warned",
    };
    push_item(out, stage)?;
    out.push_str(" ")?;
    out.push_str(link.kept().head().target.as_str())
}

fn push_cuttable_polled(
    listener: &mut CancellableListener<ListListener>,
    out: &mut String,
) -> Result<(), NoMemory> {
    match listener.poll_accept() {
        Poll::Ready(Accepted::Given(link)) => push_cuttable(&link, out),
        Poll::Ready(Accepted::End) => push_item(out, "end"),
        Poll::Ready(Accepted::Fault) => push_item(out, "fault"),
        Poll::Pending => push_item(out, "pending"),
    }
}

/// What so many polls answer, and then one of the listener that is handed out.
fn push_all_cuttable(listener: ListListener, count: u64, out: &mut String) -> Result<(), NoMemory> {
    let mut cuttable = CancellableListener::new(listener);
    for _ in 0..count {
        push_cuttable_polled(&mut cuttable, out)?;
    }
    let mut listener = cuttable.into_inner();
    out.push_str("; ")?;
    out.push_str(polled(&mut listener))
}

/// The same line, of a listener whose links can be cut off.
pub fn push_cuttables(
    alloc: Global,
    fails: &[u64],
    words: &str,
    out: &mut String,
) -> Result<(), CaseError> {
    let (count, listener) = read_polls(alloc, fails, words)?;
    written(push_all_cuttable(listener, count, out))
}

fn push_text(bytes: &[u8], out: &mut String) -> Result<(), NoMemory> {
    match str::from_utf8(bytes) {
        Ok(text) => out.push_str(text),
        Err(_) => out.push_str("no text"),
    }
}

fn push_first_read<S: Source>(source: &mut S, out: &mut String) -> Result<(), NoMemory> {
    let mut room = [0u8; ROOM];
    match source.poll_read(GATE, &mut room) {
        Poll::Ready(Ok(count)) => push_text(&room[..count], out),
        _ => out.push_str("nothing"),
    }
}

fn push_first<K: Link>(link: &mut K, out: &mut String) -> Result<(), NoMemory> {
    match link.take_source() {
        Some(mut source) => push_first_read(&mut source, out),
        None => out.push_str("no source"),
    }
}

/// Adds what the source gives at the first read, whether there is another, and how many bytes the link keeps.
fn push_given(link: &mut MemoryLink, out: &mut String) -> Result<(), NoMemory> {
    out.push_str("[")?;
    push_first(link, out)?;
    let again = link.take_source().is_some();
    let kept = link.body().len();
    write!(out, "], again {again}, kept {kept}")
}

/// The source of a link with this body.
pub fn push_source(alloc: Global, text: &str, out: &mut String) -> Result<(), NoMemory> {
    let head = made_head(alloc, "POST", "/")?;
    let body = text.as_bytes().to_vec(alloc)?;
    let mut link = MemoryLink::new(alloc, head, body, Vec::new(alloc))?;
    push_given(&mut link, out)
}

fn push_moment(alloc: Global, clock: &mut ListClock, out: &mut String) -> Result<(), NoMemory> {
    let moment = clock.now().to_string(alloc)?;
    push_item(out, moment.as_str())
}

fn push_moments(
    alloc: Global,
    clock: &mut ListClock,
    count: u64,
    out: &mut String,
) -> Result<(), NoMemory> {
    for _ in 0..count {
        push_moment(alloc, clock, out)?;
    }
    Ok(())
}

/// `MOMENTS COUNT`
pub fn push_clock(alloc: Global, words: &str, out: &mut String) -> Result<(), CaseError> {
    let (moments, count) = first_word(words);
    let count = parsed::<u64>(count)?;
    let mut clock = ListClock::new(numbers(alloc, moments)?);
    written(push_moments(alloc, &mut clock, count, out))
}
