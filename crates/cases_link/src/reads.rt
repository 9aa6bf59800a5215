//! What a link gives of its request.
use crate::made::{PipeLink, link_from, link_with, made_calls, made_head};
use crate::sends::push_bytes;
use cases::{CaseError, first_word, parsed, push_item, written};
use rkt_base::{NoMemory, Poll};
use rkt_data::{Gate, Shut, Source};
use rkt_link::Link;
use std::alloc::Global;

/// What every read is under.
pub const GATE: Gate = Gate {
    moment: 0,
    tripped: None,
    grace: 0,
    mercy: 0,
};

/// The room for one read.
pub const ROOM: usize = 8;

// How often a source is read at most.
const READS: usize = 20;

/// Reads once. Answers whether that was the end.
fn push_read<S: Source>(alloc: Global, source: &mut S, out: &mut String) -> Result<bool, NoMemory> {
    let mut room = [0u8; ROOM];
    match source.poll_read(GATE, &mut room) {
        Poll::Pending => push_item(out, "pending")?,
        Poll::Ready(Err(_)) => push_item(out, "fault")?,
        Poll::Ready(Ok(0)) => {
            push_item(out, "end")?;
            return Ok(true);
        }
        Poll::Ready(Ok(count)) => push_bytes(alloc, &room[..count], out)?,
    }
    Ok(false)
}

fn push_reads<S: Source>(alloc: Global, source: &mut S, out: &mut String) -> Result<(), NoMemory> {
    for _ in 0..READS {
        if push_read(alloc, source, out)? {
            return Ok(());
        }
    }
    Ok(())
}

/// Reads the source that a link gives.
fn push_source<K: Link>(alloc: Global, link: &mut K, out: &mut String) -> Result<(), NoMemory> {
    match link.take_source() {
        Some(mut source) => push_reads(alloc, &mut source, out),
        None => push_item(out, "none"),
    }
}

/// The link of `CHUNK PENDS FAILS TEXT`.
fn made_link(alloc: Global, words: &str) -> Result<PipeLink, CaseError> {
    let (chunk, words) = first_word(words);
    let (pends, words) = first_word(words);
    let (fails, text) = first_word(words);
    let chunk = parsed::<usize>(chunk)?;
    let calls = made_calls(alloc, pends, fails)?;
    let head = made_head(alloc, "POST", "/")?;
    let body = text.as_bytes().to_vec(alloc)?;
    Ok(link_from(alloc, head, body, chunk, calls))
}

/// `CHUNK PENDS FAILS TEXT`
pub fn push_body(alloc: Global, words: &str, out: &mut String) -> Result<(), CaseError> {
    let mut link = made_link(alloc, words)?;
    written(push_source(alloc, &mut link, out))
}

/// Adds whether a link gives its source.
fn push_given<K: Link>(link: &mut K, out: &mut String) -> Result<(), NoMemory> {
    let given = link.take_source().is_some();
    push_item(out, if given { "given" } else { "none" })
}

/// Takes the source of a link twice.
pub fn push_again(alloc: Global, out: &mut String) -> Result<(), NoMemory> {
    let head = made_head(alloc, "GET", "/")?;
    let mut link = link_with(alloc, head);
    push_given(&mut link, out)?;
    push_given(&mut link, out)
}

fn push_lent<K: Link>(link: &K, out: &mut String) -> Result<(), NoMemory> {
    let head = link.head();
    out.push_str(head.method.as_str())?;
    out.push_str(" ")?;
    out.push_str(head.target.as_str())
}

/// `METHOD TARGET`
pub fn push_head(alloc: Global, words: &str, out: &mut String) -> Result<(), NoMemory> {
    let (method, target) = first_word(words);
    let head = made_head(alloc, method, target)?;
    let link = link_with(alloc, head);
    push_lent(&link, out)
}

fn push_shut_down<T: Shut>(object: &mut T, out: &mut String) -> Result<(), NoMemory> {
    match object.poll_shutdown() {
        Poll::Ready(()) => out.push_str("ready"),
        Poll::Pending => out.push_str("pending"),
    }
}

/// Shuts a link down.
pub fn push_shut(alloc: Global, out: &mut String) -> Result<(), NoMemory> {
    let head = made_head(alloc, "GET", "/")?;
    let mut link = link_with(alloc, head);
    push_shut_down(&mut link, out)
}
