//! What sends answer.
use crate::made::{PipeLink, link_over};
use crate::pieces::{chunk_piece, head_piece};
use cases::{CaseError, first_word, push_item, written};
use rkt_base::{NoMemory, Poll};
use rkt_link::{Delivery, Link, SendError};
use rkt_message::Piece;
use std::alloc::Global;
use std::str;

// How often a piece is polled at most.
const POLLS: usize = 20;

/// How pieces are sent.
#[derive(Clone, Copy)]
pub enum Way {
    Sent,
    Handed,
}

fn error_name(error: SendError) -> &'static str {
    match error {
        SendError::Fault => " fault",
        SendError::NoMemory => " no memory",
    }
}

/// Polls a piece until there is another answer than Pending.
fn push_sends<K: Link>(link: &mut K, piece: &Piece, out: &mut String) -> Result<(), NoMemory> {
    for _ in 0..POLLS {
        match link.poll_send(piece) {
            Poll::Pending => out.push_str(" pending")?,
            Poll::Ready(Ok(())) => return out.push_str(" taken"),
            Poll::Ready(Err(error)) => return out.push_str(error_name(error)),
        }
    }
    Ok(())
}

/// Hands a piece over once. Answers it where it came back.
fn push_hand<K: Link>(
    link: &mut K,
    piece: Piece,
    out: &mut String,
) -> Result<Option<Piece>, NoMemory> {
    match link.poll_hand(piece) {
        Delivery::Taken => out.push_str(" taken")?,
        Delivery::Refused(error) => out.push_str(error_name(error))?,
        Delivery::Back(back) => {
            out.push_str(" back")?;
            return Ok(Some(back));
        }
    }
    Ok(None)
}

/// Hands a piece over until it does not come back.
fn push_hands<K: Link>(link: &mut K, piece: Piece, out: &mut String) -> Result<(), NoMemory> {
    let mut left = Some(piece);
    for _ in 0..POLLS {
        let Some(piece) = left else {
            return Ok(());
        };
        left = push_hand(link, piece, out)?;
    }
    Ok(())
}

/// Adds the name of a piece, and what its polls answer.
fn push_piece<K: Link + Send>(
    link: &mut K,
    way: Way,
    name: &str,
    piece: Piece,
    out: &mut String,
) -> Result<(), NoMemory> {
    push_item(out, name)?;
    match way {
        Way::Sent => push_sends(link, &piece, out),
        Way::Handed => push_hands(link, piece, out),
    }
}

fn push_chunk<K: Link + Send>(
    alloc: Global,
    link: &mut K,
    way: Way,
    text: &str,
    out: &mut String,
) -> Result<(), NoMemory> {
    let piece = chunk_piece(alloc, text)?;
    push_piece(link, way, "chunk", piece, out)
}

fn push_chunks<K: Link + Send>(
    alloc: Global,
    link: &mut K,
    way: Way,
    texts: &str,
    out: &mut String,
) -> Result<(), NoMemory> {
    if texts == "-" {
        return Ok(());
    }
    for text in texts.split(',') {
        push_chunk(alloc, link, way, text, out)?;
    }
    Ok(())
}

/// Adds bytes, with escapes.
pub fn push_bytes(alloc: Global, bytes: &[u8], out: &mut String) -> Result<(), NoMemory> {
    let Ok(text) = str::from_utf8(bytes) else {
        return push_item(out, "no text");
    };
    let text = format!(in alloc; "{text:?}")?;
    push_item(out, text.as_str())
}

/// Adds what the sink has, and how often the link has failed.
fn push_outcome(alloc: Global, link: &PipeLink, out: &mut String) -> Result<(), NoMemory> {
    push_bytes(alloc, link.sink().bytes(), out)?;
    let faults = link.faults();
    let text = format!(in alloc; "faults={faults}")?;
    push_item(out, text.as_str())
}

/// Sends a head, chunks and the end.
fn push_response(
    alloc: Global,
    link: &mut PipeLink,
    way: Way,
    head: Piece,
    chunks: &str,
    out: &mut String,
) -> Result<(), NoMemory> {
    push_piece(link, way, "head", head, out)?;
    push_chunks(alloc, link, way, chunks, out)?;
    push_piece(link, way, "end", Piece::End, out)?;
    push_outcome(alloc, link, out)
}

/// `HEADERS ROOM PENDS FAILS CLOSED CHUNKS`
pub fn push_sent(alloc: Global, way: Way, words: &str, out: &mut String) -> Result<(), CaseError> {
    let (headers, words) = first_word(words);
    let Some((words, chunks)) = words.rsplit_once(' ') else {
        return Err(CaseError::Line);
    };
    let mut link = link_over(alloc, words)?;
    let head = head_piece(alloc, headers)?;
    written(push_response(alloc, &mut link, way, head, chunks, out))
}
