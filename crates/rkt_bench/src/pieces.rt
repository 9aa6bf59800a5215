//! The pieces of a response on their way to a link in memory, beside a loop that keeps copies of the same chunks.
ghost use Rattle.std.specs.Bool.{OnFalse};
ghost use Rattle.std.specs.Prelude.{◌≡◌, IfOk, false};
ghost use Rattle.rkt_message.specs.Sending.{is_end};

use crate::body::{GATE, body, place_behind};
use anyhow::{Error, bail};
use rkt_base::{Bytes, Poll};
use rkt_data::MemorySource;
use rkt_message::{Piece, Pieces, Response};
use std::alloc::{AllocError, Global};
use std::time::{Clock, Duration, Instant};

const CHUNK: usize = 4096;

// The chunks of a body, each copied.
fn copied(alloc: Global, bytes: &[u8]) -> Result<Vec<Bytes>, AllocError> {
    let mut chunks = Vec::new(alloc);
    for chunk in bytes.chunks(CHUNK) {
        chunks.push(Bytes::from_vec(chunk.to_vec(alloc)?))?;
    }
    Ok(chunks)
}

fn is_body(chunks: &[Bytes], length: usize) -> bool {
    let mut place = 0;
    for chunk in chunks {
        match place_behind(place, chunk.as_slice()) {
            Some(behind) => place = behind,
            None => return false,
        }
    }
    place == length
}

// Keeps the chunk of a piece, and answers whether the piece was the last.
fn keep(link: &mut Vec<Bytes>, piece: Piece) -> Result<bool, AllocError>
    ensures { IfOk result (λ last. OnFalse last (is_end piece ≡ false)) }
{
    match piece {
        Piece::Head { .. } => Ok(false),
        Piece::Chunk(bytes) => {
            link.push(bytes)?;
            Ok(false)
        }
        Piece::End => Ok(true),
    }
}

fn sent(alloc: Global, bytes: Vec<u8>) -> Result<Vec<Bytes>, Error> {
    let mut response = Response::<MemorySource>::new(alloc);
    response.set_sized_body(None, bytes);
    response.set_max_chunk_size(CHUNK);
    let mut pieces = Pieces::new(response, 1);
    let mut link = Vec::new(alloc);
    for _ in 0..u64::MAX {
        match pieces.poll_next(alloc, GATE) {
            Poll::Ready(Ok(piece)) => {
                if keep(&mut link, piece)? {
                    return Ok(link);
                }
            }
            Poll::Ready(Err(e)) => return Err(e.into()),
            Poll::Pending => bail!("the body was pending"),
        }
    }
    bail!("there was no end")
}

// How long the loop takes.
fn plain_time<R: Clock>(rt: &R, alloc: Global, bytes: &[u8]) -> Result<Duration, Error> {
    let start = Instant::now(rt)?;
    let plain = copied(alloc, bytes)?;
    let time = start.elapsed(rt)?;
    if !is_body(plain.as_slice(), bytes.len()) {
        bail!("the loop kept another body");
    }
    Ok(time)
}

// How long the pieces take.
fn sending_time<R: Clock>(rt: &R, alloc: Global, bytes: Vec<u8>) -> Result<Duration, Error> {
    let length = bytes.len();
    let start = Instant::now(rt)?;
    let link = sent(alloc, bytes)?;
    let time = start.elapsed(rt)?;
    if !is_body(link.as_slice(), length) {
        bail!("the link has another body");
    }
    Ok(time)
}

/// Sends a body of this length both ways, and prints the times where they are asked for.
pub fn run<R: Print + Clock>(
    rt: &R,
    alloc: Global,
    length: usize,
    is_timed: bool,
) -> Result<(), Error> {
    let bytes = body(alloc, length)?;
    let plain = plain_time(rt, alloc, bytes.as_slice())?.as_micros();
    let time = sending_time(rt, alloc, bytes)?.as_micros();
    println!(rt; "pieces: {length} bytes, the same both ways")?;
    if is_timed {
        println!(rt; "pieces: {time} us, the loop: {plain} us")?;
    }
    Ok(())
}
