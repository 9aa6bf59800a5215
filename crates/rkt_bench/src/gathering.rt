//! A body gathered by `into_bytes`, beside a loop that appends the same chunks to a `Vec`.
use crate::body::{GATE, body, is_body};
use anyhow::{Error, bail};
use rkt_base::Poll;
use rkt_data::{ByteUnit, Data, MemorySource};
use std::alloc::{AllocError, Global};
use std::time::{Clock, Duration, Instant};

const CHUNK: usize = 64 * 1024;

// The chunks of a body, one behind another.
fn appended(alloc: Global, bytes: &[u8]) -> Result<Vec<u8>, AllocError> {
    let mut all = Vec::new(alloc);
    for chunk in bytes.chunks(CHUNK) {
        all.extend_from_slice(chunk)?;
    }
    Ok(all)
}

fn gathered(alloc: Global, source: MemorySource) -> Result<Vec<u8>, Error> {
    let body = Data::from_source(alloc, source)?;
    let mut state = body.open(ByteUnit(u64::MAX)).into_bytes();
    match state.poll(alloc, GATE) {
        Poll::Ready(Ok(capped)) => Ok(capped.into_inner()),
        Poll::Ready(Err(e)) => Err(e.into()),
        Poll::Pending => bail!("the source was pending"),
    }
}

// How long the loop takes.
fn plain_time<R: Clock>(rt: &R, alloc: Global, bytes: &[u8]) -> Result<Duration, Error> {
    let start = Instant::now(rt)?;
    let plain = appended(alloc, bytes)?;
    let time = start.elapsed(rt)?;
    if !is_body(plain.as_slice(), bytes.len()) {
        bail!("the loop gave another body");
    }
    Ok(time)
}

// How long the gathering takes.
fn gathering_time<R: Clock>(rt: &R, alloc: Global, bytes: Vec<u8>) -> Result<Duration, Error> {
    let length = bytes.len();
    let source = MemorySource::new(bytes, CHUNK, Vec::new(alloc));
    let start = Instant::now(rt)?;
    let value = gathered(alloc, source)?;
    let time = start.elapsed(rt)?;
    if !is_body(value.as_slice(), length) {
        bail!("into_bytes gave another body");
    }
    Ok(time)
}

/// Gathers a body of this length both ways, and prints the times where they are asked for.
pub fn run<R: Print + Clock>(
    rt: &R,
    alloc: Global,
    length: usize,
    is_timed: bool,
) -> Result<(), Error> {
    let bytes = body(alloc, length)?;
    let plain = plain_time(rt, alloc, bytes.as_slice())?.as_micros();
    let time = gathering_time(rt, alloc, bytes)?.as_micros();
    println!(rt; "bodies: {length} bytes, the same both ways")?;
    if is_timed {
        println!(rt; "into_bytes: {time} us, the loop: {plain} us")?;
    }
    Ok(())
}
