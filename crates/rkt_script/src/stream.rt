//! Reads a source to its end, and writes all of a text.
ghost use Rattle.std.specs.Prelude.{◌≡◌, ◌≤◌, ◌<◌, ◌+◌, false, [], List, ℕ, vec_len, IfOk, OnOk, OnErr, IsErrOf, length, take, drop};
ghost use Rattle.std.specs.Option.{ForSome};
ghost use Rattle.rkt_base.specs.Counts.{Rose};
ghost use Rattle.rkt_source.specs.Sink.{Gains};
ghost use Rattle.rkt_script.specs.Streams.{GainsFront, Reads, ReadsOnce, ReadsAs, WritesAs, IsAtEnd, IsReadTo};
ghost use Rattle.rkt_script.specs.declared.stream.StreamError.TheVariants.{NoMemory as OutOfMemory};

use rkt_base::Poll;
use rkt_data::{Gate, Sink, SinkError, Source, SourceError};
use std::alloc::{AllocError, Global};
use std::sync::Wait;

/// Why a stream was not read or written to its end.
#[derive(Clone, Copy, Debug, Drop, PartialEq, Eq)]
pub enum StreamError {
    /// The source or the sink refused.
    Fault,
    NoMemory,
}

impl From<AllocError> for StreamError {
    ghost from_gives = { λ _ e. e ≡ OutOfMemory };

    fn from(_error: AllocError) -> StreamError {
        StreamError::NoMemory
    }
}

/// The Gate of every read: the program's own source is never cut off.
pub const GATE: Gate = Gate {
    moment: 0,
    tripped: None,
    grace: 0,
    mercy: 0,
};

// How much one read asks for.
const BLOCK: usize = 65_536;

fn new_block(alloc: Global) -> Result<Vec<u8>, AllocError>
    ensures { IfOk result (λ block. 0 < vec_len block) }
{
    let block = vec![in alloc; 0u8; BLOCK]?;
    Ok(block)
}

// One read, polled until it is answered.
fn read_block<R: Wait, S: Source>(
    rt: &R,
    source: &mut S,
    block: &mut [u8],
) -> Result<usize, StreamError>
    requires unwarned { (S.meaning source.old).warned ≡ false }
    requires room { 0 < length block.old }
    ensures polled { ReadsOnce S.polled GATE result source.old source.new }
    ensures within { IfOk result (λ n. n ≤ length block.new) }
    ensures reads { IfOk result (λ n. Reads (S.meaning source.old) (S.meaning source.new) (take n block.new)) }
    ensures end { IfOk result (λ n. n ≡ 0 → IsAtEnd (S.meaning source.new)) }
    ensures err { OnErr result (Reads (S.meaning source.old) (S.meaning source.new) []) }
    ensures cause { IsErrOf result StreamError.Fault → Rose (S.meaning source.old).faults (S.meaning source.new).faults }
{
    for _ in rt.forever() {
        match source.poll_read(GATE, block) {
            Poll::Ready(Ok(count)) => return Ok(count),
            Poll::Ready(Err(SourceError::SourceFault)) => return Err(StreamError::Fault),
            Poll::Ready(Err(SourceError::Gone)) => unreachable!(),
            Poll::Ready(Err(SourceError::TimedOut)) => unreachable!(),
            Poll::Pending => {}
        }
    }
    unreachable!()
}

/// What a source has left, or the first `most` bytes of it.
pub fn read_all<R: Wait, S: Source>(
    rt: &R,
    alloc: Global,
    source: &mut S,
    most: usize,
) -> Result<Vec<u8>, StreamError>
    requires { (S.meaning source.old).warned ≡ false }
    ensures polled { ReadsAs S.polled GATE result source.old source.new }
    ensures bytes { IfOk result (λ v.
        ForSome (S.meaning source.old).whole (λ whole. v.items ≡ take most (drop (S.meaning source.old).taken whole))) }
    ensures taken { OnOk result (IsReadTo most (S.meaning source.old) (S.meaning source.new)) }
    ensures bound { (S.meaning source.new).taken ≤ (S.meaning source.old).taken + most }
    ensures unwarned { (S.meaning source.new).warned ≡ false }
    ensures cause { IsErrOf result StreamError.Fault → Rose (S.meaning source.old).faults (S.meaning source.new).faults }
{
    let mut all = Vec::new(alloc);
    let mut block = new_block(alloc)?;
    while all.len() < most {
        let room = block.len().min(most - all.len());
        let piece = &mut block[..room];
        let count = read_block(rt, source, piece)?;
        if count == 0 {
            return Ok(all);
        }
        all.extend_from_slice(&piece[..count])?;
    }
    Ok(all)
}

/// Writes all the bytes, or a front of them.
pub fn write_all<R: Wait, K: Sink>(rt: &R, sink: &mut K, bytes: &[u8]) -> Result<(), StreamError>
    ensures written { WritesAs K.written result sink.old bytes.now sink.new }
    ensures ok { OnOk result (Gains (K.meaning sink.old) (K.meaning sink.new) bytes.now) }
    ensures front { GainsFront (K.meaning sink.old) (K.meaning sink.new) bytes.now }
    ensures cause { IsErrOf result StreamError.Fault → Rose (K.meaning sink.old).faults (K.meaning sink.new).faults }
{
    let mut at = 0;
    for _ in rt.forever() {
        if at == bytes.len() {
            return Ok(());
        }
        match sink.poll_write(&bytes[at..]) {
            Poll::Ready(Ok(0)) => return Err(StreamError::Fault),
            Poll::Ready(Ok(count)) => at += count,
            Poll::Ready(Err(SinkError::SinkFault)) => return Err(StreamError::Fault),
            Poll::Ready(Err(SinkError::NoMemory)) => return Err(StreamError::NoMemory),
            Poll::Pending => {}
        }
    }
    unreachable!()
}
