//! Sends what an opened body gives to a sink, through a buffer.
ghost use Rattle.std.specs.Prelude.{◌≡◌, ◌≤◌, ◌<◌, IfOk, OnErr, None, ℕ, false, length, take, vec_len};
ghost use Rattle.rkt_source.specs.Buffer.{items_of};
ghost use Rattle.rkt_data.specs.Sending.{Pumps, PumpStops, SendStops, between, pumped_answer, sent_end, sink_error_of};
ghost use Rattle.rkt_source.specs.Sink.{SinkKeeps, FeedsTo, Gains};
ghost use Rattle.rkt_data.specs.Stream.{TakesAtMost};

use crate::error::DataError;
use crate::limited_reader::LimitedReader;
use rkt_base::{NoMemory, Poll};
use rkt_source::{Gate, Sink, SinkError, Source};
use std::alloc::Global;

/// How many bytes the buffer has.
const COPY_BYTES: usize = 4096;

/// How sending has stopped.
#[derive(Drop)]
pub(crate) enum Copied {
    Done,
    Waiting,
    Failed(DataError),
}

/// How sending one piece has stopped.
#[derive(Drop)]
pub(crate) enum Sent {
    All,
    Waiting,
    Failed(SinkError),
}

// Sends the bytes of the buffer between `at` and `end` and then what is read through it, up to the limit; answers
// between which places the buffer has bytes then.
pub(crate) fn copy<S: Source, K: Sink>(
    pipe: &mut LimitedReader<S>,
    gate: Gate,
    sink: &mut K,
    buf: &mut [u8],
    at: usize,
    end: usize,
) -> (usize, usize, Copied)
    requires not_probed { pipe.old.probed ≡ false }
    requires bound { TakesAtMost S.meaning pipe.old.opened pipe.old.opened.limit }
    requires order { at ≤ end }
    requires room { end ≤ length buf.old }
    requires some { 0 < length buf.old }
    ensures order { result.0 ≤ result.1 }
    ensures room { result.1 ≤ length buf.new }
    ensures pumps { Pumps S.meaning S.polled K.meaning K.written gate (pumped_answer result.2) pipe.old pipe.new sink.old
        sink.new (between at end buf.old) (between result.0 result.1 buf.new) }
    ensures stops { PumpStops S.meaning K.meaning pipe.old.opened pipe.new.opened sink.old sink.new
        (between result.0 result.1 buf.new) result.2 }
{
    let mut from = at;
    let mut to = end;
    loop {
        let (n, stop) = send(sink, &buf[from..to]);
        match stop {
            Sent::All => {}
            Sent::Waiting => return (from + n, to, Copied::Waiting),
            Sent::Failed(e) => return (from + n, to, Copied::Failed(sink_error(e))),
        }
        match pipe.read(gate, buf) {
            Poll::Ready(Ok(0)) => return (0, 0, Copied::Done),
            Poll::Ready(Ok(k)) => {
                from = 0;
                to = k;
            }
            Poll::Ready(Err(e)) => return (0, 0, Copied::Failed(DataError::from(e))),
            Poll::Pending => return (0, 0, Copied::Waiting),
        }
    }
}

// Writes a piece until all of it is taken, and answers how much was.
fn send<K: Sink>(sink: &mut K, piece: &[u8]) -> (usize, Sent)
    ensures keeps { SinkKeeps (K.meaning sink.old) (K.meaning sink.new) }
    ensures within { result.0 ≤ length piece.now }
    ensures gains { Gains (K.meaning sink.old) (K.meaning sink.new) (take result.0 piece.now) }
    ensures feeds { FeedsTo K.written (sent_end result.1) sink.old (take result.0 piece.now) sink.new }
    ensures stops { SendStops K.meaning sink.old sink.new (length piece.now) result.0 result.1 }
{
    let mut n = 0;
    while n < piece.len() {
        match sink.poll_write(&piece[n..]) {
            Poll::Ready(Ok(0)) => return (n, Sent::Failed(SinkError::SinkFault)),
            Poll::Ready(Ok(k)) => n += k,
            Poll::Ready(Err(e)) => return (n, Sent::Failed(e)),
            Poll::Pending => return (n, Sent::Waiting),
        }
    }
    (n, Sent::All)
}

fn sink_error(e: SinkError) -> DataError
    ensures { result ≡ sink_error_of e }
{
    match e {
        SinkError::SinkFault => DataError::SinkFault,
        SinkError::NoMemory => DataError::NoMemory,
    }
}

// The buffer that an earlier poll has left, or a new one.
pub(crate) fn resume(buf: &mut Option<Vec<u8>>, alloc: Global) -> Result<Vec<u8>, NoMemory>
    ensures ok { IfOk result (λ v. (n : ℕ) → n ≤ length (items_of buf.old) → take n v.items ≡ take n (items_of buf.old)) }
    ensures some { IfOk result (λ v. (buf.old ≡ None → 0 < vec_len v) × (length (items_of buf.old) ≤ vec_len v)) }
    ensures err { OnErr result (buf.old ≡ None) }
    ensures taken { buf.new ≡ None }
{
    match buf.take() {
        Some(buf) => Ok(buf),
        None => {
            let buf = vec![in alloc; 0; COPY_BYTES]?;
            Ok(buf)
        }
    }
}
