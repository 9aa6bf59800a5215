//! The body of a request, before it is opened.
ghost use Rattle.std.specs.Prelude.{◌≡◌, [], IfOk, IsTrue, false, min, take, true};
ghost use Rattle.rkt_data.specs.Body.{PeekedPulls, opened_tap};

use crate::counted_source::{CountedSource, Stop, top_up};
use crate::data_stream::{ByteUnit, DataStream};
use crate::limited_reader::LimitedReader;
use rkt_base::{NoMemory, Poll};
use rkt_source::{Gate, Source};
use std::alloc::Global;
use std::marker::Model;
use std::snapshot::Snapshot;

/// The most bytes that a peek shows.
pub const PEEK_BYTES: usize = 512;

/// The body of a request. It stands for all its bytes: a peek consumes none.
#[derive(Drop)]
pub struct Data<S: Source> {
    bytes: Vec<u8>,
    held: usize,
    tap: Option<CountedSource<S>>,
    complete: bool,
}

impl<S: Source> Model for Data<S> {
    ghost use Rattle.rkt_data.specs.Body.{Body, HoldsFront};
    ghost use Rattle.rkt_data.specs.CountedSource.{tapped};
    ghost use Rattle.std.specs.Prelude.{◌≤◌, take, vec_len};

    ghost Value = { Body S };

    ghost view = { λ d. record { held = take d.held d.bytes.items; tap = tapped d.tap; complete = d.complete } };

    ghost invariant = { λ d. HoldsFront S.meaning (take d.held d.bytes.items) (vec_len d.bytes) d.complete (tapped d.tap)
        × (d.held ≤ vec_len d.bytes) };
}

impl<S: Source> Data<S> {
    ghost use Rattle.rkt_data.specs.Body.{Peeked, PeeksByGate, PeekStops, IsWhole};
    ghost use Rattle.rkt_data.specs.Stream.{PullsAtMost};

    /// A body that is held whole.
    pub fn local(bytes: Vec<u8>) -> Data<S>
        ensures { result ≡ record { held = bytes.items; tap = None; complete = true } }
    {
        let held = bytes.len();
        Data {
            bytes,
            held,
            tap: None,
            complete: true,
        }
    }

    /// A body that a source gives. The room for a peek is made here, so that no peek wants memory.
    pub fn from_source(alloc: Global, source: S) -> Result<Data<S>, NoMemory>
        ensures { IfOk result (λ d. d ≡ record {
          held = [];
          tap = Some record { now = source; begun = source };
          complete = false;
        }) }
    {
        let bytes = vec![in alloc; 0; PEEK_BYTES]?;
        let begun = Snapshot::of(&source);
        Ok(Data {
            bytes,
            held: 0,
            tap: Some(CountedSource { source, begun }),
            complete: false,
        })
    }

    /// Whether a peek shows all that the body has, as of local bytes and once a peek met the end.
    pub fn peek_complete(&self) -> bool
        ensures complete { result ≡ self.now.complete }
        ensures whole { IsTrue result → IsWhole S.meaning self.now }
    {
        self.complete
    }

    /// Opens the body for reading, up to a limit. Where a peek has met the end, the source is let go: all that the body
    /// has is held, and nothing asks the source again.
    pub fn open(self, limit: ByteUnit) -> DataStream<S>
        ensures opened { result
            ≡ record { front = self.held; tap = opened_tap self.complete self.tap; limit = limit.0; given = 0 } }
        ensures bound { PullsAtMost S.meaning result }
    {
        let Data {
            bytes,
            held,
            tap,
            complete,
        } = self;
        let tap = unless_complete(complete, tap);
        DataStream::new(LimitedReader::new(bytes, held, tap, limit.0))
    }

    // The bytes that a peek shows.
    pub(crate) fn shown(&self, num: usize) -> &[u8]
        ensures { result.now ≡ take (min num 512) self.now.held }
    {
        let end = num.min(PEEK_BYTES).min(self.held);
        &self.bytes.as_slice()[..end]
    }

    // Reads until as many bytes are held as a peek may show, the end came, or a read failed.
    pub(crate) fn fill(&mut self, gate: Gate, num: usize) -> Poll<()>
        ensures peeked { Peeked S.meaning gate.tripped num self.old self.new }
        ensures by_gate { PeeksByGate S.polled gate result self.old self.new }
        ensures stops { PeekStops S.meaning num self.old self.new result }
    {
        let want = num.min(PEEK_BYTES);
        let held = self.held;
        if self.complete || want <= held {
            return Poll::Ready(());
        }
        match &mut self.tap {
            None => Poll::Ready(()),
            Some(tap) => {
                let (now, stop) = top_up(tap, gate, self.bytes.as_mut_slice(), held, want);
                self.held = now;
                self.complete = stop == Stop::End;
                ready_unless_waiting(stop)
            }
        }
    }
}

/// A law of bodies, the pull bound: whatever reads a body that was peeked at and then opened, it takes at most the greater of
/// what was peeked and the limit plus one from the source.
pub fn peeked_pulls<S: Source>()
    ensures { PeekedPulls S.meaning }
{}

fn unless_complete<T: Drop>(complete: bool, tap: Option<T>) -> Option<T>
    ensures { result ≡ opened_tap complete tap }
{
    if complete {
        return None;
    }
    tap
}

fn ready_unless_waiting(stop: Stop) -> Poll<()>
    ensures waiting { stop ≡ Stop.Waiting → result ≡ Poll.Pending }
    ensures ready { (stop ≡ Stop.Waiting → ⊥) → result ≡ Poll.Ready tt }
{
    match stop {
        Stop::Waiting => Poll::Pending,
        _ => Poll::Ready(()),
    }
}
