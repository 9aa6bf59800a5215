//! Objects in memory that wait at first, and of which is known what was asked of them.
ghost use Rattle.std.specs.Prelude.{◌≡◌, ◌+◌, ◌<◌, ◌^◌, IsTrue, Some, length, min};

use rkt_base::Poll;
use rkt_data::{Gate, MemorySource, Shut, Sink, SinkError, Source, SourceError, Stream};
use std::cell::Cell;
use std::collections::VecDeque;

/// How many reads a source had, and how many bytes they gave.
#[derive(Drop)]
pub struct Counts {
    pub reads: Cell<u64>,
    pub bytes: Cell<u64>,
}

impl Counts {
    fn count(&self, answer: &Poll<Result<usize, SourceError>>) {
        self.reads.set(self.reads.get().saturating_add(1));
        if let Poll::Ready(Ok(n)) = answer {
            self.bytes.set(self.bytes.get().saturating_add(*n as u64));
        }
    }
}

/// A source in memory that is Pending at first, for a read as for a shutdown.
#[derive(Drop)]
pub struct Peer<'a> {
    inner: MemorySource,
    counts: &'a Counts,
    waited: u64,
    waits: u64,
    ghost fits: { waited + waits < 2 ^ 64 },
}

impl<'a> Peer<'a> {
    pub fn new(inner: MemorySource, counts: &'a Counts, waits: u64) -> Peer<'a> {
        Peer {
            inner,
            counts,
            waited: 0,
            waits,
        }
    }

    /// How many polls are still to be Pending.
    pub fn waits(&self) -> u64 {
        self.waits
    }
}

impl<'a> Shut for Peer<'a> {
    ghost use Rattle.rkt_source.specs.Memory.{source_meaning};
    ghost use Rattle.rkt_source.specs.Source.{Shuts};

    ghost shuts = { λ s answer t.
        Shuts (record (source_meaning s.inner) { pended = s.waited; pendings = s.waited + s.waits }) answer
        (record (source_meaning t.inner) { pended = t.waited; pendings = t.waited + t.waits }) };

    fn poll_shutdown(&mut self) -> Poll<()> {
        if self.waits > 0 {
            self.waits -= 1;
            self.waited += 1;
            return Poll::Pending;
        }
        Poll::Ready(())
    }
}

impl<'a> Source for Peer<'a> {
    ghost use Rattle.std.proofs.Common.{le-add_right};
    ghost use Rattle.rkt_source.specs.Memory.{source_meaning};

    ghost meaning = { λ s. record (source_meaning s.inner) { pended = s.waited; pendings = s.waited + s.waits } };

    ghost polled = { λ _ _ _ _ _. Unit {0} };

    fn poll_read(&mut self, gate: Gate, buf: &mut [u8]) -> Poll<Result<usize, SourceError>> {
        if buf.is_empty() {
            return Poll::Ready(Ok(0));
        }
        if self.waits > 0 {
            self.waits -= 1;
            self.waited += 1;
            return Poll::Pending;
        }
        let answer = self.inner.poll_read(gate, buf);
        self.counts.count(&answer);
        answer
    }

    ghost shut_is_warned = { λ s h. h };

    ghost shutdown_keeps = { λ s t answer e. e };

    ghost waits_within = { λ s. le-add_right s.waited s.waits };
}

/// A stream of listed items, Pending at first.
#[derive(Drop)]
pub struct Listed<X> {
    items: VecDeque<X>,
    ended: bool,
    waited: u64,
    waits: u64,
    ghost empty: { IsTrue ended → length items.items ≡ 0 },
    ghost fits: { waited + waits < 2 ^ 64 },
}

impl<X> Listed<X> {
    pub fn new(items: VecDeque<X>, waits: u64) -> Listed<X> {
        Listed {
            items,
            ended: false,
            waited: 0,
            waits,
        }
    }
}

impl<X: Drop> Stream for Listed<X> {
    type Item = X;

    ghost flow = { λ s. record {
      rest = Some s.items.items;
      left = length s.items.items;
      ended = s.ended;
      pended = s.waited;
      pendings = s.waited + s.waits;
    } };

    fn poll_next(&mut self, _gate: Gate) -> Poll<Option<X>> {
        if self.ended {
            return Poll::Ready(None);
        }
        if self.waits > 0 {
            self.waits -= 1;
            self.waited += 1;
            return Poll::Pending;
        }
        match self.items.pop_front() {
            None => {
                self.ended = true;
                Poll::Ready(None)
            }
            Some(item) => Poll::Ready(Some(item)),
        }
    }
}

/// A sink that takes no more than so many bytes of each piece, and is Pending at first.
#[derive(Drop)]
pub struct Slow<K> {
    inner: K,
    chunk: usize,
    waited: u64,
    waits: u64,
    ghost some: { 0 < chunk },
    ghost fits: { waited + waits < 2 ^ 64 },
}

impl<K> Slow<K> {
    /// A `chunk` of 0 counts as 1.
    pub fn new(inner: K, chunk: usize, waits: u64) -> Slow<K> {
        Slow {
            inner,
            chunk: chunk.max(1),
            waited: 0,
            waits,
        }
    }
}

impl<K: Sink> Sink for Slow<K> {
    ghost meaning = { λ s. record (K.meaning s.inner) {
      pended = s.waited + min (K.meaning s.inner).pended (K.meaning s.inner).pendings;
      pendings = s.waited + s.waits + (K.meaning s.inner).pendings;
    } };

    fn poll_write(&mut self, buf: &[u8]) -> Poll<Result<usize, SinkError>> {
        if self.waits > 0 {
            self.waits -= 1;
            self.waited += 1;
            return Poll::Pending;
        }
        self.inner.poll_write(&buf[..buf.len().min(self.chunk)])
    }
}
