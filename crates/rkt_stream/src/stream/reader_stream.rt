//! The bytes of the sources that a stream gives, as one source.
ghost use Rattle.std.specs.Prelude.{◌≡◌, ◌<◌, ◌≤◌, ◌||◌, None, is_some, length};
ghost use Rattle.rkt_base.specs.Poll.{IfReadyErr};
ghost use Rattle.rkt_stream.specs.Flat.{IsFresh, GivesFresh, Goes, Advances, ReadsInTurn, ReadsItem, Refuses};

use crate::stream::{One, Stream};
use crate::tally::Tally;
use rkt_base::Poll;
use rkt_source::{Gate, Shut, Source, SourceError};
use std::marker::Model;
use std::snapshot::Snapshot;

/// Gives the bytes of the sources that a stream gives, joined. An error of one is passed on, and it is read again.
#[derive(Drop)]
pub struct ReaderStream<S: Stream>
where
    S::Item: Source,
{
    stream: S,
    begun: Snapshot<S>,
    item: Option<S::Item>,
    taken: Tally,
    faults: Tally,
    warned: bool,
    refused: bool,
}

impl<S: Stream> Model for ReaderStream<S>
where
    S::Item: Source,
{
    ghost use Rattle.rkt_stream.specs.Flat.{Flat, IsFlat};

    ghost Value = { Flat S S.Item };

    ghost view = { λ r. record {
      running = record { stream = r.stream; item = r.item };
      begun = r.begun.value;
      taken = r.taken;
      faults = r.faults;
      warned = r.warned;
      refused = r.refused;
    } };

    ghost invariant = { λ r. IsFlat S.flow S.Item.meaning S.may_give record {
      running = record { stream = r.stream; item = r.item };
      begun = r.begun.value;
      taken = r.taken;
      faults = r.faults;
      warned = r.warned;
      refused = r.refused;
    } };
}

impl<S: Stream> ReaderStream<S>
where
    S::Item: Source,
{
    ghost use Rattle.std.specs.Prelude.{false};

    pub fn from(stream: S) -> ReaderStream<S>
        requires fresh { (x : S.Item) → S.may_give stream x → IsFresh (S.Item.meaning x) }
        // Where the stream does not tell its sources, none is Pending more often than the stream.
        requires waits { (S.flow stream).rest ≡ None
            → (x : S.Item)
            → S.may_give stream x
            → (S.Item.meaning x).pendings ≤ (S.flow stream).pendings }
        ensures { result ≡ record {
          running = record { stream = stream; item = None };
          begun = stream;
          taken = 0;
          faults = 0;
          warned = false;
          refused = false;
        } }
    {
        ReaderStream {
            begun: Snapshot::of(&stream),
            stream,
            item: None,
            taken: Tally::new(),
            faults: Tally::new(),
            warned: false,
            refused: false,
        }
    }
}

impl<R: Source> ReaderStream<One<R>> {
    ghost use Rattle.std.specs.Prelude.{Some, false};

    /// The bytes of one source.
    pub fn one(reader: R) -> ReaderStream<One<R>>
        requires { IsFresh (R.meaning reader) }
        ensures { result ≡ record {
          running = record { stream = record { value = Some reader; ended = false }; item = None };
          begun = record { value = Some reader; ended = false };
          taken = 0;
          faults = 0;
          warned = false;
          refused = false;
        } }
    {
        ReaderStream::from(One::from(reader))
    }
}

// Reads from the source that is read, and where that has ended from the next one.
fn read_on<S: Stream>(
    stream: &mut S,
    item: &mut Option<S::Item>,
    gate: Gate,
    buf: &mut [u8],
) -> Poll<Result<usize, SourceError>>
where
    S::Item: Source,
    requires room { 0 < length buf.old }
    requires fresh { GivesFresh S.flow S.Item.meaning S.may_give stream.old }
    ensures goes { Goes S.flow S.Item.meaning S.may_give gate.tripped (record { stream = stream.old; item = item.old })
        (record { stream = stream.new; item = item.new }) }
    ensures in_turn { ReadsInTurn S.polled S.Item.polled gate (length buf.old)
        (record { stream = stream.old; item = item.old })
        result
        (record { stream = stream.new; item = item.new }) }
    ensures item { ReadsItem S.Item.polled S.may_give gate (length buf.old) result
        (record { stream = stream.old; item = item.old }) item.new }
    ensures answer { Advances S.flow S.Item.meaning (record { stream = stream.old; item = item.old })
        (record { stream = stream.new; item = item.new }) buf.old buf.new result }
    ensures refuses { IfReadyErr result (Refuses S.Item.meaning S.Item.polled gate (length buf.old) item.new) }
{
    loop {
        match item {
            Some(source) => match source.poll_read(gate, buf) {
                Poll::Ready(Ok(0)) => *item = None,
                Poll::Ready(Ok(n)) => return Poll::Ready(Ok(n)),
                Poll::Ready(Err(e)) => return Poll::Ready(Err(e)),
                Poll::Pending => return Poll::Pending,
            },
            None => match stream.poll_next(gate) {
                Poll::Ready(Some(next)) => *item = Some(next),
                Poll::Ready(None) => return Poll::Ready(Ok(0)),
                Poll::Pending => return Poll::Pending,
            },
        }
    }
}

// Whether a Gate with a trip was shown by now.
fn is_warned(warned: bool, gate: Gate) -> bool
    ensures { result ≡ (warned || is_some gate.tripped) }
{
    warned || gate.tripped.is_some()
}

impl<S: Stream> Shut for ReaderStream<S>
where
    S::Item: Source,
{
    ghost use Rattle.rkt_stream.specs.Flat.{ShutsItem, waits_left, stream_waits};

    ghost shuts = { λ a answer b. ShutsItem S.Item.shuts a.running.item a answer b
        × (waits_left S.flow S.Item.meaning a.running ≤ stream_waits S.flow S.Item.meaning a.begun) };

    // Sources that are still to come are not there to be shut down.
    fn poll_shutdown(&mut self) -> Poll<()> {
        match &mut self.item {
            None => Poll::Ready(()),
            Some(item) => item.poll_shutdown(),
        }
    }
}

impl<S: Stream> Source for ReaderStream<S>
where
    S::Item: Source,
{
    ghost use Rattle.rkt_stream.specs.Flat.{ReadsFlat, flat_meaning};
    ghost use Rattle.rkt_stream.specs.FlatLaws.{flat_shut_is_warned, flat_shuts, flat_waits_within};

    ghost meaning = { flat_meaning S.flow S.Item.meaning };

    ghost polled = { λ a gate room answer b. ReadsFlat S.Item.meaning S.polled S.Item.polled S.may_give a gate room answer b };

    fn poll_read(&mut self, gate: Gate, buf: &mut [u8]) -> Poll<Result<usize, SourceError>> {
        if buf.is_empty() {
            return Poll::Ready(Ok(0));
        }
        self.warned = is_warned(self.warned, gate);
        match read_on(&mut self.stream, &mut self.item, gate, buf) {
            Poll::Pending => Poll::Pending,
            Poll::Ready(Ok(n)) => {
                self.taken.add(n);
                Poll::Ready(Ok(n))
            }
            Poll::Ready(Err(SourceError::SourceFault)) => {
                self.faults.add(1);
                Poll::Ready(Err(SourceError::SourceFault))
            }
            Poll::Ready(Err(e)) => {
                self.refused = true;
                Poll::Ready(Err(e))
            }
        }
    }

    ghost shut_is_warned = { flat_shut_is_warned S.flow S.Item.meaning };

    ghost shutdown_keeps = { flat_shuts S.flow S.Item.meaning S.Item.shuts S.Item.shutdown_keeps };

    ghost waits_within = { flat_waits_within S.flow S.Item.meaning };
}
