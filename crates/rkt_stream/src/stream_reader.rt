//! The bytes of a stream's items as a source.
ghost use Rattle.std.specs.Option.{ForSome};
ghost use Rattle.std.specs.Prelude.{◌≡◌, ◌+◌, ◌++◌, ◌==◌, drop, length, min, take};
ghost use Rattle.rkt_base.specs.declared.poll.Poll.TheVariants.{Ready};
ghost use Rattle.rkt_stream.specs.Flow.{AsksOn};
ghost use Rattle.rkt_stream.specs.Joining.{IsEmpty, NextBytes};

use crate::piece::Piece;
use crate::stream::Stream;
use crate::tally::Tally;
use rkt_base::Poll;
use rkt_source::{Gate, Shut, Source, SourceError};
use std::marker::Model;
use std::snapshot::Snapshot;

/// Gives the bytes of a stream's items, joined.
#[derive(Drop)]
pub struct StreamReader<T: Stream<Item = Vec<u8>>> {
    stream: Option<T>,
    begun: Snapshot<Option<T>>,
    piece: Piece,
    taken: Tally,
}

impl<T: Stream<Item = Vec<u8>>> Model for StreamReader<T> {
    ghost use Rattle.rkt_stream.specs.Joining.{Joining, IsJoining};

    ghost Value = { Joining T };

    ghost view = { λ r. record { stream = r.stream; begun = r.begun.value; piece = r.piece; taken = r.taken } };

    ghost invariant = { λ r. IsJoining T.flow r.begun.value r.stream r.piece r.taken };
}

impl<T: Stream<Item = Vec<u8>>> StreamReader<T> {
    ghost use Rattle.std.specs.Prelude.{[], None, Some};
    ghost use Rattle.rkt_stream.specs.Joining.{Fills, FillsUp, SameJoining, joined_of};

    pub fn new(stream: T) -> StreamReader<T>
        ensures { result ≡ record { stream = Some stream; begun = Some stream; piece = []; taken = 0 } }
    {
        StreamReader::over(Some(stream))
    }

    /// One without bytes.
    pub fn empty() -> StreamReader<T>
        ensures { result ≡ record { stream = None; begun = None; piece = []; taken = 0 } }
    {
        StreamReader::over(None)
    }

    fn over(stream: Option<T>) -> StreamReader<T>
        ensures { result ≡ record { stream = stream; begun = stream; piece = []; taken = 0 } }
    {
        StreamReader {
            begun: Snapshot::of(&stream),
            stream,
            piece: Piece::empty(),
            taken: Tally::new(),
        }
    }

    // Takes the next item where the last one is used up.
    fn fill(&mut self, gate: Gate) -> Poll<()>
        ensures same { SameJoining T.flow self.old self.new }
        ensures taken { self.new.taken ≡ self.old.taken }
        ensures fills { Fills T.flow self.old self.new result }
        ensures asked { FillsUp T.polled gate (length self.old.piece == 0) self.old.stream self.old result self.new }
    {
        if !self.piece.is_empty() {
            return Poll::Ready(());
        }
        match &mut self.stream {
            None => Poll::Ready(()),
            Some(stream) => match next_bytes(stream, gate) {
                Poll::Pending => Poll::Pending,
                Poll::Ready(None) => Poll::Ready(()),
                Poll::Ready(Some(bytes)) => {
                    self.piece = Piece::new(bytes);
                    Poll::Ready(())
                }
            },
        }
    }

    // Copies the next bytes of the last item.
    fn give(&mut self, buf: &mut [u8]) -> usize
        ensures same { SameJoining T.flow self.old self.new }
        ensures given { self.new ≡ record self.old { piece = drop result self.old.piece; taken = self.old.taken + result } }
        ensures count { result ≡ min (length buf.old) (length self.old.piece) }
        ensures bytes { ForSome (joined_of T.flow self.old.begun) (λ w.
            take result buf.new ≡ take result (drop self.old.taken w)) }
    {
        let count = self.piece.give(buf);
        self.taken.add(count);
        count
    }
}

// The next item that is not empty, or None at the end.
fn next_bytes<T: Stream<Item = Vec<u8>>>(stream: &mut T, gate: Gate) -> Poll<Option<Vec<u8>>>
    ensures next { NextBytes (T.flow stream.old) (T.flow stream.new) result }
    ensures asked { AsksOn T.polled IsEmpty gate stream.old result stream.new }
{
    loop {
        match stream.poll_next(gate) {
            Poll::Pending => return Poll::Pending,
            Poll::Ready(None) => return Poll::Ready(None),
            Poll::Ready(Some(item)) => {
                if !item.is_empty() {
                    return Poll::Ready(Some(item));
                }
            }
        }
    }
}

impl<T: Stream<Item = Vec<u8>>> Shut for StreamReader<T> {
    ghost shuts = { λ s answer t. (t ≡ s) × (answer ≡ Ready tt) };

    fn poll_shutdown(&mut self) -> Poll<()> {
        Poll::Ready(())
    }
}

impl<T: Stream<Item = Vec<u8>>> Source for StreamReader<T> {
    ghost use Rattle.std.specs.Prelude.{refl};
    ghost use Rattle.rkt_stream.specs.Joining.{ReadsJoined, joining_meaning};
    ghost use Rattle.rkt_stream.specs.JoiningLaws.{pended_within};

    ghost meaning = { λ r. joining_meaning T.flow r };

    ghost polled = { ReadsJoined T.polled };

    fn poll_read(&mut self, gate: Gate, buf: &mut [u8]) -> Poll<Result<usize, SourceError>> {
        if buf.is_empty() {
            return Poll::Ready(Ok(0));
        }
        match self.fill(gate) {
            Poll::Pending => Poll::Pending,
            Poll::Ready(()) => Poll::Ready(Ok(self.give(buf))),
        }
    }

    ghost shut_is_warned = { λ s h. h };

    ghost shutdown_keeps = { λ s t answer e. Prim.rw (e.1, e.0) refl };

    ghost waits_within = { λ r. pended_within T.flow r.stream };
}
