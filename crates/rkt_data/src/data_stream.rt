//! An opened body.
ghost use Rattle.std.specs.Prelude.{◌≡◌, ◌-◌, ◌≤◌, Ok, false, length, min};

use crate::limited_reader::LimitedReader;
use rkt_base::Poll;
use rkt_source::{Gate, Source, SourceError};
use std::marker::Model;

/// A number of bytes.
#[derive(Clone, Copy, Debug, Drop, PartialEq, Eq)]
pub struct ByteUnit(pub u64);

/// Gives the bytes of a body, up to its limit.
#[derive(Drop)]
pub struct DataStream<S: Source> {
    pipe: LimitedReader<S>,
}

impl<S: Source> Model for DataStream<S> {
    ghost use Rattle.std.specs.Prelude.{◌≡◌, false};
    ghost use Rattle.rkt_data.specs.Stream.{Opened};

    ghost Value = { Opened S };

    ghost view = { λ d. d.pipe.opened };

    ghost invariant = { λ d. d.pipe.probed ≡ false };
}

impl<S: Source> DataStream<S> {
    ghost use Rattle.rkt_data.specs.Stream.{AsksOnce, Follows, Reads, TakesAtMost, room_for};

    pub(crate) fn new(pipe: LimitedReader<S>) -> DataStream<S>
        requires { pipe.probed ≡ false }
        ensures { result ≡ pipe.opened }
    {
        DataStream { pipe }
    }

    pub(crate) fn into_pipe(self) -> LimitedReader<S>
        ensures { result ≡ record { opened = self; probed = false } }
    {
        self.pipe
    }

    /// How many bytes can be read without asking the source.
    pub fn hint(&self) -> usize
        ensures { result ≡ min (length self.now.front - self.now.given) (self.now.limit - self.now.given) }
    {
        self.pipe.hint()
    }

    /// Reads the next bytes into the front of a buffer and answers how many; 0 is the end of the body or the limit,
    /// where the buffer is not empty.
    pub fn poll_read(&mut self, gate: Gate, buf: &mut [u8]) -> Poll<Result<usize, SourceError>>
        ensures follows { Follows S.meaning gate.tripped self.old self.new }
        // Behind the bytes that are held the source is asked once, with all the room that the limit leaves.
        ensures by_gate { AsksOnce S.polled gate (room_for self.old (length buf.old)) result self.old self.new }
        ensures bound { TakesAtMost S.meaning self.new self.new.limit }
        ensures within { self.new.given ≤ self.new.limit }
        ensures empty { length buf.old ≡ 0 → (result ≡ Poll.Ready (Ok 0)) × (self.new ≡ self.old) }
        ensures answer { Reads S.meaning self.old self.new buf.old buf.new result }
    {
        self.pipe.read(gate, buf)
    }
}
