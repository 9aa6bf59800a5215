//! One source behind another.
ghost use Rattle.std.specs.Prelude.{◌≡◌};

use rkt_base::Poll;
use rkt_source::{Gate, Shut, Source, SourceError};
use std::marker::Model;
use std::snapshot::Snapshot;

/// Gives the bytes of the first source, and then those that the second has still to give.
#[derive(Drop)]
pub struct Chain<T: Source, U: Source> {
    first: T,
    second: U,
    begun: Snapshot<U>,
    over: bool,
}

impl<T: Source, U: Source> Model for Chain<T, U> {
    ghost use Rattle.rkt_stream.specs.Chain.{Chained, InTurn};

    ghost Value = { Chained T U };

    ghost view = { λ c.
        record { first = c.first; second = c.second; skipped = (U.meaning c.begun.value).taken; over = c.over } };

    ghost invariant = { λ c. InTurn c.over (U.meaning c.begun.value).taken (T.meaning c.first) (U.meaning c.second) };
}

impl<T: Source, U: Source> Chain<T, U> {
    ghost use Rattle.std.specs.Prelude.{false};

    pub fn new(first: T, second: U) -> Chain<T, U>
        ensures { result ≡ record { first = first; second = second; skipped = (U.meaning second).taken; over = false } }
    {
        let begun = Snapshot::of(&second);
        Chain {
            first,
            second,
            begun,
            over: false,
        }
    }

    /// The two sources, as they are now.
    pub fn get_ref(&self) -> (&T, &U)
        ensures first { result.0.now ≡ self.now.first }
        ensures second { result.1.now ≡ self.now.second }
    {
        (&self.first, &self.second)
    }
}

impl<T: Source, U: Source> Shut for Chain<T, U> {
    ghost use Rattle.rkt_stream.specs.Chain.{ShutsChained};

    ghost shuts = { λ c answer d. ShutsChained T.shuts U.shuts c answer d };

    // The first is asked again where the second was Pending.
    fn poll_shutdown(&mut self) -> Poll<()> {
        match self.first.poll_shutdown() {
            Poll::Pending => Poll::Pending,
            Poll::Ready(()) => self.second.poll_shutdown(),
        }
    }
}

impl<T: Source, U: Source> Source for Chain<T, U> {
    ghost use Rattle.rkt_stream.specs.Chain.{ReadsChained, chained_meaning};
    ghost use Rattle.rkt_stream.specs.ChainLaws.{chained_shut_is_warned, chained_shuts, chained_waits_within};

    ghost meaning = { λ c. chained_meaning c.over c.skipped (T.meaning c.first) (U.meaning c.second) };

    ghost polled = { ReadsChained T.polled U.polled };

    fn poll_read(&mut self, gate: Gate, buf: &mut [u8]) -> Poll<Result<usize, SourceError>> {
        if buf.is_empty() {
            return Poll::Ready(Ok(0));
        }
        if self.over {
            return self.second.poll_read(gate, buf);
        }
        match self.first.poll_read(gate, buf) {
            Poll::Ready(Ok(0)) => {
                self.over = true;
                self.second.poll_read(gate, buf)
            }
            Poll::Ready(Ok(n)) => Poll::Ready(Ok(n)),
            Poll::Ready(Err(e)) => Poll::Ready(Err(e)),
            Poll::Pending => Poll::Pending,
        }
    }

    ghost shut_is_warned = { λ c. chained_shut_is_warned c.over c.skipped (T.meaning c.first) (U.meaning c.second)
        (T.shut_is_warned c.first) (U.shut_is_warned c.second) };

    ghost shutdown_keeps = { λ c d answer h. chained_shuts T.meaning U.meaning T.shuts U.shuts T.shutdown_keeps U.shutdown_keeps
        T.waits_within U.waits_within c d answer h };

    ghost waits_within = { λ c.
        chained_waits_within (T.meaning c.first) (U.meaning c.second) (T.waits_within c.first) (U.waits_within c.second) };
}
