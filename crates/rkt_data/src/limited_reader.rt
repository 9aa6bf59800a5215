//! What an opened body reads from: the bytes held, and then the source, up to a limit.
ghost use Rattle.std.specs.Prelude.{◌≡◌, ◌+◌, ◌-◌, ◌<◌, ◌≤◌, Ok, false, length, min, take, true, vec_len};

use crate::counted_source::CountedSource;
use rkt_base::Poll;
use rkt_source::{Gate, Source, SourceError};
use std::marker::Model;

#[derive(Drop)]
pub(crate) struct LimitedReader<S: Source> {
    bytes: Vec<u8>,
    held: usize,
    tap: Option<CountedSource<S>>,
    limit: u64,
    given: u64,
    probed: bool,
}

impl<S: Source> Model for LimitedReader<S> {
    ghost use Rattle.std.specs.Prelude.{◌≤◌, take, vec_len};
    ghost use Rattle.rkt_data.specs.Stream.{Piped, DrawnBy};
    ghost use Rattle.rkt_data.specs.CountedSource.{tapped};

    ghost Value = { Piped S };

    ghost view = { λ p. record {
      opened = record { front = take p.held p.bytes.items; tap = tapped p.tap; limit = p.limit; given = p.given };
      probed = p.probed;
    } };

    ghost invariant = { λ p. DrawnBy S.meaning (take p.held p.bytes.items) p.limit p.given p.probed (tapped p.tap)
        × (p.held ≤ vec_len p.bytes)
        × (p.given ≤ p.limit) };
}

impl<S: Source> LimitedReader<S> {
    ghost use Rattle.rkt_data.specs.Gathering.{IsUsedUp, Closes};
    ghost use Rattle.rkt_data.specs.Stream.{AsksOnce, DrawnBy, Follows, Reads, Probes, TakesAtMost, PullsAtMost, room_for};
    ghost use Rattle.rkt_data.specs.CountedSource.{tapped, ByGate, ending_of};

    pub(crate) fn new(
        bytes: Vec<u8>,
        held: usize,
        tap: Option<CountedSource<S>>,
        limit: u64,
    ) -> LimitedReader<S>
        requires drawn { DrawnBy S.meaning (take held bytes.items) limit 0 false (tapped tap) }
        requires held { held ≤ vec_len bytes }
        ensures piped { result ≡ record {
          opened = record { front = take held bytes.items; tap = tapped tap; limit = limit; given = 0 };
          probed = false;
        } }
        ensures bound { PullsAtMost S.meaning result.opened }
    {
        LimitedReader {
            bytes,
            held,
            tap,
            limit,
            given: 0,
            probed: false,
        }
    }

    // How many bytes are left under the limit.
    pub(crate) fn left(&self) -> u64
        ensures left { result + self.now.opened.given ≡ self.now.opened.limit }
        ensures bound { PullsAtMost S.meaning self.now.opened }
        ensures not_probed { self.now.probed ≡ false → TakesAtMost S.meaning self.now.opened self.now.opened.limit }
    {
        self.limit - self.given
    }

    pub(crate) fn given(&self) -> u64
        ensures { result ≡ self.now.opened.given }
    {
        self.given
    }

    pub(crate) fn hint(&self) -> usize
        ensures { result
            ≡ min (length self.now.opened.front - self.now.opened.given) (self.now.opened.limit - self.now.opened.given) }
    {
        let held = (self.held as u64).saturating_sub(self.given);
        held.min(self.limit - self.given) as usize
    }

    pub(crate) fn read(&mut self, gate: Gate, buf: &mut [u8]) -> Poll<Result<usize, SourceError>>
        requires { self.old.probed ≡ false }
        ensures probed { self.new.probed ≡ false }
        ensures follows { Follows S.meaning gate.tripped self.old.opened self.new.opened }
        ensures by_gate { AsksOnce S.polled gate
            (room_for self.old.opened (length buf.old)) result self.old.opened self.new.opened }
        ensures bound { TakesAtMost S.meaning self.new.opened self.new.opened.limit }
        ensures within { self.new.opened.given ≤ self.new.opened.limit }
        ensures empty { length buf.old ≡ 0 → (result ≡ Poll.Ready (Ok 0)) × (self.new ≡ self.old) }
        ensures answer { Reads S.meaning self.old.opened self.new.opened buf.old buf.new result }
    {
        let given = self.given;
        let room = (buf.len() as u64).min(self.limit - given) as usize;
        if given < self.held as u64 {
            let from = given as usize;
            let n = room.min(self.held - from);
            buf[..n].copy_from_slice(&self.bytes.as_slice()[from..from + n]);
            self.given = given + n as u64;
            return Poll::Ready(Ok(n));
        }
        if room == 0 {
            return Poll::Ready(Ok(0));
        }
        match &mut self.tap {
            None => Poll::Ready(Ok(0)),
            Some(tap) => match tap.source.poll_read(gate, &mut buf[..room]) {
                Poll::Ready(Ok(n)) => {
                    self.given = given + n as u64;
                    Poll::Ready(Ok(n))
                }
                Poll::Ready(Err(e)) => Poll::Ready(Err(e)),
                Poll::Pending => Poll::Pending,
            },
        }
    }

    // Whether the body has no more than its limit, up to which all was given. At most one byte past it is read.
    pub(crate) fn close(&mut self, gate: Gate) -> Poll<Result<bool, SourceError>>
        requires used_up { IsUsedUp S.meaning self.old.opened }
        requires not_probed { self.old.probed ≡ false }
        ensures given { self.new.opened.given ≡ self.old.opened.given }
        ensures within { self.new.opened.given ≤ self.new.opened.limit }
        ensures follows { Follows S.meaning gate.tripped self.old.opened self.new.opened }
        ensures by_gate { ByGate S.polled gate (ending_of result) self.old.opened.tap self.new.opened.tap }
        ensures bound { PullsAtMost S.meaning self.new.opened }
        ensures below { self.old.opened.given < self.old.opened.limit
            → (self.new ≡ self.old) × (result ≡ Poll.Ready (Ok true)) }
        ensures closes { Closes S.meaning self.old self.new result }
    {
        if self.left() > 0 {
            return Poll::Ready(Ok(true));
        }
        self.probe(gate)
    }

    // Whether the body ends at its limit, all of which was given.
    fn probe(&mut self, gate: Gate) -> Poll<Result<bool, SourceError>>
        requires used_up { self.old.opened.given ≡ self.old.opened.limit }
        requires not_probed { self.old.probed ≡ false }
        ensures given { self.new.opened.given ≡ self.old.opened.given }
        ensures follows { Follows S.meaning gate.tripped self.old.opened self.new.opened }
        ensures by_gate { ByGate S.polled gate (ending_of result) self.old.opened.tap self.new.opened.tap }
        ensures bound { PullsAtMost S.meaning self.new.opened }
        ensures answer { Probes S.meaning self.old self.new result }
    {
        if self.given < self.held as u64 {
            return Poll::Ready(Ok(false));
        }
        let mut one = [0u8; 1];
        match &mut self.tap {
            None => Poll::Ready(Ok(true)),
            Some(tap) => match tap.source.poll_read(gate, &mut one) {
                Poll::Ready(Ok(n)) => {
                    self.probed = n != 0;
                    Poll::Ready(Ok(n == 0))
                }
                Poll::Ready(Err(e)) => Poll::Ready(Err(e)),
                Poll::Pending => Poll::Pending,
            },
        }
    }
}
