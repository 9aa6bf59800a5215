//! An opened body on its way to a sink.
ghost use Rattle.std.specs.Prelude.{◌≡◌, ◌+◌, ◌-◌, ◌<◌, ◌≤◌, [], Ok, false, length, true};
ghost use Rattle.rkt_data.specs.Gathering.{IsUsedUp, Closes};
ghost use Rattle.rkt_base.specs.declared.poll.Poll.TheVariants.{Ready};
ghost use Rattle.rkt_data.specs.Sending.{PumpStops, SentAll, SenderSends, Sends, pumped_answer};
ghost use Rattle.rkt_source.specs.Sink.{SinkKeeps};
ghost use Rattle.rkt_data.specs.Stream.{Follows, TakesAtMost, PullsAtMost};
ghost use Rattle.rkt_data.specs.CountedSource.{ByGate, ending_of};

use crate::copy::{Copied, copy, resume};
use crate::error::DataError;
use crate::limited_reader::LimitedReader;
use rkt_base::Poll;
use rkt_source::{Gate, Sink, Source, SourceError};
use std::alloc::Global;
use std::marker::Model;
use std::snapshot::Snapshot;

#[derive(Drop)]
pub(crate) struct Sender<S: Source, K: Sink> {
    pipe: LimitedReader<S>,
    sink: K,
    begun: Snapshot<K>,
    from: u64,
    buf: Option<Vec<u8>>,
    at: usize,
    end: usize,
}

impl<S: Source, K: Sink> Model for Sender<S, K> {
    ghost use Rattle.std.specs.Prelude.{◌≤◌, length};
    ghost use Rattle.rkt_source.specs.Buffer.{items_of};
    ghost use Rattle.rkt_data.specs.Sending.{SentState, SentOf, HasRoom, between};

    ghost Value = { SentState S K };

    ghost view = { λ d. record {
      piped = d.pipe;
      sink = record { now = d.sink; begun = d.begun.value };
      from = d.from;
      pending = between d.at d.end (items_of d.buf);
    } };

    ghost invariant = { λ d. SentOf S.meaning K.meaning d.pipe.opened (record { now = d.sink; begun = d.begun.value }) d.from
        (between d.at d.end (items_of d.buf))
        × (d.at ≤ d.end)
        × (d.end ≤ length (items_of d.buf))
        × HasRoom d.buf };
}

impl<S: Source, K: Sink> Sender<S, K> {
    pub(crate) fn new(pipe: LimitedReader<S>, sink: K) -> Sender<S, K>
        ensures { result ≡ record {
          piped = pipe;
          sink = record { now = sink; begun = sink };
          from = pipe.opened.given;
          pending = [];
        } }
    {
        let begun = Snapshot::of(&sink);
        Sender {
            from: pipe.given(),
            pipe,
            sink,
            begun,
            buf: None,
            at: 0,
            end: 0,
        }
    }

    // How many bytes were sent.
    pub(crate) fn sent(&self) -> u64
        ensures count { result ≡ self.now.piped.opened.given - (self.now.from + length self.now.pending) }
        ensures sends { Sends S.meaning K.meaning self.now.piped.opened self.now.sink self.now.from
            (self.now.piped.opened.given - (self.now.from + length self.now.pending)) }
        ensures all { self.now.pending ≡ []
            → IsUsedUp S.meaning self.now.piped.opened
            → SentAll S.meaning self.now.piped.opened self.now.from
            (self.now.piped.opened.given - (self.now.from + length self.now.pending)) }
        ensures bound { PullsAtMost S.meaning self.now.piped.opened }
        ensures not_probed { self.now.piped.probed ≡ false
            → TakesAtMost S.meaning self.now.piped.opened self.now.piped.opened.limit }
    {
        // For contracts alone: how much was taken from the source so far.
        let _ = self.pipe.left();
        self.pipe.given() - self.from - (self.end - self.at) as u64
    }

    // Sends on until all up to the limit was sent.
    pub(crate) fn run(&mut self, alloc: Global, gate: Gate) -> Copied
        requires { self.old.piped.probed ≡ false }
        ensures not_probed { self.new.piped.probed ≡ false }
        ensures from { self.new.from ≡ self.old.from }
        ensures begun { self.new.sink.begun ≡ self.old.sink.begun }
        ensures follows { Follows S.meaning gate.tripped self.old.piped.opened self.new.piped.opened }
        ensures calls { SenderSends S.meaning S.polled K.written gate (pumped_answer result) self.old self.new }
        ensures unmet { result ≡ Copied.Done → self.new.piped.opened.limit ≤ self.new.piped.opened.given
            → SenderSends S.meaning S.polled K.written gate (Ready (Ok false)) self.old self.new }
        ensures bound { TakesAtMost S.meaning self.new.piped.opened self.new.piped.opened.limit }
        ensures keeps { SinkKeeps (K.meaning self.old.sink.now) (K.meaning self.new.sink.now) }
        ensures stops { PumpStops S.meaning K.meaning self.old.piped.opened self.new.piped.opened self.old.sink.now
            self.new.sink.now self.new.pending result }
    {
        // For contracts alone: how much was taken from the source so far.
        let _ = self.pipe.left();
        let mut buf = match resume(&mut self.buf, alloc) {
            Ok(buf) => buf,
            Err(_) => return Copied::Failed(DataError::NoMemory),
        };
        let (at, end, stop) = copy(
            &mut self.pipe,
            gate,
            &mut self.sink,
            buf.as_mut_slice(),
            self.at,
            self.end,
        );
        self.buf = Some(buf);
        self.at = at;
        self.end = end;
        stop
    }

    // Whether the body has no more than its limit, up to which all was sent.
    pub(crate) fn close(&mut self, gate: Gate) -> Poll<Result<bool, SourceError>>
        requires used_up { IsUsedUp S.meaning self.old.piped.opened }
        requires not_probed { self.old.piped.probed ≡ false }
        ensures from { self.new.from ≡ self.old.from }
        ensures sink { self.new.sink ≡ self.old.sink }
        ensures pending { self.new.pending ≡ self.old.pending }
        ensures given { self.new.piped.opened.given ≡ self.old.piped.opened.given }
        ensures follows { Follows S.meaning gate.tripped self.old.piped.opened self.new.piped.opened }
        ensures by_gate { ByGate S.polled gate (ending_of result) self.old.piped.opened.tap self.new.piped.opened.tap }
        ensures below { self.old.piped.opened.given < self.old.piped.opened.limit
            → (self.new.piped ≡ self.old.piped) × (result ≡ Ready (Ok true)) }
        ensures closes { Closes S.meaning self.old.piped self.new.piped result }
    {
        self.pipe.close(gate)
    }

    pub(crate) fn into_sink(self) -> K
        ensures { result ≡ self.sink.now }
    {
        self.sink
    }
}
