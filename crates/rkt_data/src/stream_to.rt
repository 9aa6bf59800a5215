//! An opened body that is sent to a sink, as polled states.
ghost use Rattle.std.specs.Option.{ForSome};
ghost use Rattle.std.specs.Prelude.{◌≡◌, Err, None, false};
ghost use Rattle.rkt_base.specs.declared.poll.Poll.TheVariants.{Ready};
ghost use Rattle.rkt_data.specs.Sending.{Sends, SendsBy};
ghost use Rattle.rkt_source.specs.Sink.{SinkKeeps};
ghost use Rattle.rkt_data.specs.Stream.{Follows, PullsAtMost, TakesAtMost};

use crate::capped::N;
use crate::copy::Copied;
use crate::data_stream::DataStream;
use crate::error::DataError;
use crate::sender::Sender;
use rkt_base::Poll;
use rkt_source::{Gate, Sink, Source};
use std::alloc::Global;
use std::marker::Model;

/// Sends the bytes of an opened body to a sink, up to its limit, and learns whether there are more.
#[derive(Drop)]
pub struct StreamTo<S: Source, K: Sink> {
    sender: Sender<S, K>,
    failed: Option<DataError>,
    done: bool,
}

impl<S: Source, K: Sink> Model for StreamTo<S, K> {
    ghost use Rattle.std.specs.Prelude.{◌+◌, ◌-◌, length};
    ghost use Rattle.rkt_data.specs.Sending.{Sending, SendsOn};

    ghost Value = { Sending S K };

    ghost view = { λ d. record {
      stream = d.sender.piped.opened;
      sink = d.sender.sink;
      from = d.sender.from;
      sent = d.sender.piped.opened.given - (d.sender.from + length d.sender.pending);
      failed = d.failed;
      done = d.done;
    } };

    ghost invariant = { λ d. SendsOn d.sender.piped.probed d.failed d.done };
}

impl<S: Source> DataStream<S> {
    /// A state that sends the bytes that are left to a sink.
    pub fn stream_to<K: Sink>(self, sink: K) -> StreamTo<S, K>
        ensures { result ≡ record {
          stream = self;
          sink = record { now = sink; begun = sink };
          from = self.given;
          sent = 0;
          failed = None;
          done = false;
        } }
    {
        StreamTo {
            sender: Sender::new(self.into_pipe(), sink),
            failed: None,
            done: false,
        }
    }
}

impl<S: Source, K: Sink> StreamTo<S, K> {
    ghost use Rattle.rkt_data.specs.Sending.{AnswersSent};

    /// Sends on. Once it has answered an error it answers the same one.
    pub fn poll(&mut self, alloc: Global, gate: Gate) -> Poll<Result<N, DataError>>
        requires { self.old.done ≡ false }
        ensures from { self.new.from ≡ self.old.from }
        ensures begun { self.new.sink.begun ≡ self.old.sink.begun }
        ensures follows { Follows S.meaning gate.tripped self.old.stream self.new.stream }
        // The source and the sink are asked in turn, and the answer is the last one's. The sink takes the next bytes of
        // the body.
        ensures calls { self.old.failed ≡ None → SendsBy S.meaning S.polled K.written gate result self.old self.new }
        ensures bound { PullsAtMost S.meaning self.new.stream }
        ensures keeps { SinkKeeps (K.meaning self.old.sink.now) (K.meaning self.new.sink.now) }
        ensures sends { Sends S.meaning K.meaning self.new.stream self.new.sink self.new.from self.new.sent }
        ensures repeats { ForSome self.old.failed (λ e. (result ≡ Ready (Err e)) × (self.new ≡ self.old)) }
        ensures answer { self.old.failed ≡ None → AnswersSent S.meaning K.meaning self.old self.new result }
    {
        if let Some(e) = self.failed {
            // For contracts alone: how much was taken from the source and sent so far.
            let _ = self.sender.sent();
            return Poll::Ready(Err(e));
        }
        match self.sender.run(alloc, gate) {
            Copied::Waiting => {
                // For contracts alone: how much was taken from the source and sent so far.
                let _ = self.sender.sent();
                Poll::Pending
            }
            Copied::Failed(e) => {
                // For contracts alone: how much was taken from the source and sent so far.
                let _ = self.sender.sent();
                self.failed = Some(e);
                Poll::Ready(Err(e))
            }
            Copied::Done => {
                let closed = self.sender.close(gate);
                let written = self.sender.sent();
                match closed {
                    Poll::Pending => Poll::Pending,
                    Poll::Ready(Err(e)) => {
                        let e = DataError::from(e);
                        self.failed = Some(e);
                        Poll::Ready(Err(e))
                    }
                    Poll::Ready(Ok(complete)) => {
                        self.done = true;
                        Poll::Ready(Ok(N { written, complete }))
                    }
                }
            }
        }
    }

    /// The sink, with what it was sent.
    pub fn into_sink(self) -> K
        ensures { result ≡ self.sink.now }
    {
        self.sender.into_sink()
    }
}

/// Sends the bytes of an opened body to a sink, up to its limit, and does not look past it.
#[derive(Drop)]
pub struct StreamPrecise<S: Source, K: Sink> {
    sender: Sender<S, K>,
    failed: Option<DataError>,
    done: bool,
}

impl<S: Source, K: Sink> Model for StreamPrecise<S, K> {
    ghost use Rattle.std.specs.Prelude.{◌≡◌, ◌+◌, ◌-◌, false, length};
    ghost use Rattle.rkt_data.specs.Sending.{Sending};

    ghost Value = { Sending S K };

    ghost view = { λ d. record {
      stream = d.sender.piped.opened;
      sink = d.sender.sink;
      from = d.sender.from;
      sent = d.sender.piped.opened.given - (d.sender.from + length d.sender.pending);
      failed = d.failed;
      done = d.done;
    } };

    ghost invariant = { λ d. d.sender.piped.probed ≡ false };
}

impl<S: Source> DataStream<S> {
    /// A state that sends the bytes that are left to a sink, and does not look past the limit.
    pub fn stream_precise_to<K: Sink>(self, sink: K) -> StreamPrecise<S, K>
        ensures { result ≡ record {
          stream = self;
          sink = record { now = sink; begun = sink };
          from = self.given;
          sent = 0;
          failed = None;
          done = false;
        } }
    {
        StreamPrecise {
            sender: Sender::new(self.into_pipe(), sink),
            failed: None,
            done: false,
        }
    }
}

impl<S: Source, K: Sink> StreamPrecise<S, K> {
    ghost use Rattle.rkt_data.specs.Sending.{AnswersPrecise};

    /// Sends on. Once it has answered an error it answers the same one.
    pub fn poll(&mut self, alloc: Global, gate: Gate) -> Poll<Result<u64, DataError>>
        requires { self.old.done ≡ false }
        ensures from { self.new.from ≡ self.old.from }
        ensures begun { self.new.sink.begun ≡ self.old.sink.begun }
        ensures follows { Follows S.meaning gate.tripped self.old.stream self.new.stream }
        // The source and the sink are asked in turn, and the answer is the last one's. The sink takes the next bytes of
        // the body.
        ensures calls { self.old.failed ≡ None → SendsBy S.meaning S.polled K.written gate result self.old self.new }
        // No byte past the limit is read.
        ensures bound { TakesAtMost S.meaning self.new.stream self.new.stream.limit }
        ensures keeps { SinkKeeps (K.meaning self.old.sink.now) (K.meaning self.new.sink.now) }
        ensures sends { Sends S.meaning K.meaning self.new.stream self.new.sink self.new.from self.new.sent }
        ensures repeats { ForSome self.old.failed (λ e. (result ≡ Ready (Err e)) × (self.new ≡ self.old)) }
        ensures answer { self.old.failed ≡ None → AnswersPrecise S.meaning K.meaning self.old self.new result }
    {
        if let Some(e) = self.failed {
            // For contracts alone: how much was taken from the source and sent so far.
            let _ = self.sender.sent();
            return Poll::Ready(Err(e));
        }
        let pumped = self.sender.run(alloc, gate);
        let written = self.sender.sent();
        match pumped {
            Copied::Waiting => Poll::Pending,
            Copied::Failed(e) => {
                self.failed = Some(e);
                Poll::Ready(Err(e))
            }
            Copied::Done => {
                self.done = true;
                Poll::Ready(Ok(written))
            }
        }
    }

    /// The sink, with what it was sent.
    pub fn into_sink(self) -> K
        ensures { result ≡ self.sink.now }
    {
        self.sender.into_sink()
    }
}
