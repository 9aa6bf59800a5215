//! A link over a source and a sink.
ghost use Rattle.std.specs.Prelude.{◌≡◌, [], false, OnErr, OnOk};
ghost use Rattle.rkt_link.specs.Asked.{IsUntouched};
ghost use Rattle.rkt_link.specs.Link.{AfterSend};
ghost use Rattle.sample_link.specs.Streaming.{SendsBytes, stream_meaning, to_send};
ghost use Rattle.sample_link.specs.GivesUp.{GivesUp};

use crate::outbox::Outbox;
use rkt_base::{NoMemory, Poll};
use rkt_data::{Shut, Sink, SinkError, Source};
use rkt_link::{Link, SendError};
use rkt_message::Piece;
use rkt_request::Head;
use std::alloc::Global;
use std::marker::Model;
use std::snapshot::Snapshot;

/// A link over what comes of a connection and what goes to it. A piece is kept as bytes until the sink has taken all of
/// them, and only then is it taken. After an error what is left of the piece is let go; a server sends nothing more then.
#[derive(Drop)]
pub struct StreamLink<S: Source, K: Sink> {
    head: Head,
    source: Option<S>,
    given: Snapshot<S>,
    sink: K,
    outbox: Outbox,
    faults: u64,
    alloc: Global,
}

impl<S: Source, K: Sink> Model for StreamLink<S, K> {
    ghost use Rattle.std.specs.Prelude.{is_none};
    ghost use Rattle.sample_link.specs.Streaming.{Streaming, StandsBy};

    ghost Value = { Streaming S K };

    ghost view = { λ k. record {
      head = k.head;
      given = k.given.value;
      source_taken = is_none k.source;
      sink = k.sink;
      left = k.outbox;
      faults = k.faults;
    } };

    ghost invariant = { λ k. StandsBy S.meaning k.source k.given.value };
}

impl<S: Source, K: Sink> StreamLink<S, K> {
    /// A link whose request has this head, and the body that this source gives.
    pub fn new(alloc: Global, head: Head, source: S, sink: K) -> StreamLink<S, K>
        requires { IsUntouched (S.meaning source) }
        ensures { result ≡ record { head = head; given = source; source_taken = false; sink = sink; left = []; faults = 0 } }
    {
        let given = Snapshot::of(&source);
        StreamLink {
            head,
            source: Some(source),
            given,
            sink,
            outbox: Outbox::new(alloc),
            faults: 0,
            alloc,
        }
    }

    /// The sink, with what it has taken so far.
    pub fn sink(&self) -> &K
        ensures { result.now ≡ self.now.sink }
    {
        &self.sink
    }

    /// How often it has failed.
    pub fn faults(&self) -> u64
        ensures { result ≡ self.now.faults }
    {
        self.faults
    }

    // Goes on with the piece that is being written, or else begins with this one.
    fn begin(&mut self, piece: &Piece) -> Result<(), NoMemory>
        ensures ok { OnOk result (self.new ≡ record self.old { left = to_send self.old.left piece.now }) }
        ensures err { OnErr result (self.new ≡ record self.old { left = [] }) }
    {
        if !self.outbox.is_empty() {
            return Ok(());
        }
        self.outbox.fill(self.alloc, piece)
    }

    // Lets go what is left of the piece.
    fn give_up(&mut self, error: SinkError) -> SendError
        ensures { GivesUp error result self.old self.new }
    {
        self.outbox.clear();
        match error {
            SinkError::SinkFault => {
                self.faults = self.faults.saturating_add(1);
                SendError::Fault
            }
            SinkError::NoMemory => SendError::NoMemory,
        }
    }
}

impl<S: Source, K: Sink> Shut for StreamLink<S, K> {
    ghost use Rattle.rkt_base.specs.declared.poll.Poll.TheVariants.{Ready};

    ghost shuts = { λ k answer l. (l ≡ k) × (answer ≡ Ready tt) };

    fn poll_shutdown(&mut self) -> Poll<()> {
        Poll::Ready(())
    }
}

impl<S: Source, K: Sink> Link for StreamLink<S, K> {
    ghost use Rattle.std.proofs.Common.{ap};
    ghost use Rattle.sample_link.specs.Streaming.{stream_meaning, says_so};

    type Source = S;

    ghost meaning = { stream_meaning S.meaning K.meaning };

    fn head(&self) -> &Head {
        &self.head
    }

    fn take_source(&mut self) -> Option<S> {
        self.source.take()
    }

    fn poll_send(&mut self, piece: &Piece) -> Poll<Result<(), SendError>>
        ensures link { AfterSend result (stream_meaning S.meaning K.meaning self.old) piece.now
            (stream_meaning S.meaning K.meaning self.new) }
        ensures bytes { SendsBytes K.meaning result self.old piece.now self.new }
    {
        if self.begin(piece).is_err() {
            return Poll::Ready(Err(SendError::NoMemory));
        }
        match self.outbox.flush(&mut self.sink) {
            Poll::Pending => Poll::Pending,
            Poll::Ready(Ok(())) => Poll::Ready(Ok(())),
            Poll::Ready(Err(error)) => Poll::Ready(Err(self.give_up(error))),
        }
    }

    ghost asked_never_faults = { says_so S.meaning K.meaning };

    ghost shutdown_keeps = { λ k l answer shut. ap (stream_meaning S.meaning K.meaning) shut.0 };
}
