//! The bytes of a piece on their way out.
ghost use Rattle.std.specs.Prelude.{◌≡◌, ◌≤◌, ◌<◌, ◌↔◌, [], IsTrue, OnOk, OnErr, drop, length};
ghost use Rattle.rkt_source.specs.Sink.{SinkKeeps};
ghost use Rattle.sample_link.specs.Encoding.{encoding};
ghost use Rattle.sample_link.specs.Writing.{NoneLost, WritesSome, EndsAs, FeedsFront};

use crate::encoding::encode;
use rkt_base::{NoMemory, Poll};
use rkt_data::{Sink, SinkError};
use rkt_message::Piece;
use std::alloc::Global;
use std::marker::Model;

/// The bytes of a piece, and the place up to which a sink has taken them. Contracts see what is left.
#[derive(Debug, Drop)]
pub struct Outbox {
    bytes: Vec<u8>,
    at: usize,
}

impl Model for Outbox {
    ghost use Rattle.std.specs.Prelude.{◌≤◌, List, ℕ, drop, vec_len};

    ghost Value = { List ℕ };

    ghost view = { λ o. drop o.at o.bytes.items };

    ghost invariant = { λ o. o.at ≤ vec_len o.bytes };
}

impl Outbox {
    /// Nothing.
    pub fn new(alloc: Global) -> Outbox
        ensures { result ≡ [] }
    {
        Outbox {
            bytes: Vec::new(alloc),
            at: 0,
        }
    }

    fn rest(&self) -> &[u8]
        ensures { result.now ≡ self.now }
    {
        &self.bytes[self.at..]
    }

    /// Whether nothing is left.
    pub fn is_empty(&self) -> bool
        ensures { IsTrue result ↔ (self.now ≡ []) }
    {
        self.rest().is_empty()
    }

    fn advance(&mut self, count: usize)
        requires { count ≤ length self.old }
        ensures { self.new ≡ drop count self.old }
    {
        self.at += count;
    }

    /// Lets go what is left.
    pub fn clear(&mut self)
        ensures { self.new ≡ [] }
    {
        self.bytes.clear();
        self.at = 0;
    }

    /// Takes the bytes of a piece in place of what is left.
    pub fn fill(&mut self, alloc: Global, piece: &Piece) -> Result<(), NoMemory>
        ensures ok { OnOk result (self.new ≡ encoding piece.now) }
        ensures err { OnErr result (self.new ≡ []) }
    {
        self.at = 0;
        self.bytes.clear();
        let encoded = encode(alloc, &mut self.bytes, piece);
        if encoded.is_err() {
            self.bytes.clear();
        }
        encoded
    }

    // Writes once. To take nothing is a fault.
    fn write_some<K: Sink>(&mut self, sink: &mut K) -> Poll<Result<(), SinkError>>
        requires { 0 < length self.old }
        ensures kept { SinkKeeps (K.meaning sink.old) (K.meaning sink.new) }
        ensures bytes { NoneLost (K.meaning sink.old) self.old (K.meaning sink.new) self.new }
        ensures feeds { FeedsFront K.written result sink.old self.old sink.new self.new }
        ensures answer { WritesSome result (K.meaning sink.old) self.old (K.meaning sink.new) self.new }
    {
        match sink.poll_write(self.rest()) {
            Poll::Pending => Poll::Pending,
            Poll::Ready(Err(error)) => Poll::Ready(Err(error)),
            Poll::Ready(Ok(count)) => {
                if count == 0 {
                    return Poll::Ready(Err(SinkError::SinkFault));
                }
                self.advance(count);
                Poll::Ready(Ok(()))
            }
        }
    }

    /// Writes until nothing is left or the sink takes no more.
    pub fn flush<K: Sink>(&mut self, sink: &mut K) -> Poll<Result<(), SinkError>>
        ensures kept { SinkKeeps (K.meaning sink.old) (K.meaning sink.new) }
        ensures bytes { NoneLost (K.meaning sink.old) self.old (K.meaning sink.new) self.new }
        ensures feeds { FeedsFront K.written result sink.old self.old sink.new self.new }
        ensures answer { EndsAs result (K.meaning sink.old) (K.meaning sink.new) self.new }
    {
        while !self.is_empty() {
            match self.write_some(sink) {
                Poll::Ready(Ok(())) => {}
                stopped => return stopped,
            }
        }
        Poll::Ready(Ok(()))
    }
}
