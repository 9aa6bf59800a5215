//! A link in memory.
ghost use Rattle.std.specs.Prelude.{◌≡◌, ◌++◌, ◌∷◌, [], false, List, IfOk, IsTrue, OnOk, OnErr};
ghost use Rattle.rkt_source.specs.Memory.{counted, is_listed};
ghost use Rattle.rkt_link.specs.Memory.{never_fails};

use crate::{Delivery, Link, SendError};
use rkt_base::{NoMemory, Poll};
use rkt_data::{MemorySource, Shut};
use rkt_message::Piece;
use rkt_request::Head;
use std::alloc::Global;
use std::marker::Model;

/// A link that keeps what it asks, and the pieces that it takes. It keeps the bytes of the body beside their source. The sends
/// whose numbers, from 0, stand in `fails` are faults; each send looks through that list. It is moved from hand to hand, so all
/// this is on the heap.
#[derive(Debug, Drop)]
pub struct MemoryLink {
    kept: Box<Kept>,
    alloc: Global,
}

#[derive(Debug, Drop)]
struct Kept {
    head: Head,
    body: Vec<u8>,
    source: Option<MemorySource>,
    held: Vec<Piece>,
    fails: Vec<u64>,
    sends: u64,
    faults: u64,
}

impl Model for MemoryLink {
    ghost use Rattle.std.specs.Prelude.{is_none};
    ghost use Rattle.rkt_link.specs.Memory.{LinkInMemory, StandsBy};

    ghost Value = { LinkInMemory };

    ghost view = { λ k. record {
      head = k.kept.value.head;
      body = k.kept.value.body.items;
      source_taken = is_none k.kept.value.source;
      held = k.kept.value.held.items;
      fails = k.kept.value.fails.items;
      sends = k.kept.value.sends;
      faults = k.kept.value.faults;
    } };

    ghost invariant = { λ k. StandsBy k.kept.value.source k.kept.value.body.items };
}

// How many pieces most responses are sent as: the head, a chunk and the end.
const USUAL: usize = 3;

// Takes a piece, in just the room that most responses need.
fn hold(held: &mut Vec<Piece>, piece: Piece) -> Result<(), NoMemory>
    ensures ok { OnOk result (held.new.items ≡ held.old.items ++ piece ∷ []) }
    ensures err { OnErr result (held.new.items ≡ held.old.items) }
{
    if held.is_empty() {
        held.reserve_exact(USUAL)?;
    }
    held.push(piece)?;
    Ok(())
}

impl MemoryLink {
    /// A link that asks this, with these bytes as the body, and has taken nothing.
    pub fn new(
        alloc: Global,
        head: Head,
        bytes: Vec<u8>,
        fails: Vec<u64>,
    ) -> Result<MemoryLink, NoMemory>
        ensures { IfOk result (λ link. link ≡ record {
          head = head;
          body = bytes.items;
          source_taken = false;
          held = [];
          fails = fails.items;
          sends = 0;
          faults = 0;
        }) }
    {
        let source = MemorySource::new(bytes.clone()?, bytes.len(), Vec::new(alloc));
        let kept = Box::new(
            alloc,
            Kept {
                head,
                body: bytes,
                source: Some(source),
                held: Vec::new(alloc),
                fails,
                sends: 0,
                faults: 0,
            },
        )?;
        Ok(MemoryLink { kept, alloc })
    }

    /// The bytes of the body.
    pub fn body(&self) -> &[u8]
        ensures { result.now ≡ self.now.body }
    {
        self.kept.body.as_slice()
    }

    /// The pieces that it has taken.
    pub fn held(&self) -> &[Piece]
        ensures { result.now ≡ self.now.held }
    {
        self.kept.held.as_slice()
    }

    /// How often it has failed.
    pub fn faults(&self) -> u64
        ensures { result ≡ self.now.faults }
    {
        self.kept.faults
    }

    // Counts one send more, and whether it fails.
    fn count_send(&mut self) -> bool
        ensures sends { self.new ≡ record self.old { sends = counted self.old.sends; faults = self.new.faults } }
        ensures fails { IsTrue result → (self.new.faults ≡ counted self.old.faults) × (never_fails self.old.fails ≡ false) }
        ensures passes { result ≡ false → self.new.faults ≡ self.old.faults }
        ensures listed { result ≡ is_listed self.old.fails self.old.sends }
    {
        let fails = self.kept.fails.contains(&self.kept.sends);
        self.kept.sends = self.kept.sends.saturating_add(1);
        if fails {
            self.kept.faults = self.kept.faults.saturating_add(1);
        }
        fails
    }
}

impl Shut for MemoryLink {
    ghost use Rattle.rkt_base.specs.declared.poll.Poll.TheVariants.{Ready};

    ghost shuts = { λ k answer l. (l ≡ k) × (answer ≡ Ready tt) };

    fn poll_shutdown(&mut self) -> Poll<()> {
        Poll::Ready(())
    }
}

impl Link for MemoryLink {
    ghost use Rattle.std.proofs.Common.{ap};
    ghost use Rattle.rkt_link.specs.Memory.{link_meaning, says_so};

    type Source = MemorySource;

    ghost meaning = { link_meaning };

    fn head(&self) -> &Head {
        &self.kept.head
    }

    fn take_source(&mut self) -> Option<MemorySource> {
        self.kept.source.take()
    }

    fn poll_send(&mut self, piece: &Piece) -> Poll<Result<(), SendError>> {
        if self.count_send() {
            return Poll::Ready(Err(SendError::Fault));
        }
        let Ok(copy) = piece.try_clone(self.alloc) else {
            return Poll::Ready(Err(SendError::NoMemory));
        };
        match hold(&mut self.kept.held, copy) {
            Ok(()) => Poll::Ready(Ok(())),
            Err(_) => Poll::Ready(Err(SendError::NoMemory)),
        }
    }

    fn poll_hand(&mut self, piece: Piece) -> Delivery {
        if self.count_send() {
            return Delivery::Refused(SendError::Fault);
        }
        match hold(&mut self.kept.held, piece) {
            Ok(()) => Delivery::Taken,
            Err(_) => Delivery::Refused(SendError::NoMemory),
        }
    }

    ghost asked_never_faults = { says_so };

    ghost shutdown_keeps = { λ k l answer shut. ap link_meaning shut.0 };
}
