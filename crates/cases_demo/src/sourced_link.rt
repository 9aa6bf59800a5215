//! A link in memory whose body may fail.
ghost use Rattle.std.specs.Prelude.{◌≡◌, IfOk};
ghost use Rattle.cases_demo.specs.Sourced.{IsUnused};

use rkt_base::{NoMemory, Poll};
use rkt_data::{MemorySource, Shut};
use rkt_message::Piece;
use rkt_request::Head;
use rkt_serve::{Delivery, Link, MemoryLink, SendError};
use std::alloc::Global;
use std::marker::Model;

// The most that one read of a body gives.
const CHUNK: usize = 4;

/// A link in memory with a source of its own for the body: a read gives four bytes at most, and the reads whose numbers, from
/// 0, stand in `reads` fail.
#[derive(Drop)]
pub struct SourcedLink {
    link: MemoryLink,
    reads: Vec<u64>,
    source: Option<MemorySource>,
}

impl Model for SourcedLink {
    ghost use Rattle.std.specs.Prelude.{is_none};
    ghost use Rattle.cases_demo.specs.Sourced.{Sourced, StandsBy};

    ghost Value = { Sourced };

    ghost view = { λ k. record { link = k.link; reads = k.reads.items; source_taken = is_none k.source } };

    ghost invariant = { λ k. StandsBy k.source k.link.body k.reads.items };
}

impl SourcedLink {
    /// A link that asks this, with these bytes as the body, and of which these sends and these reads fail.
    pub fn new(
        alloc: Global,
        head: Head,
        bytes: Vec<u8>,
        sends: Vec<u64>,
        reads: Vec<u64>,
    ) -> Result<SourcedLink, NoMemory>
        ensures { IfOk result IsUnused }
    {
        let source = MemorySource::new(bytes.clone()?, CHUNK, reads.clone()?);
        let link = MemoryLink::new(alloc, head, bytes, sends)?;
        Ok(SourcedLink {
            link,
            reads,
            source: Some(source),
        })
    }

    /// The pieces that it has taken.
    pub fn held(&self) -> &[Piece] {
        self.link.held()
    }
}

impl Shut for SourcedLink {
    ghost use Rattle.rkt_base.specs.declared.poll.Poll.TheVariants.{Ready};

    ghost shuts = { λ k answer l. (l ≡ k) × (answer ≡ Ready tt) };

    fn poll_shutdown(&mut self) -> Poll<()> {
        Poll::Ready(())
    }
}

impl Link for SourcedLink {
    ghost use Rattle.std.proofs.Common.{ap};
    ghost use Rattle.cases_demo.specs.Sourced.{says_so, sourced_meaning};

    type Source = MemorySource;

    ghost meaning = { sourced_meaning };

    fn head(&self) -> &Head {
        self.link.head()
    }

    fn take_source(&mut self) -> Option<MemorySource> {
        self.source.take()
    }

    fn poll_send(&mut self, piece: &Piece) -> Poll<Result<(), SendError>> {
        self.link.poll_send(piece)
    }

    fn poll_hand(&mut self, piece: Piece) -> Delivery {
        self.link.poll_hand(piece)
    }

    ghost asked_never_faults = { says_so };

    ghost shutdown_keeps = { λ k l answer shut. ap sourced_meaning shut.0 };
}
