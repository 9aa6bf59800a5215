//! Where the bodies of requests come from.
ghost use Rattle.std.specs.Prelude.{◌+◌, ◌<◌, ◌^◌};

use rkt_base::Poll;
use rkt_data::{Gate, MemorySource, Shut, Source, SourceError};

/// A source in memory that is Pending once before each of its first reads.
#[derive(Drop)]
pub struct Paused {
    inner: MemorySource,
    /// It was Pending, and is not for the next poll.
    rested: bool,
    waited: u64,
    waits: u64,
    ghost fits: { waited + waits < 2 ^ 64 },
}

impl Paused {
    /// So many of the first reads wait.
    pub fn new(inner: MemorySource, waits: u64) -> Paused {
        Paused {
            inner,
            rested: false,
            waited: 0,
            waits,
        }
    }
}

impl Shut for Paused {
    ghost use Rattle.rkt_source.specs.Memory.{source_meaning};
    ghost use Rattle.rkt_source.specs.Source.{Shuts};

    ghost shuts = { λ s answer t.
        Shuts (record (source_meaning s.inner) { pended = s.waited; pendings = s.waited + s.waits }) answer
        (record (source_meaning t.inner) { pended = t.waited; pendings = t.waited + t.waits }) };

    fn poll_shutdown(&mut self) -> Poll<()> {
        Poll::Ready(())
    }
}

impl Source for Paused {
    ghost use Rattle.std.proofs.Common.{le-add_right};
    ghost use Rattle.rkt_source.specs.Memory.{source_meaning};

    ghost meaning = { λ s. record (source_meaning s.inner) { pended = s.waited; pendings = s.waited + s.waits } };

    ghost polled = { λ _ _ _ _ _. Unit {0} };

    fn poll_read(&mut self, gate: Gate, buf: &mut [u8]) -> Poll<Result<usize, SourceError>> {
        if buf.is_empty() {
            return Poll::Ready(Ok(0));
        }
        if self.waits > 0 && !self.rested {
            self.waits -= 1;
            self.waited += 1;
            self.rested = true;
            return Poll::Pending;
        }
        self.rested = false;
        self.inner.poll_read(gate, buf)
    }

    ghost shut_is_warned = { λ s h. h };

    ghost shutdown_keeps = { λ s t answer e. e };

    ghost waits_within = { λ s. le-add_right s.waited s.waits };
}
