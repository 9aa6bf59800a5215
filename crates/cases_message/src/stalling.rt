//! A source that keeps its reader waiting.
ghost use Rattle.std.specs.Prelude.{◌+◌, ◌<◌, ◌^◌};

use rkt_base::Poll;
use rkt_data::{Gate, MemorySource, Shut, Source, SourceError};

/// A source in memory that is Pending `row` times before each read, as long as it has `waits` left.
#[derive(Drop)]
pub struct Stalling {
    inner: MemorySource,
    row: u32,
    waited_in_row: u32,
    waited: u64,
    waits: u64,
    ghost fits: { waited + waits < 2 ^ 64 },
}

impl Stalling {
    pub fn new(inner: MemorySource, row: u32, waits: u64) -> Stalling {
        Stalling {
            inner,
            row,
            waited_in_row: 0,
            waited: 0,
            waits,
        }
    }
}

impl Shut for Stalling {
    ghost use Rattle.rkt_source.specs.Memory.{source_meaning};
    ghost use Rattle.rkt_source.specs.Source.{Shuts};

    ghost shuts = { λ s answer t.
        Shuts (record (source_meaning s.inner) { pended = s.waited; pendings = s.waited + s.waits }) answer
        (record (source_meaning t.inner) { pended = t.waited; pendings = t.waited + t.waits }) };

    fn poll_shutdown(&mut self) -> Poll<()> {
        Poll::Ready(())
    }
}

impl Source for Stalling {
    ghost use Rattle.std.proofs.Common.{le-add_right};
    ghost use Rattle.rkt_source.specs.Memory.{source_meaning};

    ghost meaning = { λ s. record (source_meaning s.inner) { pended = s.waited; pendings = s.waited + s.waits } };

    ghost polled = { λ _ _ _ _ _. Unit {0} };

    fn poll_read(&mut self, gate: Gate, buf: &mut [u8]) -> Poll<Result<usize, SourceError>> {
        if buf.is_empty() {
            return Poll::Ready(Ok(0));
        }
        if self.waited_in_row < self.row && self.waits > 0 {
            self.waited_in_row += 1;
            self.waits -= 1;
            self.waited += 1;
            return Poll::Pending;
        }
        self.waited_in_row = 0;
        self.inner.poll_read(gate, buf)
    }

    ghost shut_is_warned = { λ s h. h };

    ghost shutdown_keeps = { λ s t answer e. e };

    ghost waits_within = { λ s. le-add_right s.waited s.waits };
}
