ghost use Rattle.std.specs.Prelude.{◌≡◌};

use rkt_base::Poll;
use rkt_data::{Gate, Shut, Source, SourceError};
use std::io::Read;

/// A source over a reader of std, which tells no content.
#[derive(Drop)]
pub struct ReaderSource<R: Read + Drop> {
    inner: R,
    taken: u64,
    faults: u64,
}

impl<R: Read + Drop> ReaderSource<R> {
    pub fn new(inner: R) -> ReaderSource<R> {
        ReaderSource {
            inner,
            taken: 0,
            faults: 0,
        }
    }
}

impl<R: Read + Drop> Shut for ReaderSource<R> {
    ghost use Rattle.rkt_base.specs.declared.poll.Poll.TheVariants.{Ready};

    ghost shuts = { λ s answer t. (t ≡ s) × (answer ≡ Ready tt) };

    fn poll_shutdown(&mut self) -> Poll<()> {
        Poll::Ready(())
    }
}

impl<R: Read + Drop> Source for ReaderSource<R> {
    ghost use Rattle.std.proofs.Common.{le_refl};
    ghost use Rattle.std.specs.Prelude.{None, false, refl};

    ghost meaning = { λ s. record {
      whole = None;
      taken = s.taken;
      faults = s.faults;
      never_faults = false;
      warned = false;
      shut = false;
      pended = 0;
      pendings = 0;
    } };

    ghost polled = { λ _ _ _ _ _. Unit {0} };

    // A read whose bytes no u64 can count any more is refused.
    fn poll_read(&mut self, _gate: Gate, buf: &mut [u8]) -> Poll<Result<usize, SourceError>> {
        if buf.is_empty() {
            return Poll::Ready(Ok(0));
        }
        let Ok(count) = self.inner.read(buf) else {
            self.faults = self.faults.saturating_add(1);
            return Poll::Ready(Err(SourceError::SourceFault));
        };
        let Some(taken) = self.taken.checked_add(count as u64) else {
            self.faults = self.faults.saturating_add(1);
            return Poll::Ready(Err(SourceError::SourceFault));
        };
        self.taken = taken;
        Poll::Ready(Ok(count))
    }

    ghost shut_is_warned = { λ s h. h };

    ghost shutdown_keeps = { λ s t answer e. Prim.rw (e.1, e.0) refl };

    ghost waits_within = { λ s. le_refl 0 };
}
