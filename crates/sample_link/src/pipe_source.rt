//! The end of a pipe that gives bytes.
ghost use Rattle.std.specs.Prelude.{◌≡◌, ◌+◌, ◌-◌, ◌≤◌, ◌<◌, length, max, min};
ghost use Rattle.rkt_source.specs.Source.{Gives};
ghost use Rattle.sample_link.specs.Pipes.{giving_meaning};

use crate::calls::{Calls, Turn};
use rkt_base::Poll;
use rkt_data::{Gate, Shut, Source, SourceError};
use std::marker::Model;

/// A source in memory that may be Pending, and may fail.
#[derive(Debug, Drop)]
pub struct PipeSource {
    bytes: Vec<u8>,
    at: usize,
    chunk: usize,
    calls: Calls,
}

impl Model for PipeSource {
    ghost use Rattle.std.specs.Prelude.{◌≤◌, vec_len};
    ghost use Rattle.sample_link.specs.Pipes.{GivingEnd};

    ghost Value = { GivingEnd };

    ghost view = { λ s. record { bytes = s.bytes.items; at = s.at; chunk = s.chunk; calls = s.calls } };

    ghost invariant = { λ s. (s.at ≤ vec_len s.bytes) × (1 ≤ s.chunk) };
}

impl PipeSource {
    /// Gives at most `chunk` bytes per read, 0 counting as 1.
    pub fn new(bytes: Vec<u8>, chunk: usize, calls: Calls) -> PipeSource
        ensures { result ≡ record { bytes = bytes.items; at = 0; chunk = max chunk 1; calls = calls } }
    {
        PipeSource {
            bytes,
            at: 0,
            chunk: chunk.max(1),
            calls,
        }
    }

    // Gives the next bytes.
    fn read(&mut self, buf: &mut [u8]) -> usize
        ensures fits { result ≤ length buf.old }
        // As many as a read gives, as there is room for, and as are left.
        ensures count { result ≡ min (min self.old.chunk (length buf.old)) (length self.old.bytes - self.old.at) }
        ensures given { self.new ≡ record self.old { at = self.old.at + result } }
        ensures bytes { 0 < length buf.old → Gives self.old.bytes self.old.at result buf.new }
    {
        let rest = &self.bytes[self.at..];
        let count = self.chunk.min(buf.len()).min(rest.len());
        buf[..count].copy_from_slice(&rest[..count]);
        self.at += count;
        count
    }
}

impl Shut for PipeSource {
    ghost use Rattle.rkt_base.specs.declared.poll.Poll.TheVariants.{Ready};

    ghost shuts = { λ s answer t. (t ≡ s) × (answer ≡ Ready tt) };

    fn poll_shutdown(&mut self) -> Poll<()> {
        Poll::Ready(())
    }
}

impl Source for PipeSource {
    ghost use Rattle.std.specs.Prelude.{length, refl};
    ghost use Rattle.std.proofs.Common.{le-add_right};
    ghost use Rattle.sample_link.specs.Pipes.{ReadsMore, giving_meaning};

    ghost meaning = { giving_meaning };

    ghost polled = { λ s _ room answer t. ReadsMore s room answer t };

    fn poll_read(&mut self, _gate: Gate, buf: &mut [u8]) -> Poll<Result<usize, SourceError>> {
        if buf.is_empty() {
            return Poll::Ready(Ok(0));
        }
        match self.calls.turn() {
            Turn::Waits => Poll::Pending,
            Turn::Fails => Poll::Ready(Err(SourceError::SourceFault)),
            Turn::Goes => Poll::Ready(Ok(self.read(buf))),
        }
    }

    ghost shut_is_warned = { λ s h. h };

    ghost shutdown_keeps = { λ s t answer e. Prim.rw (e.1, e.0) refl };

    ghost waits_within = { λ s. le-add_right s.calls.pended (length s.calls.pends) };
}
