//! A source and a sink in memory.
ghost use Rattle.std.specs.Prelude.{◌≡◌, ◌≤◌, [], length, max};
ghost use Rattle.rkt_base.specs.declared.poll.Poll.TheVariants.{Ready};

use crate::sink::{Sink, SinkError};
use crate::source::{Gate, Shut, Source, SourceError};
use rkt_base::Poll;
use std::alloc::Global;
use std::marker::Model;

/// A source over bytes in memory. Each read looks through the whole list of the calls that fail.
#[derive(Debug, Drop)]
pub struct MemorySource {
    bytes: Vec<u8>,
    at: usize,
    chunk: usize,
    fails: Vec<u64>,
    calls: u64,
    faults: u64,
}

impl Model for MemorySource {
    ghost use Rattle.std.specs.Prelude.{◌≤◌, vec_len};
    ghost use Rattle.rkt_source.specs.Memory.{SourceInMemory};

    ghost Value = { SourceInMemory };

    ghost view = { λ s. record {
      bytes = s.bytes.items;
      at = s.at;
      chunk = s.chunk;
      fails = s.fails.items;
      calls = s.calls;
      faults = s.faults;
    } };

    ghost invariant = { λ s. (s.at ≤ vec_len s.bytes) × (1 ≤ s.chunk) };
}

impl MemorySource {
    ghost use Rattle.rkt_source.specs.Memory.{ReadsNext};

    /// Gives at most `chunk` bytes per read, 0 counting as 1; the reads into a buffer that is not empty are numbered
    /// from 0, and those whose numbers stand in `fails` are refused.
    pub fn new(bytes: Vec<u8>, chunk: usize, fails: Vec<u64>) -> MemorySource
        ensures { result
            ≡ record { bytes = bytes.items; at = 0; chunk = max chunk 1; fails = fails.items; calls = 0; faults = 0 } }
    {
        MemorySource {
            bytes,
            at: 0,
            chunk: chunk.max(1),
            fails,
            calls: 0,
            faults: 0,
        }
    }

    fn read(&mut self, buf: &mut [u8]) -> Result<usize, SourceError>
        ensures reads { ReadsNext self.old self.new buf.old buf.new result }
        ensures later { self.old.faults ≤ self.new.faults }
        ensures within { (self.old.at ≤ length self.old.bytes) × (1 ≤ self.old.chunk) }
    {
        let fails = self.fails.contains(&self.calls);
        self.calls = self.calls.saturating_add(1);
        if fails {
            self.faults = self.faults.saturating_add(1);
            return Err(SourceError::SourceFault);
        }
        let rest = &self.bytes[self.at..];
        let count = self.chunk.min(buf.len()).min(rest.len());
        buf[..count].copy_from_slice(&rest[..count]);
        self.at += count;
        Ok(count)
    }
}

impl Shut for MemorySource {
    ghost shuts = { λ s answer t. (t ≡ s) × (answer ≡ Ready tt) };

    fn poll_shutdown(&mut self) -> Poll<()> {
        Poll::Ready(())
    }
}

impl Source for MemorySource {
    ghost use Rattle.std.specs.Prelude.{refl};
    ghost use Rattle.std.proofs.Common.{le_refl};
    ghost use Rattle.rkt_source.specs.Memory.{ReadsCounted, source_meaning};

    ghost meaning = { source_meaning };

    ghost polled = { λ s _ room answer t. ReadsCounted s room answer t };

    fn poll_read(&mut self, _gate: Gate, buf: &mut [u8]) -> Poll<Result<usize, SourceError>> {
        if buf.is_empty() {
            return Poll::Ready(Ok(0));
        }
        Poll::Ready(self.read(buf))
    }

    ghost shut_is_warned = { λ s h. h };

    ghost shutdown_keeps = { λ s t answer e. Prim.rw (e.1, e.0) refl };

    ghost waits_within = { λ s. le_refl 0 };
}

/// A sink that keeps its bytes in memory. Each write looks through the whole list of the calls that fail.
#[derive(Debug, Drop)]
pub struct MemorySink {
    bytes: Vec<u8>,
    fails: Vec<u64>,
    calls: u64,
    faults: u64,
}

impl Model for MemorySink {
    ghost use Rattle.rkt_source.specs.Memory.{SinkInMemory};

    ghost Value = { SinkInMemory };

    ghost view = { λ s. record { bytes = s.bytes.items; fails = s.fails.items; calls = s.calls; faults = s.faults } };
}

impl MemorySink {
    ghost use Rattle.rkt_source.specs.Memory.{WritesAll};

    /// Takes each piece whole; the writes are numbered from 0, and those whose numbers stand in `fails` are refused.
    pub fn new(alloc: Global, fails: Vec<u64>) -> MemorySink
        ensures { result ≡ record { bytes = []; fails = fails.items; calls = 0; faults = 0 } }
    {
        MemorySink {
            bytes: Vec::new(alloc),
            fails,
            calls: 0,
            faults: 0,
        }
    }

    /// The bytes taken so far.
    pub fn bytes(&self) -> &[u8]
        ensures { result.now ≡ self.now.bytes }
    {
        self.bytes.as_slice()
    }

    fn write(&mut self, piece: &[u8]) -> Result<usize, SinkError>
        ensures writes { WritesAll self.old self.new piece.now result }
        ensures later { self.old.faults ≤ self.new.faults }
    {
        let fails = self.fails.contains(&self.calls);
        self.calls = self.calls.saturating_add(1);
        if fails {
            self.faults = self.faults.saturating_add(1);
            return Err(SinkError::SinkFault);
        }
        match self.bytes.extend_from_slice(piece) {
            Ok(()) => Ok(piece.len()),
            Err(_) => Err(SinkError::NoMemory),
        }
    }
}

impl Sink for MemorySink {
    ghost use Rattle.rkt_source.specs.Memory.{WritesAtOnce, sink_meaning};

    ghost meaning = { sink_meaning };

    ghost written = { λ s piece answer t. WritesAtOnce s piece answer t };

    fn poll_write(&mut self, buf: &[u8]) -> Poll<Result<usize, SinkError>> {
        Poll::Ready(self.write(buf))
    }
}
