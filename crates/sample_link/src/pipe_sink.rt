//! The end of a pipe that takes bytes.
ghost use Rattle.std.specs.Prelude.{◌≡◌, [], max};
ghost use Rattle.rkt_source.specs.Sink.{SinkKeeps, Writes};
ghost use Rattle.rkt_base.specs.declared.poll.Poll.TheVariants.{Ready};
ghost use Rattle.sample_link.specs.Pipes.{Takes, TakesMore, taking_meaning};

use crate::calls::{Calls, Turn};
use rkt_base::Poll;
use rkt_data::{Sink, SinkError};
use std::alloc::Global;
use std::marker::Model;

/// A sink in memory that may be Pending, may fail, and may be closed by the other side.
#[derive(Debug, Drop)]
pub struct PipeSink {
    bytes: Vec<u8>,
    room: usize,
    closed_after: usize,
    calls: Calls,
}

impl Model for PipeSink {
    ghost use Rattle.std.specs.Prelude.{◌≤◌};
    ghost use Rattle.sample_link.specs.Pipes.{TakingEnd};

    ghost Value = { TakingEnd };

    ghost view = { λ s. record { bytes = s.bytes.items; room = s.room; closed_after = s.closed_after; calls = s.calls } };

    ghost invariant = { λ s. 1 ≤ s.room };
}

impl PipeSink {
    /// Takes at most `room` bytes per write, 0 counting as 1, and `closed_after` in all: then the other side has closed, and
    /// each write that is made is a fault.
    pub fn new(alloc: Global, room: usize, closed_after: usize, calls: Calls) -> PipeSink
        ensures { result ≡ record { bytes = []; room = max room 1; closed_after = closed_after; calls = calls } }
    {
        PipeSink {
            bytes: Vec::new(alloc),
            room: room.max(1),
            closed_after,
            calls,
        }
    }

    /// The bytes taken so far.
    pub fn bytes(&self) -> &[u8]
        ensures { result.now ≡ self.now.bytes }
    {
        self.bytes.as_slice()
    }

    // Takes what there is room for and the other side still reads.
    fn write(&mut self, piece: &[u8]) -> Result<usize, SinkError>
        ensures kept { SinkKeeps (taking_meaning self.old) (taking_meaning self.new) }
        ensures answer { Writes (taking_meaning self.old) (taking_meaning self.new) piece.now (Ready result) }
        ensures takes { Takes self.old piece.now result self.new }
    {
        let open = self.closed_after.saturating_sub(self.bytes.len());
        if open == 0 {
            self.calls.fail();
            return Err(SinkError::SinkFault);
        }
        let count = self.room.min(open).min(piece.len());
        match self.bytes.extend_from_slice(&piece[..count]) {
            Ok(()) => Ok(count),
            Err(_) => Err(SinkError::NoMemory),
        }
    }
}

impl Sink for PipeSink {
    ghost use Rattle.sample_link.specs.Pipes.{TakesMore, taking_meaning};

    ghost meaning = { taking_meaning };

    ghost written = { λ s piece answer t. TakesMore s piece answer t };

    fn poll_write(&mut self, buf: &[u8]) -> Poll<Result<usize, SinkError>>
        ensures written { TakesMore self.old buf.now result self.new }
        ensures kept { SinkKeeps (taking_meaning self.old) (taking_meaning self.new) }
        ensures answer { Writes (taking_meaning self.old) (taking_meaning self.new) buf.now result }
    {
        match self.calls.turn() {
            Turn::Waits => Poll::Pending,
            Turn::Fails => Poll::Ready(Err(SinkError::SinkFault)),
            Turn::Goes => Poll::Ready(self.write(buf)),
        }
    }
}
