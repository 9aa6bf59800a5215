//! Where bytes go to.
ghost use Rattle.std.specs.Prelude.{◌≡◌, ⊤, ℕ, List, Result};
ghost use Rattle.rkt_base.specs.declared.poll.Poll.{Poll};
ghost use Rattle.rkt_source.specs.declared.sink.SinkError.{SinkError};
ghost use Rattle.rkt_source.specs.Sink.{SinkMeaning, SinkKeeps, Writes};

use rkt_base::Poll;

/// Why a write was refused.
#[derive(Clone, Copy, Debug, Drop, PartialEq, Eq)]
pub enum SinkError {
    /// The sink has failed.
    SinkFault,
    /// The sink found no memory.
    NoMemory,
}

/// A sink of bytes.
pub trait Sink: Drop {
    /// What contracts see of a sink.
    ghost meaning: { Self → SinkMeaning };

    /// Of the sink before a write, the piece, the answer, and the sink after it.
    ghost written: { Self → List ℕ → Poll (Result ℕ SinkError) → Self → Type 0 } = { λ _ _ _ _. ⊤ };

    /// Takes bytes from the front of a piece and answers how many.
    fn poll_write(&mut self, buf: &[u8]) -> Poll<Result<usize, SinkError>>
        ensures written { written self.old buf.now result self.new }
        ensures kept { SinkKeeps (meaning self.old) (meaning self.new) }
        ensures answer { Writes (meaning self.old) (meaning self.new) buf.now result };
}

/// A sink that is lent takes bytes as it does itself.
impl<K: Sink> Sink for &mut K {
    ghost meaning = { λ k. K.meaning k.now };

    ghost written = { λ k piece answer l. K.written k.now piece answer l.now };

    fn poll_write(&mut self, buf: &[u8]) -> Poll<Result<usize, SinkError>> {
        Sink::poll_write(&mut **self, buf)
    }
}
