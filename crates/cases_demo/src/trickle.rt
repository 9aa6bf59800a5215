use rkt_base::Poll;
use rkt_data::{MemorySink, Sink, SinkError};

/// A sink in memory that takes at most seven bytes of each piece.
#[derive(Drop)]
pub struct Trickle {
    inner: MemorySink,
}

impl Trickle {
    pub fn new(inner: MemorySink) -> Trickle {
        Trickle { inner }
    }

    pub fn bytes(&self) -> &[u8] {
        self.inner.bytes()
    }
}

impl Sink for Trickle {
    ghost use Rattle.rkt_source.specs.Memory.{sink_meaning};

    ghost meaning = { λ s. sink_meaning s.inner };

    fn poll_write(&mut self, buf: &[u8]) -> Poll<Result<usize, SinkError>> {
        self.inner.poll_write(&buf[..buf.len().min(7)])
    }
}
