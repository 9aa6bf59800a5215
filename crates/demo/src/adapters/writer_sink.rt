use rkt_base::Poll;
use rkt_data::{Sink, SinkError};
use std::io::Write;

/// A sink over a writer of std, which tells no content.
#[derive(Drop)]
pub struct WriterSink<W: Write + Drop> {
    inner: W,
    faults: u64,
}

impl<W: Write + Drop> WriterSink<W> {
    pub fn new(inner: W) -> WriterSink<W> {
        WriterSink { inner, faults: 0 }
    }
}

impl<W: Write + Drop> Sink for WriterSink<W> {
    ghost use Rattle.std.specs.Prelude.{None, false};

    ghost meaning = { λ s. record { held = None; faults = s.faults; never_faults = false; pended = 0; pendings = 0 } };

    fn poll_write(&mut self, buf: &[u8]) -> Poll<Result<usize, SinkError>> {
        match self.inner.write(buf) {
            Ok(0) => {
                self.faults = self.faults.saturating_add(1);
                Poll::Ready(Ok(0))
            }
            Ok(count) => Poll::Ready(Ok(count)),
            Err(_) => {
                self.faults = self.faults.saturating_add(1);
                Poll::Ready(Err(SinkError::SinkFault))
            }
        }
    }
}
