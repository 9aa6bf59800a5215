//! What any source and the answer of any stream can do besides.
ghost use Rattle.std.specs.Prelude.{◌≡◌, false, max};
ghost use Rattle.rkt_base.specs.declared.poll.Poll.{Poll};

use crate::error::DataError;
use rkt_base::Poll;
use rkt_source::{Gate, Source};
use std::alloc::Global;
use std::marker::Model;

/// The bytes of a source in chunks.
#[derive(Drop)]
pub struct ReaderStream<R> {
    reader: R,
    cap: usize,
    ended: bool,
}

impl<R> Model for ReaderStream<R> {
    ghost use Rattle.std.specs.Prelude.{◌<◌};
    ghost use Rattle.rkt_data.specs.Ext.{Chunks};

    ghost Value = { Chunks R };

    ghost view = { λ s. record { reader = s.reader; cap = s.cap; ended = s.ended } };

    ghost invariant = { λ s. 0 < s.cap };
}

/// What any source can do besides.
pub trait AsyncReadExt: Source + Sized {
    ghost use Rattle.rkt_data.specs.Ext.{Chunks};

    ghost reader: { Self → Self };

    /// The bytes that are left, in chunks of at most `cap` bytes, 0 counting as 1.
    fn into_bytes_stream(self, cap: usize) -> ReaderStream<Self>
        ensures { result ≡ record { reader = reader self; cap = max cap 1; ended = false } };
}

impl<R: Source> AsyncReadExt for R {
    ghost reader = { λ r. r };

    fn into_bytes_stream(self, cap: usize) -> ReaderStream<R> {
        ReaderStream {
            reader: self,
            cap: cap.max(1),
            ended: false,
        }
    }
}

impl<R: Source> ReaderStream<R> {
    ghost use Rattle.rkt_data.specs.Ext.{AsksForChunk, GivesChunk};

    /// The next chunk, which is not empty. After a fault or the end there is none.
    pub fn poll_next(
        &mut self,
        alloc: Global,
        gate: Gate,
    ) -> Poll<Option<Result<Vec<u8>, DataError>>>
        ensures cap { self.new.cap ≡ self.old.cap }
        // The source is asked once, for as many bytes as a chunk has, until the end was met, or a fault.
        ensures by_gate { self.old.ended ≡ false
            → AsksForChunk R.polled gate self.old.cap self.old.reader result self.new.reader }
        ensures answer { GivesChunk R.meaning gate.tripped self.old self.new result }
    {
        if self.ended {
            return Poll::Ready(None);
        }
        let mut chunk = match vec![in alloc; 0; self.cap] {
            Ok(chunk) => chunk,
            Err(_) => return Poll::Ready(Some(Err(DataError::NoMemory))),
        };
        match self.reader.poll_read(gate, chunk.as_mut_slice()) {
            Poll::Ready(Ok(0)) => {
                self.ended = true;
                Poll::Ready(None)
            }
            Poll::Ready(Ok(n)) => {
                chunk.truncate(n);
                Poll::Ready(Some(Ok(chunk)))
            }
            Poll::Ready(Err(e)) => {
                self.ended = true;
                Poll::Ready(Some(Err(DataError::from(e))))
            }
            Poll::Pending => Poll::Pending,
        }
    }
}

/// What the answer of a stream of results can do besides.
pub trait PollExt<T, E> {
    ghost use Rattle.rkt_data.specs.Ext.{MapsErr, CanMapErr};
    ghost use Rattle.std.specs.Prelude.{Option, Result};

    ghost answer: { Self → Poll (Option (Result T E)) };

    /// The same answer with another error.
    fn map_err_ext<U, F: FnOnce(E) -> U>(self, f: F) -> Poll<Option<Result<T, U>>>
        requires { CanMapErr (F.pre f) (answer self) }
        ensures { MapsErr (F.post f) (answer self) result };
}

impl<T, E> PollExt<T, E> for Poll<Option<Result<T, E>>> {
    ghost answer = { λ p. p };

    fn map_err_ext<U, F: FnOnce(E) -> U>(self, f: F) -> Poll<Option<Result<T, U>>> {
        match self {
            Poll::Ready(Some(Ok(item))) => Poll::Ready(Some(Ok(item))),
            Poll::Ready(Some(Err(e))) => Poll::Ready(Some(Err(f(e)))),
            Poll::Ready(None) => Poll::Ready(None),
            Poll::Pending => Poll::Pending,
        }
    }
}
