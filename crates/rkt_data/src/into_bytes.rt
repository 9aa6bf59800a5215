//! All bytes of an opened body, as a polled state.
ghost use Rattle.std.specs.Option.{ForSome};
ghost use Rattle.std.specs.Prelude.{◌≡◌, ◌≤◌, ◌++◌, [], Err, None, false, take, vec_len};
ghost use Rattle.rkt_base.specs.declared.poll.Poll.TheVariants.{Ready};
ghost use Rattle.rkt_data.specs.Gathering.{Gained, Finishes, finished_end, reads_end};
ghost use Rattle.rkt_data.specs.Stream.{Follows, PullsAtMost};
ghost use Rattle.rkt_data.specs.CountedSource.{ByGate};

use crate::capped::{Capped, N};
use crate::data_stream::DataStream;
use crate::drain::{Drained, drain};
use crate::error::DataError;
use crate::limited_reader::LimitedReader;
use rkt_base::Poll;
use rkt_source::{Gate, Source, resume_buffer};
use std::alloc::Global;
use std::marker::Model;

/// Gathers the bytes of an opened body, up to its limit.
#[derive(Drop)]
pub struct IntoBytes<S: Source> {
    pipe: LimitedReader<S>,
    from: u64,
    room: Option<Vec<u8>>,
    count: usize,
    failed: Option<DataError>,
    done: bool,
}

impl<S: Source> Model for IntoBytes<S> {
    ghost use Rattle.std.specs.Prelude.{◌≤◌, length, take};
    ghost use Rattle.rkt_data.specs.Gathering.{Gathering, Gathers};
    ghost use Rattle.rkt_source.specs.Buffer.{items_of};

    ghost Value = { Gathering S };

    ghost view = { λ d. record {
      stream = d.pipe.opened;
      from = d.from;
      got = take d.count (items_of d.room);
      failed = d.failed;
      done = d.done;
    } };

    ghost invariant = { λ d. Gathers S.meaning d.pipe d.from (take d.count (items_of d.room)) d.failed d.done
        × (d.count ≤ length (items_of d.room)) };
}

impl<S: Source> DataStream<S> {
    /// A state that gathers the bytes that are left.
    pub fn into_bytes(self) -> IntoBytes<S>
        ensures { result ≡ record { stream = self; from = self.given; got = []; failed = None; done = false } }
    {
        let pipe = self.into_pipe();
        IntoBytes {
            from: pipe.given(),
            pipe,
            room: None,
            count: 0,
            failed: None,
            done: false,
        }
    }
}

impl<S: Source> IntoBytes<S> {
    ghost use Rattle.rkt_data.specs.Gathering.{GathersBytes};

    /// Reads on. Once it has answered an error it answers the same one.
    pub fn poll(&mut self, alloc: Global, gate: Gate) -> Poll<Result<Capped<Vec<u8>>, DataError>>
        requires { self.old.done ≡ false }
        ensures from { self.new.from ≡ self.old.from }
        ensures follows { Follows S.meaning gate.tripped self.old.stream self.new.stream }
        ensures by_gate { self.old.failed ≡ None
            → ByGate S.polled gate (reads_end result) self.old.stream.tap self.new.stream.tap }
        ensures bound { PullsAtMost S.meaning self.new.stream }
        ensures repeats { ForSome self.old.failed (λ e. (result ≡ Ready (Err e)) × (self.new ≡ self.old)) }
        ensures answer { self.old.failed ≡ None → GathersBytes S.meaning self.old self.new result }
    {
        if let Some(e) = self.failed {
            // For contracts alone: how much was taken from the source so far.
            let _ = self.pipe.left();
            return Poll::Ready(Err(e));
        }
        let mut room = resume_buffer(&mut self.room, alloc);
        let (count, finished) = finish(&mut self.pipe, gate, &mut room, self.count);
        match finished {
            Finished::Bytes(complete) => {
                self.done = true;
                self.count = 0;
                room.truncate(count);
                let written = count as u64;
                Poll::Ready(Ok(Capped::new(room, N { written, complete })))
            }
            Finished::Waiting => {
                self.room = Some(room);
                self.count = count;
                Poll::Pending
            }
            Finished::Failed(e) => {
                self.failed = Some(e);
                self.count = 0;
                Poll::Ready(Err(e))
            }
        }
    }
}

/// How far a poll has come.
pub(crate) enum Finished {
    Bytes(bool),
    Waiting,
    Failed(DataError),
}

// Reads to the limit, and learns whether the body has more.
fn finish<S: Source>(
    pipe: &mut LimitedReader<S>,
    gate: Gate,
    room: &mut Vec<u8>,
    count: usize,
) -> (usize, Finished)
    requires not_probed { pipe.old.probed ≡ false }
    requires within { count ≤ vec_len room.old }
    ensures within { result.0 ≤ vec_len room.new }
    ensures follows { Follows S.meaning gate.tripped pipe.old.opened pipe.new.opened }
    ensures by_gate { ByGate S.polled gate (finished_end result.1) pipe.old.opened.tap pipe.new.opened.tap }
    ensures bound { PullsAtMost S.meaning pipe.new.opened }
    ensures gained { (more : _)
        × (take result.0 room.new.items ≡ take count room.old.items ++ more)
        × Gained S.meaning pipe.old.opened pipe.new.opened more }
    ensures finishes { Finishes S.meaning pipe.old pipe.new result.1 }
{
    let (count, drained) = drain(pipe, gate, room, count);
    let finished = match drained {
        Drained::Failed(e) => Finished::Failed(DataError::from(e)),
        Drained::Waiting => Finished::Waiting,
        Drained::NoMemory => Finished::Failed(DataError::NoMemory),
        Drained::End => match pipe.close(gate) {
            Poll::Pending => Finished::Waiting,
            Poll::Ready(Err(e)) => Finished::Failed(DataError::from(e)),
            Poll::Ready(Ok(complete)) => Finished::Bytes(complete),
        },
    };
    (count, finished)
}
