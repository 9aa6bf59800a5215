//! Gathers all that is left of a body.
ghost use Rattle.std.specs.Option.{ForSome};
ghost use Rattle.std.specs.Prelude.{◌≡◌, Err, None, Some, false};
ghost use Rattle.rkt_base.specs.declared.poll.Poll.TheVariants.{Ready};
ghost use Rattle.rkt_data.specs.Gathering.{reads_end};
ghost use Rattle.rkt_message.specs.Reading.{ByGate, Follows};

use crate::body::Body;
use crate::drain::{Stop, drain};
use rkt_base::Poll;
use rkt_data::{DataError, Gate, Source, resume_buffer};
use std::alloc::Global;
use std::marker::Model;

/// A body, and what was read of it: the first `count` bytes of a buffer.
#[derive(Drop)]
pub struct Whole<S> {
    body: Body<S>,
    room: Option<Vec<u8>>,
    count: usize,
    failed: Option<DataError>,
    done: bool,
}

impl<S> Model for Whole<S> {
    ghost use Rattle.std.specs.Prelude.{◌≤◌, length, take};
    ghost use Rattle.rkt_source.specs.Buffer.{items_of};
    ghost use Rattle.rkt_message.specs.Whole.{Gathering};

    ghost Value = { Gathering S };

    ghost view = { λ w. record { body = w.body; got = take w.count (items_of w.room); failed = w.failed; done = w.done } };

    ghost invariant = { λ w. w.count ≤ length (items_of w.room) };
}

impl<S: Source> Whole<S> {
    ghost use Rattle.rkt_message.specs.Whole.{GathersBytes, LowersBytes, gathering_of};

    pub fn new(body: Body<S>) -> Whole<S>
        ensures { result ≡ gathering_of body }
    {
        Whole {
            body,
            room: None,
            count: 0,
            failed: None,
            done: false,
        }
    }

    pub fn into_body(self) -> Body<S>
        ensures { result ≡ self.body }
    {
        self.body
    }

    /// Repeats an error from now on.
    pub fn fail(&mut self, e: DataError)
        ensures { self.new ≡ record self.old { failed = Some e; done = false } }
    {
        self.failed = Some(e);
        self.done = false;
    }

    /// Reads on. Once it has answered an error it answers the same one.
    pub fn poll(&mut self, alloc: Global, gate: Gate) -> Poll<Result<Vec<u8>, DataError>>
        requires { self.old.done ≡ false }
        ensures follows { Follows S.meaning gate.tripped self.old.body self.new.body }
        ensures by_gate { self.old.failed ≡ None
            → ByGate S.polled gate (reads_end result) self.old.body.content self.new.body.content }
        ensures repeats { ForSome self.old.failed (λ e. (result ≡ Ready (Err e)) × (self.new ≡ self.old)) }
        ensures answer { self.old.failed ≡ None → GathersBytes S.meaning self.old self.new result }
        ensures lowers { LowersBytes self.old.body.content self.new.body.content result }
    {
        if let Some(e) = self.failed {
            return Poll::Ready(Err(e));
        }
        let mut room = resume_buffer(&mut self.room, alloc);
        let (count, stop) = drain(&mut self.body, alloc, gate, &mut room, self.count);
        match stop {
            Stop::End => {
                self.done = true;
                self.count = 0;
                room.truncate(count);
                self.body.lower(count);
                Poll::Ready(Ok(room))
            }
            Stop::Waiting => {
                self.room = Some(room);
                self.count = count;
                Poll::Pending
            }
            Stop::Failed(e) => {
                self.failed = Some(e);
                self.count = 0;
                Poll::Ready(Err(e))
            }
        }
    }
}
