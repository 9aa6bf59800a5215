//! All bytes of a body, as a polled state.
ghost use Rattle.std.specs.Option.{ForSome};
ghost use Rattle.std.specs.Prelude.{◌≡◌, Err, None, false};
ghost use Rattle.rkt_base.specs.declared.poll.Poll.TheVariants.{Ready};
ghost use Rattle.rkt_data.specs.Gathering.{reads_end};
ghost use Rattle.rkt_message.specs.Reading.{ByGate, Follows};

use crate::body::Body;
use crate::whole::Whole;
use rkt_base::Poll;
use rkt_data::{DataError, Gate, Source};
use std::alloc::Global;
use std::marker::Model;

/// Gathers all bytes that are left of a body.
#[derive(Drop)]
pub struct ToBytes<S> {
    whole: Whole<S>,
}

impl<S> Model for ToBytes<S> {
    ghost use Rattle.rkt_message.specs.Whole.{Gathering};

    ghost Value = { Gathering S };

    ghost view = { λ t. t.whole };
}

impl<S: Source> Body<S> {
    ghost use Rattle.rkt_message.specs.Whole.{gathering_of};

    /// A state that gathers all bytes that are left.
    pub fn to_bytes(self) -> ToBytes<S>
        ensures { result ≡ gathering_of self }
    {
        ToBytes {
            whole: Whole::new(self),
        }
    }
}

impl<S: Source> ToBytes<S> {
    ghost use Rattle.rkt_message.specs.Whole.{GathersBytes, LowersBytes};

    /// Reads on. Once it has answered an error it answers the same one.
    pub fn poll(&mut self, alloc: Global, gate: Gate) -> Poll<Result<Vec<u8>, DataError>>
        requires { self.old.done ≡ false }
        ensures follows { Follows S.meaning gate.tripped self.old.body self.new.body }
        ensures by_gate { self.old.failed ≡ None
            → ByGate S.polled gate (reads_end result) self.old.body.content self.new.body.content }
        ensures repeats { ForSome self.old.failed (λ e. (result ≡ Ready (Err e)) × (self.new ≡ self.old)) }
        ensures answer { self.old.failed ≡ None → GathersBytes S.meaning self.old self.new result }
        ensures lowers { LowersBytes self.old.body.content self.new.body.content result }
    {
        self.whole.poll(alloc, gate)
    }

    /// The body, with what is left of it.
    pub fn into_body(self) -> Body<S>
        ensures { result ≡ self.body }
    {
        self.whole.into_body()
    }
}
