//! The text of a body, as a polled state.
ghost use Rattle.std.specs.Option.{ForSome};
ghost use Rattle.std.specs.Prelude.{◌≡◌, Err, None, false};
ghost use Rattle.rkt_base.specs.declared.poll.Poll.TheVariants.{Ready};
ghost use Rattle.rkt_data.specs.Gathering.{reads_end};
ghost use Rattle.rkt_message.specs.Reading.{ByGate, Follows};

use crate::body::Body;
use crate::whole::Whole;
use rkt_base::Poll;
use rkt_data::{DataError, Gate, Source};
use std::alloc::Global;
use std::marker::Model;

/// Gathers the text that is left of a body.
#[derive(Drop)]
pub struct ToString<S> {
    whole: Whole<S>,
}

impl<S> Model for ToString<S> {
    ghost use Rattle.rkt_message.specs.Whole.{Gathering};

    ghost Value = { Gathering S };

    ghost view = { λ t. t.whole };
}

impl<S: Source> Body<S> {
    ghost use Rattle.rkt_message.specs.Whole.{gathering_of};

    /// A state that gathers the text that is left.
    pub fn to_string(self) -> ToString<S>
        ensures { result ≡ gathering_of self }
    {
        ToString {
            whole: Whole::new(self),
        }
    }
}

impl<S: Source> ToString<S> {
    ghost use Rattle.rkt_message.specs.Whole.{GathersText, LowersText};

    /// Reads on. Once it has answered an error it answers the same one.
    pub fn poll(&mut self, alloc: Global, gate: Gate) -> Poll<Result<String, DataError>>
        requires { self.old.done ≡ false }
        ensures follows { Follows S.meaning gate.tripped self.old.body self.new.body }
        ensures by_gate { self.old.failed ≡ None
            → ByGate S.polled gate (reads_end result) self.old.body.content self.new.body.content }
        ensures repeats { ForSome self.old.failed (λ e. (result ≡ Ready (Err e)) × (self.new ≡ self.old)) }
        ensures answer { self.old.failed ≡ None → GathersText S.meaning self.old self.new result }
        ensures lowers { self.old.failed ≡ None → LowersText S.meaning self.old self.new.body.content result }
    {
        match self.whole.poll(alloc, gate) {
            Poll::Pending => Poll::Pending,
            Poll::Ready(Err(e)) => Poll::Ready(Err(e)),
            Poll::Ready(Ok(bytes)) => match String::from_utf8(bytes) {
                Ok(text) => Poll::Ready(Ok(text)),
                Err(e) => {
                    let valid_up_to = e.utf8_error().valid_up_to();
                    let e = DataError::NotUtf8 { valid_up_to };
                    self.whole.fail(e);
                    Poll::Ready(Err(e))
                }
            },
        }
    }

    /// The body, with what is left of it.
    pub fn into_body(self) -> Body<S>
        ensures { result ≡ self.body }
    {
        self.whole.into_body()
    }
}
