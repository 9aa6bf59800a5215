//! One connection with one request.
ghost use Rattle.std.specs.Prelude.{◌≡◌, ◌↔◌, false, IfSome, IsSome};
ghost use Rattle.std.specs.Option.{ForSome};
ghost use Rattle.rkt_base.specs.declared.poll.Poll.{Poll};
ghost use Rattle.rkt_link.specs.Asked.{GivesBody, IsUntouched};
ghost use Rattle.rkt_link.specs.Link.{LinkMeaning, with_source_taken, AfterSend, AfterHand, ComesBack};

use rkt_base::Poll;
use rkt_data::{Shut, Source};
use rkt_message::Piece;
use rkt_request::Head;

/// Why a piece was not taken.
#[derive(Clone, Copy, Debug, PartialEq, Eq)]
pub enum SendError {
    /// The link has failed, and has counted it once; a count that stands at the end of a u64 stays.
    Fault,
    /// There was no memory for it.
    NoMemory,
}

/// What became of a piece that was handed over.
#[derive(Debug, Drop)]
pub enum Delivery {
    /// The link has it.
    Taken,
    /// The link cannot take it yet.
    Back(Piece),
    /// The link did not take it, and it is let go.
    Refused(SendError),
}

/// Where a request comes from, and where the pieces of its response go.
pub trait Link: Shut {
    /// What gives the body of its request.
    type Source: Source;

    /// What contracts see of a link.
    ghost meaning: { Self → LinkMeaning };

    /// The head of its request.
    fn head(&self) -> &Head
        ensures { ForSome (meaning self.now).asked (λ asked. asked.head ≡ result.now) };

    /// The source of the body, which can be taken once.
    fn take_source(&mut self) -> Option<Self::Source>
        ensures once { IsSome result ↔ ((meaning self.old).source_taken ≡ false) }
        ensures link { meaning self.new ≡ with_source_taken (meaning self.old) }
        ensures untouched { IfSome result (λ source. IsUntouched (Self.Source.meaning source)) }
        ensures body { IfSome result (λ source.
            ForSome (meaning self.old).asked (λ asked. GivesBody asked (Self.Source.meaning source))) };

    /// Takes a piece of the response.
    fn poll_send(&mut self, piece: &Piece) -> Poll<Result<(), SendError>>
        ensures { AfterSend result (meaning self.old) piece.now (meaning self.new) };

    /// Takes a piece that nobody else needs: `poll_send`, for a link that would copy it.
    fn poll_hand(&mut self, piece: Piece) -> Delivery
        ensures link { AfterHand result (meaning self.old) piece (meaning self.new) }
        ensures back { ComesBack result piece }
    {
        match self.poll_send(&piece) {
            Poll::Ready(Ok(())) => Delivery::Taken,
            Poll::Ready(Err(e)) => Delivery::Refused(e),
            Poll::Pending => Delivery::Back(piece),
        }
    }

    /// What it asks says whether it may fail.
    ghost asked_never_faults: { (k : Self)
        → ForSome (meaning k).asked (λ asked. asked.never_faults ≡ (meaning k).never_faults) };

    /// A shutdown changes none of the meanings.
    ghost shutdown_keeps: { (k l : Self) (answer : Poll (Unit {0})) → Self.shuts k answer l → meaning l ≡ meaning k };
}
