//! A listener whose links can be cut off.
ghost use Rattle.std.specs.Prelude.{◌≡◌};
ghost use Rattle.rkt_link.specs.Listener.{Gives, GivesFresh, EndsAs, EndsAt, FaultsAs, Settled, GivesActive, bare};

use crate::{Accepted, Listener};
use rkt_base::Poll;
use rkt_source::CancellableIo;
use std::marker::Model;

/// A listener that puts each of its links where a trip can cut it off. It is no listener itself, since what it gives is no
/// link. Contracts see it as the listener in it.
#[derive(Drop)]
pub struct CancellableListener<L> {
    listener: L,
}

impl<L> Model for CancellableListener<L> {
    ghost Value = { L };

    ghost coded = { L.code };

    ghost view = { λ c. c.listener };
}

impl<L: Listener> CancellableListener<L> {
    /// Takes a listener in as it is.
    pub fn new(listener: L) -> CancellableListener<L>
        ensures { result ≡ listener }
    {
        CancellableListener { listener }
    }

    /// Polls the listener once, and answers what it answers, with a link that it gives in `CancellableIo::new`.
    pub fn poll_accept(&mut self) -> Poll<Accepted<CancellableIo<L::Link>>>
        ensures polled { L.polled self.old (bare result) self.new }
        ensures active { GivesActive result }
        ensures given { Gives L.Link.meaning (L.meaning self.old).given (bare result) (L.meaning self.new).given }
        ensures fresh { GivesFresh L.Link.meaning (bare result) }
        ensures ended { EndsAs (L.meaning self.old).ended (bare result) (L.meaning self.new).ended }
        ensures offers { EndsAt (L.meaning self.old) (bare result) }
        ensures faults { FaultsAs (L.meaning self.old) (bare result) (L.meaning self.new) }
        ensures settled { Settled (L.meaning self.old) (L.meaning self.new) }
    {
        match self.listener.poll_accept() {
            Poll::Ready(Accepted::Given(link)) => {
                let io = CancellableIo::new(link);
                Poll::Ready(Accepted::Given(io))
            }
            Poll::Ready(Accepted::End) => Poll::Ready(Accepted::End),
            Poll::Ready(Accepted::Fault) => Poll::Ready(Accepted::Fault),
            Poll::Pending => Poll::Pending,
        }
    }

    /// Hands the listener out as it is now.
    pub fn into_inner(self) -> L
        ensures { result ≡ self }
    {
        self.listener
    }
}
