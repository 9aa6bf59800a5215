//! Where links come from.
ghost use Rattle.std.specs.Prelude.{⊤};
ghost use Rattle.rkt_base.specs.declared.poll.Poll.{Poll};
ghost use Rattle.rkt_link.specs.Listener.{ListenerMeaning, Gives, GivesFresh, EndsAs, EndsAt, FaultsAs, Settled};
ghost use Rattle.rkt_link.specs.declared.listener.Accepted.{Accepted};

use crate::Link;
use rkt_base::Poll;

/// What a listener answers.
#[derive(Debug, Drop)]
pub enum Accepted<K> {
    /// The next link.
    Given(K),
    /// There is no further link, now and from now on.
    End,
    /// The listener has failed, and has counted it.
    Fault,
}

/// A source of links.
pub trait Listener: Drop {
    type Link: Link;

    /// What contracts see of a listener.
    ghost meaning: { Self → ListenerMeaning };

    /// Of the listener before a poll, the answer, and the listener after it.
    ghost polled: { Self → Poll (Accepted Self.Link) → Self → Type 0 } = { λ _ _ _. ⊤ };

    /// Gives the next link, if there is one.
    fn poll_accept(&mut self) -> Poll<Accepted<Self::Link>>
        ensures polled { polled self.old result self.new }
        ensures given { Gives Self.Link.meaning (meaning self.old).given result (meaning self.new).given }
        ensures fresh { GivesFresh Self.Link.meaning result }
        ensures ended { EndsAs (meaning self.old).ended result (meaning self.new).ended }
        ensures offers { EndsAt (meaning self.old) result }
        ensures faults { FaultsAs (meaning self.old) result (meaning self.new) }
        ensures settled { Settled (meaning self.old) (meaning self.new) };
}
