//! The Gates of a launch.
ghost use Rattle.rkt_worker.specs.Lent.{cause_of};

use crate::Gates;
use crate::causes::LentBy;
use crate::serves::Serves;
use crate::working::CALLER;
use rkt_board::{BoardOf, look, recorded_trip};
use rkt_data::Gate;
use rkt_fairing::App;
use rkt_link::{Clock, Listener};

/// The board of a launch, in which no Close stands. For each Gate it looks at the clock and at the wire, and the first
/// time that this has a word it enters the Trip.
impl<A: App, L: Listener, C: Clock> Gates for BoardOf<A, LentBy<A>, L, C> {
    ghost use Rattle.rkt_worker.specs.Looking.{LooksOn, MayLook, watched_by};
    ghost use Rattle.rkt_worker.specs.LookingLaws.{looks_same, looks_then, looks_tell};

    ghost keeps = { MayLook L.Link.meaning L.meaning C.meaning (cause_of ⟦<A as Serves<L::Link>>⟧.launching) };

    ghost watched = { watched_by C.meaning };

    ghost leads = { LooksOn C.meaning };

    fn next_gate(&mut self) -> Gate {
        let grace = self.name.served.grace;
        let mercy = self.name.served.mercy;
        look::<A, LentBy<A>, L, C>(self, CALLER, grace, mercy)
    }

    fn trip(&self) -> Option<(u64, u64)> {
        if self.log.tripped {
            recorded_trip(self.log.records.as_slice())
        } else {
            None
        }
    }

    ghost stays = { looks_same C.meaning };

    ghost goes_on = { λ f g h keeps. looks_then C.meaning f g h };

    ghost tells = { looks_tell C.meaning };
}
