//! Under which Gates a response is sent.
ghost use Rattle.std.specs.Prelude.{◌≡◌};
ghost use Rattle.rkt_worker.specs.Gates.{IsGateOf, Watched, WatchedOn};

use rkt_data::Gate;

/// Where the Gates come from under which an exchange is polled and its response sent: one for each poll.
pub trait Gates {
    /// It may be asked.
    ghost keeps: { Self → Type 0 };

    /// What it watches.
    ghost watched: { Self → Watched };

    /// What it may have become that was asked.
    ghost leads: { Self → Self → Type 0 };

    /// The Gate of the next moment, with the word of a Trip where there is one.
    fn next_gate(&mut self) -> Gate
        requires keeps { keeps self.old }
        ensures keeps { keeps self.new }
        ensures leads { leads self.old self.new }
        ensures gate { IsGateOf (watched self.new) result };

    /// The word and the moment of the Trip, where there is one.
    fn trip(&self) -> Option<(u64, u64)>
        requires keeps { keeps self.now }
        ensures trip { result ≡ (watched self.now).trip };

    /// One that was not asked is as it was.
    ghost stays: { (g : Self) → leads g g };

    /// What it becomes behind what it became, it may have become.
    ghost goes_on: { (f g h : Self) → keeps h → leads f g → leads g h → leads f h };

    /// Its moments never fall, and a Trip stays.
    ghost tells: { (f g : Self) → leads f g → WatchedOn (watched f) (watched g) };
}
