//! The wire and its handles.
ghost use Rattle.std.specs.Prelude.{◌≡◌, ◌+◌, ◌<◌, ℕ, [], max, IfOk, IfSome, IfNone};
ghost use Rattle.std.specs.Arc.{arc_value};

use crate::glance::{Copies, Glance, Looks, Settles, Trips, Twins, WireRule};
use crate::reason::Reason;
use atomic_table::{Seat, Table};
use rkt_base::{NoMemory, Poll};
use std::alloc::Global;
use std::marker::Model;
use std::sync::Arc;

/// One word, 0 until the first reason is notified. That reason's word stays for good.
pub type Wire<R> = Table<(), Glance, (), WireRule<R>, Global>;

/// Keeps a wire.
#[derive(Drop)]
pub struct TripWire<R: Reason> {
    wire: Arc<Wire<R>, Global>,
}

impl<R: Reason> Model for TripWire<R> {
    ghost use Rattle.std.specs.Arc.{arc_value};
    ghost use Rattle.atomic_table.specs.Seated.{TableId, table_id_coded};

    ghost Value = { TableId };

    ghost coded = { table_id_coded };

    ghost view = { λ t. (arc_value t.wire).shared.table_id };
}

/// A handle of a wire, which trips it or looks at it. What it has seen it remembers.
#[derive(Drop)]
pub struct Shutdown<R: Reason> {
    wire: Arc<Wire<R>, Global>,
    seat: Seat<(), Glance>,
    seen: u64,
}

impl<R: Reason> Model for Shutdown<R> {
    ghost use Rattle.rkt_turn.specs.Shutdown.{Handle};
    ghost use Rattle.rkt_turn.specs.Wire.{IsHandle};
    ghost use Rattle.std.specs.Arc.{arc_value};

    ghost Value = { Handle };

    ghost view = { λ s. record { wire = s.seat.table_id; seen = s.seen; looked = s.seat.me.0.looked } };

    ghost invariant = { λ s. IsHandle R.allowed (arc_value s.wire).shared.table_id s.seat s.seen };
}

impl<R: Reason> TripWire<R> {
    ghost use Rattle.rkt_turn.specs.Shutdown.{fresh};

    /// A wire that is not tripped, and its first handle.
    pub fn new(alloc: Global) -> Result<(TripWire<R>, Shutdown<R>), NoMemory>
        ensures { IfOk result (λ t. t.1 ≡ fresh t.0) }
    {
        let (table, seat) = Wire::<R>::of_words(alloc, &[0], &())?;
        let wire = Arc::new(alloc, table)?;
        let theirs = Arc::try_clone(&wire)?;
        Ok((
            TripWire { wire },
            Shutdown {
                wire: theirs,
                seat,
                seen: 0,
            },
        ))
    }
}

impl<R: Reason> Shutdown<R> {
    ghost use Rattle.rkt_turn.specs.Shutdown.{polled};

    /// The word that this handle has seen, or 0. It makes no load.
    pub fn seen(&self) -> u64
        ensures seen { result ≡ self.now.seen }
        ensures allowed { 0 < result → R.allowed result }
    {
        self.seen
    }

    /// Looks at the wire with one load, unless a word was seen before.
    pub fn tripped(&mut self) -> Option<u64>
        ensures wire { self.new.wire ≡ self.old.wire }
        ensures again { 0 < self.old.seen → self.new ≡ self.old }
        ensures load { self.old.seen ≡ 0 → self.new.looked ≡ self.old.looked + 1 }

        ensures found { IfSome result (λ word. (0 < word) × (self.new.seen ≡ word)) }
        ensures none { IfNone result (self.new.seen ≡ 0) }
        ensures allowed { IfSome result R.allowed }
    {
        if self.seen != 0 {
            return Some(self.seen);
        }
        self.seen = self.wire.shared.load::<Looks<R>>(&mut self.seat, 0);
        if self.seen == 0 {
            None
        } else {
            Some(self.seen)
        }
    }

    /// As `tripped`, which answers Some exactly where this is ready.
    pub fn poll(&mut self) -> Poll<()>
        ensures wire { self.new.wire ≡ self.old.wire }
        ensures again { 0 < self.old.seen → self.new ≡ self.old }
        ensures load { self.old.seen ≡ 0 → self.new.looked ≡ self.old.looked + 1 }

        ensures answer { result ≡ polled self.new.seen }
        ensures allowed { 0 < self.new.seen → R.allowed self.new.seen }
    {
        match self.tripped() {
            Some(_) => Poll::Ready(()),
            None => Poll::Pending,
        }
    }

    /// Trips the wire, if nobody has. Afterwards this handle has seen a word, where the reason has one: a word that
    /// stood before, or this one. A reason that has no word changes nothing, and where the handle has then seen none,
    /// the reason had none.
    pub fn notify(&mut self, reason: R)
        ensures wire { self.new.wire ≡ self.old.wire }
        ensures again { 0 < self.old.seen → self.new ≡ self.old }
        ensures looked { self.new.looked ≡ self.old.looked }

        ensures seen { R.stops reason → 0 < self.new.seen }
        ensures allowed { 0 < self.new.seen → R.allowed self.new.seen }
        ensures unseen { self.new.seen ≡ 0 → R.says reason 0 }
        ensures unchanged { ((word : ℕ) → R.says reason word → word ≡ 0) → self.new ≡ self.old }
    {
        let new = reason.word();
        if self.seen != 0 || new == 0 {
            return;
        }
        let found = self
            .wire
            .shared
            .compare_exchange::<Trips<R>>(&mut self.seat, 0, 0, new);
        self.seen = if found == 0 { new } else { found };
    }

    /// Another handle of the wire, which has seen as much.
    pub fn split(&mut self) -> Result<Shutdown<R>, NoMemory>
        ensures same { self.new ≡ self.old }
        ensures copy { IfOk result (λ s. s ≡ self.old) }
    {
        let wire = Arc::try_clone(&self.wire)?;
        let seat = wire.shared.split_seat::<Copies>(&mut self.seat);
        Ok(Shutdown {
            wire,
            seat,
            seen: self.seen,
        })
    }

    /// Takes another handle of the wire in. A join of two seats tells nothing, so a load compares what they have seen.
    pub fn rejoin(&mut self, other: Shutdown<R>)
        requires { other.wire ≡ self.old.wire }
        ensures wire { self.new.wire ≡ self.old.wire }
        ensures seen { self.new.seen ≡ max self.old.seen other.seen }
        ensures looked { self.new.looked ≡ max self.old.looked other.looked }
        ensures one_word { 0 < self.old.seen → 0 < other.seen → self.old.seen ≡ other.seen }
        ensures again { 0 < self.old.seen → self.new.seen ≡ self.old.seen }
    {
        let Shutdown { wire, seat, seen } = other;
        drop(wire);
        self.wire.shared.join_seat::<Twins>(&mut self.seat, seat);
        self.wire.shared.load::<Settles>(&mut self.seat, 0);
        self.seen = self.seen.max(seen);
    }
}
