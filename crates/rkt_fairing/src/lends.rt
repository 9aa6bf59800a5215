//! Fairings that are lent for changes. The clauses name the rows of `Fairings` and `Slot`, so they stand in a file of
//! their own.
ghost use Rattle.std.specs.Borrow.{LendsIf, sem};
ghost use Rattle.std.specs.Prelude.{◌≡◌, ◌↔◌, ◌<◌, IsSome, length, option_map, slice_get};
ghost use Rattle.rkt_fairing.specs.contracts.fairings.Fairings.{the_row};
ghost use Rattle.rkt_fairing.specs.contracts.slot.Slot.{the_row as slot_row};
ghost use Rattle.rkt_fairing.specs.Fairings.{fairing_at, with_fairing_at, with_next_ignited};
ghost use Rattle.rkt_fairing.specs.Places.{places_of};

use crate::{Callback, Fairings, Slot};

impl<F> Fairings<F> {
    // The position at a place of an event's list.
    fn place_of(&self, callback: Callback, n: usize) -> Option<usize>
        ensures { result ≡ slice_get (places_of callback self.now.places) n }
    {
        self.lists.places.of(callback).get(n).copied()
    }

    /// The one at a place of an event's list, for changes. What it told stays told.
    pub fn get_mut(&mut self, callback: Callback, n: usize) -> Option<&mut Slot<F>>
        // Nothing but that one is changed.
        ensures* writes_back { sem 𝓛
            (LendsIf (the_row F.row) (slot_row F.row) self.entry result (with_fairing_at callback self.old n) self.old) }
        ensures found { option_map (λ slot. slot.now) result ≡ fairing_at callback self.old n }
        ensures some { IsSome result ↔ (n < length (places_of callback self.old.places)) }
    {
        let place = self.place_of(callback, n)?;
        self.lists.slots.get_mut(place)
    }

    /// The first of those that are called at ignition that still waits, for changes. It counts as ignited from then on.
    pub fn next_ignite(&mut self) -> Option<&mut Slot<F>>
        // Nothing but that one is changed, and how many count as ignited.
        ensures* writes_back { sem 𝓛
            (LendsIf (the_row F.row) (slot_row F.row) self.entry result (with_next_ignited self.old) self.old) }
        ensures found { option_map (λ slot. slot.now) result ≡ fairing_at Callback.Ignite self.old self.old.ignited }
        // There is one exactly where one waits.
        ensures some { IsSome result ↔ (self.old.ignited < length self.old.places.ignite) }
    {
        let place = self.place_of(Callback::Ignite, self.lists.ignited)?;
        self.lists.ignited += 1;
        self.lists.slots.get_mut(place)
    }
}
