//! Gates of one moment after another.
ghost use Rattle.std.specs.Prelude.{◌≡◌, ◌≤◌, ℕ, Some};

use rkt_data::Gate;
use rkt_serve::Gates;

const GRACE: u32 = 2;

const MERCY: u32 = 3;

const WORD: u64 = 1;

/// Each Gate is a second later, and shows a trip from its moment on, if there is one.
#[derive(Drop)]
pub struct Ticks {
    pub now: u64,
    pub trip: Option<u64>,
}

// The word of a trip, from its moment on.
fn word_by(trip: Option<u64>, moment: u64) -> Option<u64>
    ensures { (word : ℕ) → result ≡ Some word → (at : ℕ) × (trip ≡ Some at) × (at ≤ moment) × (word ≡ 1) }
{
    match trip {
        Some(at) if at <= moment => Some(WORD),
        _ => None,
    }
}

impl Gates for Ticks {
    ghost use Rattle.cases_serve.specs.Ticking.{TicksOn, ticking, ticks_on, ticks_same, ticks_then};

    ghost keeps = { λ ticks. Unit {0} };

    ghost watched = { ticking };

    ghost leads = { TicksOn };

    fn next_gate(&mut self) -> Gate {
        self.now = self.now.saturating_add(1);
        Gate {
            moment: self.now,
            tripped: word_by(self.trip, self.now),
            grace: GRACE,
            mercy: MERCY,
        }
    }

    fn trip(&self) -> Option<(u64, u64)> {
        match self.trip {
            Some(at) => Some((WORD, at)),
            None => None,
        }
    }

    ghost stays = { ticks_same };

    ghost goes_on = { λ f g h keeps. ticks_then f g h };

    ghost tells = { ticks_on };
}
