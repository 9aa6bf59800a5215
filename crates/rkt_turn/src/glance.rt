//! What a handle knows of its wire, the rule of the wire, and what each step on it tells.
ghost use Rattle.std.specs.Prelude.{◌≡◌, ℕ};

use crate::reason::Reason;
use atomic_table::{Join, Play, Split, TableRule};
use std::marker::PhantomData;

/// What a handle knows of its wire. It is for proofs alone: no value of it is made.
pub struct Glance {
    /// The word that the handle has seen, or 0.
    pub seen: u64,
    /// The word that a handle which was just joined to this one has seen, or 0. The next load compares the two.
    pub twin: u64,
    /// How many loads of this handle found no word before them.
    pub looked: u64,
}

/// The rule of a wire: its word is 0 or allowed, and each handle has seen 0 or that word.
pub struct WireRule<R> {
    reason: PhantomData<R>,
}

impl<R: Reason> TableRule<(), Glance, ()> for WireRule<R> {
    ghost use Rattle.rkt_turn.specs.Wire.{Wired, blank};

    ghost holds = { λ _. Wired R.allowed };

    ghost first = { λ _. blank };
}

// A load that looks for a word.
pub(crate) struct Looks<R> {
    reason: PhantomData<R>,
}

impl<R: Reason> Play<(), Glance> for Looks<R> {
    ghost use Rattle.rkt_turn.specs.Wire.{LooksAt};

    ghost then = { λ _ me n after. LooksAt R.allowed me n after };
}

// A compare and exchange of 0 for a reason's word.
pub(crate) struct Trips<R> {
    reason: PhantomData<R>,
}

impl<R: Reason> Play<(), Glance> for Trips<R> {
    ghost use Rattle.rkt_turn.specs.Wire.{TripsBy};

    ghost then = { λ s me n after. TripsBy R.allowed s.second me n after };
}

// A load that compares what two joined handles have seen.
pub(crate) struct Settles;

impl Play<(), Glance> for Settles {
    ghost use Rattle.rkt_turn.specs.Wire.{SettlesAt};

    ghost then = { λ _ me n after. SettlesAt me n after };
}

// Another handle, which knows as much.
pub(crate) struct Copies;

impl Split<Glance> for Copies {
    ghost left = { λ v. v };

    ghost right = { λ v. v };
}

// A handle takes another in.
pub(crate) struct Twins;

impl Join<Glance> for Twins {
    ghost use Rattle.rkt_turn.specs.Wire.{twinned, blank};

    ghost both = { twinned };

    ghost spent = { blank };
}
