//! A count for contracts alone, which no word bounds and which takes no room.
ghost use Rattle.std.specs.Prelude.{◌≡◌, ◌+◌};

use rkt_base::Trail;
use std::marker::Model;

/// A sum that contracts see.
#[derive(Drop)]
pub(crate) struct Tally {
    counts: Trail<usize>,
}

impl Model for Tally {
    ghost use Rattle.std.specs.List.{sum};
    ghost use Rattle.std.specs.Prelude.{ℕ};

    ghost Value = { ℕ };

    ghost view = { λ t. sum t.counts };
}

impl Tally {
    pub(crate) fn new() -> Tally
        ensures { result ≡ 0 }
    {
        Tally {
            counts: Trail::new(),
        }
    }

    #[tactic(auto, using(std::proofs::lemmas::List::Sums::sum_by_push))]
    pub(crate) fn add(&mut self, n: usize)
        ensures { self.new ≡ self.old + n }
    {
        self.counts.push(&n);
    }
}
