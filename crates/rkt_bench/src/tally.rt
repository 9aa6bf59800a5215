use rkt_turn::Booked;

/// A count of turns, which stands for no entries.
#[derive(Drop)]
pub struct Tally {
    pub turns: u64,
}

impl Tally {
    pub fn add(&mut self) {
        self.turns = self.turns.wrapping_add(1);
    }
}

impl Booked for Tally {
    ghost use Rattle.std.specs.Prelude.{[]};

    type Name = ();

    type Entry = ();

    ghost name = { λ _. tt };

    ghost entries = { λ _. [] };

    ghost number = { λ _. 0 };

    ghost legal = { λ _ _. Unit {0} };

    ghost keeps = { λ _. Unit {0} };
}
