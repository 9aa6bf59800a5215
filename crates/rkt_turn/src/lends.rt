//! `state` has a file of its own: its clause names the row of `Turn`, which the file that declares `Turn` cannot import.
ghost use Rattle.std.specs.Prelude.{◌≡◌};
ghost use Rattle.std.specs.Borrow.{Lends, sem};
ghost use Rattle.rkt_turn.specs.contracts.turn.Turn.{the_row};
ghost use Rattle.rkt_turn.specs.Turn.{state_of, with_state};

use crate::turn::Turn;

impl<S> Turn<S> {
    /// Lends the state. When the borrow ends, the turn has what was written.
    pub fn state(&mut self) -> &mut S
        ensures* writes_back { sem 𝓛 (Lends (the_row S.row) S.row self.entry result (with_state self.old)) }
        ensures value { result.now ≡ state_of self.old }
    {
        &mut self.state
    }
}
