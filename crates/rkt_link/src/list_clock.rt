//! A clock over a list.
ghost use Rattle.std.specs.Prelude.{◌≡◌, ◌≤◌};
ghost use Rattle.rkt_link.specs.Memory.{ClockInMemory};

use crate::Clock;
use std::marker::Model;

/// A clock that tells the greatest moment so far of a list, one more each time. Past the end the last one stays, and
/// an empty list tells 0.
#[derive(Debug, Drop)]
pub struct ListClock {
    moments: Vec<u64>,
    at: usize,
    last: u64,
}

impl Model for ListClock {
    ghost use Rattle.rkt_link.specs.Memory.{ClockInMemory, IsClockInMemory};

    ghost Value = { ClockInMemory };

    ghost view = { λ c. record { moments = c.moments.items; at = c.at } };

    ghost invariant = { λ c. IsClockInMemory c.moments.items c.at c.last };
}

impl ListClock {
    pub fn new(moments: Vec<u64>) -> ListClock
        ensures { result ≡ record { moments = moments.items; at = 0 } }
    {
        ListClock {
            moments,
            at: 0,
            last: 0,
        }
    }
}

impl Clock for ListClock {
    ghost use Rattle.rkt_link.specs.Memory.{clock_meaning};

    ghost meaning = { clock_meaning };

    fn now(&mut self) -> u64 {
        if self.at == self.moments.len() {
            return self.last;
        }
        self.last = self.last.max(self.moments[self.at]);
        self.at += 1;
        self.last
    }
}
