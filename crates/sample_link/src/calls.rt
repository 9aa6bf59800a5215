//! The calls of one end of a pipe.
ghost use Rattle.std.specs.Prelude.{◌≡◌, ◌≤◌, IsTrue, false, nat_eq, position};
ghost use Rattle.rkt_source.specs.Memory.{counted, is_listed};
ghost use Rattle.sample_link.specs.Calls.{Turns, UsesUp};

use std::marker::Model;

/// What becomes of a call.
#[derive(Clone, Copy, Debug)]
pub enum Turn {
    /// It is Pending.
    Waits,
    /// It has failed.
    Fails,
    /// It is made.
    Goes,
}

/// Counts calls from 0, and says of each what becomes of it. Each call looks through both lists.
#[derive(Debug, Drop)]
pub struct Calls {
    pends: Vec<u64>,
    fails: Vec<u64>,
    next: u64,
    pended: u64,
    faults: u64,
}

impl Model for Calls {
    ghost use Rattle.std.specs.Prelude.{◌+◌, ◌<◌, ◌^◌, vec_len};
    ghost use Rattle.sample_link.specs.Calls.{Counted};

    ghost Value = { Counted };

    ghost view = { λ c.
        record { pends = c.pends.items; fails = c.fails.items; next = c.next; pended = c.pended; faults = c.faults } };

    ghost invariant = { λ c. c.pended + vec_len c.pends < 2 ^ 64 };
}

// Where a number stands first.
fn place_of(numbers: &[u64], number: u64) -> Option<usize>
    ensures { result ≡ position (λ n. nat_eq n number) numbers.now }
{
    numbers.iter().position(|n| *n == number)
}

// Uses up one of the places where a number stands, if there is one.
fn use_up(numbers: &mut Vec<u64>, number: u64) -> bool
    ensures listed { result ≡ is_listed numbers.old.items number }
    ensures used { IsTrue result → UsesUp number numbers.old.items numbers.new.items }
    ensures kept { result ≡ false → numbers.new.items ≡ numbers.old.items }
{
    match place_of(numbers.as_slice(), number) {
        Some(place) => {
            let _ = numbers.swap_remove(place);
            true
        }
        None => false,
    }
}

impl Calls {
    /// The calls whose numbers stand in `pends` are Pending; of the others those in `fails` fail. Where a number stands in
    /// `pends` twice, the second is for no call.
    pub fn new(pends: Vec<u64>, fails: Vec<u64>) -> Calls
        ensures { result ≡ record { pends = pends.items; fails = fails.items; next = 0; pended = 0; faults = 0 } }
    {
        Calls {
            pends,
            fails,
            next: 0,
            pended: 0,
            faults: 0,
        }
    }

    /// What becomes of the next call.
    pub fn turn(&mut self) -> Turn
        ensures turns { Turns self.old result self.new }
        ensures later { self.old.faults ≤ self.new.faults }
    {
        let call = self.next;
        self.next = call.saturating_add(1);
        if use_up(&mut self.pends, call) {
            self.pended += 1;
            return Turn::Waits;
        }
        if self.fails.contains(&call) {
            self.faults = self.faults.saturating_add(1);
            return Turn::Fails;
        }
        Turn::Goes
    }

    /// Counts a fault.
    pub fn fail(&mut self)
        ensures counted { self.new ≡ record self.old { faults = counted self.old.faults } }
        ensures later { self.old.faults ≤ self.new.faults }
    {
        self.faults = self.faults.saturating_add(1);
    }
}
