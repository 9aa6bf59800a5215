//! What tells the moment.
ghost use Rattle.std.specs.Prelude.{◌≡◌, ◌≤◌};
ghost use Rattle.rkt_link.specs.Clock.{ClockMeaning, IsWithin};

/// A clock that never goes back.
pub trait Clock: Drop {
    /// What contracts see of a clock.
    ghost meaning: { Self → ClockMeaning };

    /// The moment, in whole seconds.
    fn now(&mut self) -> u64
        ensures rises { (meaning self.old).last ≤ result }
        ensures last { meaning self.new ≡ record (meaning self.old) { last = result } }
        ensures window { IsWithin (meaning self.old).window result };
}
