//! The clock of the machine, whose moments nothing here can vouch for.
use crate::Clock;
use std::time::{SystemTime, UNIX_EPOCH};

/// Tells the greatest second of the machine's clock that it has seen. It stays where that clock goes back or cannot
/// be read, and tells no window.
#[derive(Drop)]
pub struct SystemClock<'a, R> {
    rt: &'a R,
    last: u64,
}

impl<'a, R> SystemClock<'a, R> {
    /// A clock that has seen nothing yet.
    pub fn new(rt: &'a R) -> SystemClock<'a, R> {
        SystemClock { rt, last: 0 }
    }
}

impl<'a, R: std::time::Clock> Clock for SystemClock<'a, R> {
    ghost use Rattle.std.specs.Prelude.{None};

    ghost meaning = { λ c. record { last = c.last; window = None } };

    fn now(&mut self) -> u64 {
        if let Ok(now) = SystemTime::now(self.rt)
            && let Ok(since) = now.duration_since(UNIX_EPOCH)
        {
            self.last = self.last.max(since.as_secs());
        }
        self.last
    }
}
