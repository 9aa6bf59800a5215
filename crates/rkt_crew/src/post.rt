//! What one thread of a crew works from.
ghost use Rattle.std.specs.Prelude.{◌≡◌};

use rkt_turn::{Booked, Pass, Reason, Shutdown, Turnstile};

/// A post: a pass of a lock that its crew shares, a handle of a wire, as long as its job has not given that away, and
/// what its job notes there: the last moment that it has told, in seconds, and the word and the moment of a trip that
/// it has seen.
pub struct Post<'b, S: Booked, W: Reason, R> {
    pub rt: &'b R,
    pub lock: &'b Turnstile<S>,
    pub pass: Pass<S>,
    pub handle: Option<Shutdown<W>>,
    pub moment: u64,
    pub trip: Option<(u64, u64)>,
}

impl<'b, S: Booked, W: Reason, R> Post<'b, S, W, R> {
    pub(crate) fn into_parts(self) -> (Pass<S>, Option<Shutdown<W>>)
        ensures { (result.0 ≡ self.entry.pass) × (result.1 ≡ self.entry.handle) }
    {
        let Self {
            rt: _,
            lock: _,
            pass,
            handle,
            moment: _,
            trip: _,
        } = self;
        (pass, handle)
    }
}

impl<'b, S: Booked, W: Reason, R> Drop for Post<'b, S, W, R> {
    fn drop(self) {
        let Self {
            rt: _,
            lock: _,
            pass: _,
            handle: _,
            moment: _,
            trip: _,
        } = self;
    }
}
