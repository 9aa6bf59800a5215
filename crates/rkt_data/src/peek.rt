//! A peek, which lends the bytes that are held.

use crate::data::Data;
use rkt_base::Poll;
use rkt_source::{Gate, Source};

impl<S: Source> Data<S> {
    ghost use Rattle.std.specs.Prelude.{⊤};
    ghost use Rattle.std.specs.Borrow.{sem};
    ghost use mathlib.Core.Option.{none};
    ghost use denote.Follow.{follows_so};
    ghost use Rattle.rkt_data.specs.contracts.data.Data.{the_row};
    ghost use Rattle.rkt_data.specs.Body.{Peeked, PeeksByGate, Shows};

    /// The first bytes of the body, up to `num` and up to `PEEK_BYTES`. It reads only what is not held yet, and shows
    /// fewer where the body ends or a read is refused.
    pub fn peek(&mut self, gate: Gate, num: usize) -> Poll<&[u8]>
        // Once the loan is over, the body is one that `num` was peeked of, and it was lent as it is then.
        ensures* peeked { sem 𝓛
            (follows_so (the_row S.row (record { meaning = S.meaning; polled = S.polled }) (record { shuts = S.shuts }))
            (the_row S.row (record { meaning = S.meaning; polled = S.polled }) (record { shuts = S.shuts }))
            self.entry.ghost_name none (λ _ _. ⊤) (λ after. Peeked S.meaning gate.tripped num self.old after
            × PeeksByGate S.polled gate result self.old after
            × Shows S.meaning num self.old after result)) }
    {
        match self.fill(gate, num) {
            Poll::Pending => Poll::Pending,
            Poll::Ready(()) => Poll::Ready(self.shown(num)),
        }
    }
}
