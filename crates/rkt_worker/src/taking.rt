//! How the body of a request is taken from its link.
ghost use Rattle.std.specs.Prelude.{◌≡◌, None};
ghost use Rattle.rkt_source.specs.declared.stage.Stage.{Stage};
ghost use Rattle.rkt_worker.specs.Taking.{AnswersNow, TakenAs, TakesSource};

use rkt_base::Poll;
use rkt_data::{CancellableIo, Gate, Refused};
use rkt_link::Link;

// Asks a link for the source, which it answers at once.
fn ask_source<K: Link>(link: &mut K) -> Poll<Option<K::Source>>
    ensures { AnswersNow K.Source.meaning (K.meaning link.old) result (K.meaning link.new) }
{
    Poll::Ready(link.take_source())
}

// Asks a link for the source that nothing has cut off.
fn poll_source<K: Link>(
    io: &mut CancellableIo<K>,
    gate: Gate,
) -> Poll<Result<Option<K::Source>, Refused>>
    requires active { io.old.stage ≡ Stage.Active }
    requires untripped { gate.tripped ≡ None }
    ensures { TakenAs K.meaning K.Source.meaning io.old result io.new }
{
    io.poll_with(gate, |link| ask_source(link))
}

/// Takes the source of a link that nothing has cut off, under a Gate that shows no trip.
pub(crate) fn take_source<K: Link>(io: &mut CancellableIo<K>, gate: Gate) -> Option<K::Source>
    requires active { io.old.stage ≡ Stage.Active }
    requires untripped { gate.tripped ≡ None }
    ensures active { io.new.stage ≡ Stage.Active }
    ensures takes { TakesSource K.Source.meaning (K.meaning io.old.io) result (K.meaning io.new.io) }
{
    match poll_source(io, gate) {
        Poll::Ready(Ok(source)) => source,
        Poll::Ready(Err(_)) => unreachable!(),
        Poll::Pending => unreachable!(),
    }
}
