//! The source behind a body.
ghost use Rattle.std.specs.Prelude.{◌≡◌, ◌≤◌, length, take};
ghost use Rattle.rkt_data.specs.CountedSource.{Pulled, Stopped, PollsTo, Gave, ToppedUp, ending_at};

use rkt_base::Poll;
use rkt_source::{Gate, Source, SourceError};
use std::snapshot::Snapshot;

/// A source, and for contracts the source as it was handed in.
#[derive(Drop)]
pub(crate) struct CountedSource<S> {
    pub(crate) source: S,
    pub(crate) begun: Snapshot<S>,
}

/// Why reading ended.
#[derive(Clone, Copy, Debug, Drop, PartialEq, Eq)]
pub(crate) enum Stop {
    Full,
    End,
    Failed(SourceError),
    Waiting,
}

// Reads on behind the bytes that a buffer holds already, and answers how many it holds then.
pub(crate) fn top_up<S: Source>(
    tap: &mut CountedSource<S>,
    gate: Gate,
    bytes: &mut [u8],
    held: usize,
    want: usize,
) -> (usize, Stop)
    requires order { held ≤ want }
    requires room { want ≤ length bytes.old }
    requires gave { Gave (S.meaning tap.old.begun.value) (S.meaning tap.old.source) (take held bytes.old) }
    ensures begun { tap.new.begun.value ≡ tap.old.begun.value }
    ensures by_gate { PollsTo S.polled gate (ending_at result.1) tap.old.source tap.new.source }
    ensures topped_up { ToppedUp gate.tripped (S.meaning tap.old.begun.value) (S.meaning tap.old.source)
        (S.meaning tap.new.source) held want bytes.old bytes.new result.0 }
    ensures stopped { Stopped (S.meaning tap.old.source) (S.meaning tap.new.source) result.0 (take want bytes.new) result.1 }
{
    let (n, stop) = pull(&mut tap.source, gate, &mut bytes[held..want]);
    (held + n, stop)
}

// Reads from a source until a buffer is full.
fn pull<S: Source>(source: &mut S, gate: Gate, room: &mut [u8]) -> (usize, Stop)
    ensures by_gate { PollsTo S.polled gate (ending_at result.1) source.old source.new }
    ensures pulled { Pulled gate.tripped (S.meaning source.old) (S.meaning source.new) result.0 room.new }
    ensures stopped { Stopped (S.meaning source.old) (S.meaning source.new) result.0 room.new result.1 }
{
    let mut n = 0;
    while n < room.len() {
        match source.poll_read(gate, &mut room[n..]) {
            Poll::Ready(Ok(0)) => return (n, Stop::End),
            Poll::Ready(Ok(k)) => n += k,
            Poll::Ready(Err(e)) => return (n, Stop::Failed(e)),
            Poll::Pending => return (n, Stop::Waiting),
        }
    }
    (n, Stop::Full)
}
