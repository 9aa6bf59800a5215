//! How a launch begins.
ghost use Rattle.std.specs.Prelude.{◌≡◌, ◌∷◌, [], IfOk};
ghost use Rattle.rkt_board.specs.Board.{IsBlank, Keeps};
ghost use Rattle.rkt_board.specs.Turns.{logged};
ghost use Rattle.rkt_board.specs.declared.history.EventOf.TheVariants.{Lift};

use crate::{Board, BoardOf, Event, EventOf, Initial, Log, Outside, Record, RecordOf, Served};
use rkt_base::{NoMemory, Seq};
use rkt_fairing::Called;
use rkt_link::{CancellableListener, Clock, Listener};
use rkt_request::Types;
use rkt_turn::Shutdown;
use std::alloc::Global;
use std::marker::PhantomData;
use std::snapshot::Snapshot;

// How many events a launch without a link has at most: a Lift, a Trip, a Down and a Close.
const FEWEST: usize = 4;

impl<M: Drop, E: Drop> Log<M, E> {
    /// A log without an event, with room for those of a launch that admits nothing.
    pub fn new(alloc: Global) -> Result<Log<M, E>, NoMemory>
        ensures { IfOk result IsBlank }
    {
        let records = Vec::with_capacity(alloc, FEWEST)?;
        let history = Vec::with_capacity(alloc, FEWEST)?;
        Ok(Log {
            records,
            history,
            admitted: 0,
            opens: 0,
            tripped: false,
            down: false,
            closed: false,
        })
    }
}

/// Enters the Lift, with the calls of the callbacks of liftoff. It takes no memory.
pub fn lift<A: Types, P: Served<A, L::Link>, L: Listener, C: Clock>(
    mut log: Log<Record<A, L::Link>, Event<A, L::Link>>,
    served: P,
    listener: L,
    clock: C,
    handle: Shutdown<A::Reason>,
    by: u64,
    calls: Seq<Called>,
) -> BoardOf<A, P, L, C>
    requires blank { IsBlank log }
    requires caused { P.cause served (C.meaning clock).window [] (Lift calls) }
    ensures name { (result.name.served ≡ served)
        × (result.name.listener.value ≡ listener)
        × (result.name.clock.value ≡ clock)
        × (result.name.handle.value ≡ handle)
        × (result.name.calls.value ≡ calls) }
    ensures handle { result.outside.handle ≡ handle }
    ensures adds { result.log.records.items ≡ logged by (Lift calls) ∷ [] }
    ensures keeps { Keeps L.Link.meaning L.meaning C.meaning P.cause result }
{
    let name = Initial {
        app: PhantomData,
        served,
        listener: Snapshot::of(&listener),
        clock: Snapshot::of(&clock),
        handle: Snapshot::of(&handle),
        calls: Snapshot::of(&calls),
    };
    log.records.push_reserved(RecordOf {
        by,
        event: EventOf::Lift { calls },
        link: None,
    });
    let outside = Outside {
        listener: CancellableListener::new(listener),
        clock,
        handle,
        over: false,
        faulted: false,
    };
    Board { name, log, outside }
}
