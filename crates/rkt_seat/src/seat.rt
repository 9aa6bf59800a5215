//! One turn of a worker, of each kind.
ghost use Rattle.std.specs.Prelude.{◌≡◌, ◌≤◌, ◌<◌, ℕ, List, Some, false, IfSome, IsNone, IsSome};
ghost use Rattle.std.specs.Option.{ForSome};
ghost use Rattle.rkt_turn.specs.Booked.{StartsWith};
ghost use Rattle.rkt_turn.specs.Pass.{known};
ghost use Rattle.rkt_link.specs.Clock.{IsWithin};
ghost use Rattle.rkt_board.specs.Board.{IsCutWithin, Keeps};
ghost use Rattle.rkt_board.specs.Events.{is_close, latest, trip_of};
ghost use Rattle.rkt_board.specs.Records.{events};
ghost use Rattle.rkt_board.specs.Turns.{logged, gate_with, AddsOne, IsOpen, IsRunOf, ShowsTrip, SteppedAs, TripsAs};
ghost use Rattle.rkt_board.specs.declared.history.EventOf.TheVariants as event;
ghost use Rattle.rkt_board.specs.declared.log_record.RecordOf.{RecordOf};
ghost use Rattle.rkt_seat.specs.Seat.{GivesTo, HasOpen, IsLookOf, IsSeat, TookTurn, window_at};
ghost use Rattle.std.specs.List.{list_any};

use rkt_board::{BoardOf, Entry, Served, Stepped, entered_trip, moment, turn};
use rkt_link::{Clock, Link, Listener};
use rkt_request::Types;
use rkt_source::Gate;
use rkt_turn::{Pass, Shutdown, Turnstile};
use std::sync::Wait;

/// The delays of what is served, in seconds: how long a link may go on after a Trip, and how long after that an exchange may.
pub trait Delays {
    ghost grace: { Self → ℕ };

    ghost mercy: { Self → ℕ };

    fn grace(&self) -> u32
        ensures grace { result ≡ grace self.now };

    fn mercy(&self) -> u32
        ensures mercy { result ≡ mercy self.now };
}

/// What a worker sees that looks up: the Gate of that moment, and the Trip that stands by then, with its word and its moment.
#[derive(Clone, Copy)]
pub struct Looked {
    pub gate: Gate,
    pub trip: Option<(u64, u64)>,
}

/// A turn of a worker that has nothing open, as `rkt_board::turn`.
pub fn step<A: Types, P: Served<A, L::Link>, L: Listener, C: Clock, R: Wait>(
    rt: &R,
    lock: &Turnstile<BoardOf<A, P, L, C>>,
    pass: &mut Pass<BoardOf<A, P, L, C>>,
) -> Stepped<L::Link>
    requires seat { IsSeat lock.now pass.old }
    ensures took { TookTurn lock.now pass.old pass.new }
    ensures mine { SteppedAs (known pass.old).number (known pass.old).mine (known pass.new).mine result }
    ensures named { IsSome (known pass.new).name }
    ensures given { GivesTo L.Link.meaning C.meaning (known pass.new) result }
{
    let by = pass.number();
    let mut guard = lock.enter(rt, pass);
    let stepped = turn::<A, P, L, C>(guard.state(), by);
    lock.leave(pass, guard);
    stepped
}

// Looks at the clock and at the wire, and at the Trip that stands then.
fn look_at<A: Types, P: Served<A, L::Link> + Delays, L: Listener, C: Clock>(
    board: &mut BoardOf<A, P, L, C>,
    by: u64,
) -> Looked
    requires keeps { Keeps L.Link.meaning L.meaning C.meaning P.cause board.old }
    requires unclosed { list_any is_close (events board.old.log.records.items) ≡ false }
    ensures name { board.new.name ≡ board.old.name }
    ensures gate { result.gate ≡ gate_with result.gate.moment result.gate.tripped
        (P.grace board.old.name.served) (P.mercy board.old.name.served) }
    ensures within { IsWithin (C.meaning board.old.outside.clock).window result.gate.moment }
    ensures latest { latest (events board.new.log.records.items) ≤ result.gate.moment }
    ensures word { ShowsTrip result.gate.tripped (events board.new.log.records.items) }
    ensures trip { result.trip ≡ trip_of (events board.new.log.records.items) }
    ensures adds { TripsAs by board.old.log.records.items board.new.log.records.items }
    ensures keeps { Keeps L.Link.meaning L.meaning C.meaning P.cause board.new }
{
    let grace = board.name.served.grace();
    let mercy = board.name.served.mercy();
    let gate = rkt_board::look::<A, P, L, C>(board, by, grace, mercy);
    let trip = entered_trip::<A, P, L, C>(board);
    Looked { gate, trip }
}

/// Looks at the clock and at the wire, as `rkt_board::look` with the delays of what is served. What the worker has open
/// stays open.
pub fn look<A: Types, P: Served<A, L::Link> + Delays, L: Listener, C: Clock, R: Wait>(
    rt: &R,
    lock: &Turnstile<BoardOf<A, P, L, C>>,
    pass: &mut Pass<BoardOf<A, P, L, C>>,
) -> Looked
    requires seat { IsSeat lock.now pass.old }
    ensures took { TookTurn lock.now pass.old pass.new }
    ensures mine { TripsAs (known pass.old).number (known pass.old).mine (known pass.new).mine }
    ensures named { IsSome (known pass.new).name }
    ensures gate { ForSome (known pass.new).name (λ name.
        result.gate ≡ gate_with result.gate.moment result.gate.tripped
        (P.grace name.value.served) (P.mercy name.value.served)) }
    // The Trip that stands is no later than the Gate, which shows its word.
    ensures looked { IsLookOf C.meaning (known pass.new) result.gate result.trip }
{
    let by = pass.number();
    let mut guard = lock.enter(rt, pass);
    let looked = look_at::<A, P, L, C>(guard.state(), by);
    lock.leave(pass, guard);
    looked
}

/// Gives a handle to the board that has seen a word, as `rkt_board::return_handle`. What the worker has open stays open.
pub fn return_handle<A: Types, P: Served<A, L::Link>, L: Listener, C: Clock, R: Wait>(
    rt: &R,
    lock: &Turnstile<BoardOf<A, P, L, C>>,
    pass: &mut Pass<BoardOf<A, P, L, C>>,
    handle: Shutdown<A::Reason>,
)
    requires seat { IsSeat lock.now pass.old }
    requires wire { ForSome (known pass.old).name (λ name. handle.wire ≡ name.value.handle.value.wire) }
    requires seen { 0 < handle.seen }
    ensures took { TookTurn lock.now pass.old pass.new }
    ensures mine { TripsAs (known pass.old).number (known pass.old).mine (known pass.new).mine }
    ensures trip { ShowsTrip (Some handle.seen) (events (known pass.new).seen) }
{
    let by = pass.number();
    let mut guard = lock.enter(rt, pass);
    rkt_board::return_handle::<A, P, L, C>(guard.state(), by, handle);
    lock.leave(pass, guard);
}

// Enters the End where the clock has come to this moment, and else hands the entry back.
fn end_from<A: Types, P: Served<A, L::Link>, L: Listener, C: Clock>(
    board: &mut BoardOf<A, P, L, C>,
    by: u64,
    number: u64,
    entry: Entry<A, L::Link>,
    least: u64,
) -> Option<Entry<A, L::Link>>
    requires keeps { Keeps L.Link.meaning L.meaning C.meaning P.cause board.old }
    requires opened { IsOpen L.Link.meaning board.old.log.records.items by number (L.Link.meaning entry.link.io).asked }
    requires ran { IsRunOf (C.meaning board.old.name.clock.value).window
        (events board.old.log.records.items) number entry least }
    requires cut { IsCutWithin (C.meaning board.old.name.clock.value).window entry.end }
    requires caused { (moment : ℕ)
        → least ≤ moment
        → P.cause board.old.name.served (C.meaning board.old.name.clock.value).window (events board.old.log.records.items)
        (event.End number entry moment by) }
    ensures name { board.new.name ≡ board.old.name }
    ensures early { IfSome result (λ back. (back ≡ entry) × (board.new.log.records.items ≡ board.old.log.records.items)) }
    ensures adds { IsNone result → (moment : ℕ)
        × AddsOne board.old.log.records.items board.new.log.records.items (logged by (event.End number entry moment by)) }
    ensures keeps { Keeps L.Link.meaning L.meaning C.meaning P.cause board.new }
{
    if moment::<A, P, L, C>(board) < least {
        return Some(entry);
    }
    rkt_board::end::<A, P, L, C>(board, by, number, entry);
    None
}

/// Enters the End of a number that the worker has open, at a moment that is not before this one: as a clock never goes back,
/// that of the first turn is not, if the worker was told this one. It takes no memory.
pub fn end<A: Types, P: Served<A, L::Link>, L: Listener, C: Clock, R: Wait>(
    rt: &R,
    lock: &Turnstile<BoardOf<A, P, L, C>>,
    pass: &mut Pass<BoardOf<A, P, L, C>>,
    number: u64,
    mut entry: Entry<A, L::Link>,
    least: u64,
)
    requires seat { IsSeat lock.now pass.old }
    requires opened { HasOpen L.Link.meaning (known pass.old) number (L.Link.meaning entry.link.io).asked }
    requires ran { ForSome (known pass.old).name (λ name.
        IsRunOf (window_at C.meaning name) (events (known pass.old).seen) number entry least) }
    requires cut { ForSome (known pass.old).name (λ name. IsCutWithin (window_at C.meaning name) entry.end) }
    // Whatever the others enter before.
    requires caused { ForSome (known pass.old).name (λ name. (before : List (RecordOf A.Cached A.Stream L.Link)) (moment : ℕ)
        → StartsWith before (known pass.old).seen
        → least ≤ moment
        → P.cause name.value.served (window_at C.meaning name) (events before)
        (event.End number entry moment (known pass.old).number)) }
    ensures took { TookTurn lock.now pass.old pass.new }
    ensures mine { (moment : ℕ)
        × AddsOne (known pass.old).mine (known pass.new).mine
        (logged (known pass.old).number (event.End number entry moment (known pass.old).number)) }
{
    let by = pass.number();
    for _ in rt.forever() {
        let mut guard = lock.enter(rt, pass);
        let early = end_from::<A, P, L, C>(guard.state(), by, number, entry, least);
        lock.leave(pass, guard);
        match early {
            Some(back) => entry = back,
            None => return,
        }
    }
    unreachable!()
}
