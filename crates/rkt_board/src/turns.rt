//! What happens in a launch: one call for each event.
ghost use Rattle.std.specs.Prelude.{◌≡◌, ◌≤◌, ◌<◌, ◌+◌, ◌↔◌, ℕ, Some, true, false, IsTrue, IfSome, length, vec_capacity};
ghost use Rattle.std.specs.List.{list_any};
ghost use Rattle.rkt_turn.specs.HandsBack.{HandsBack};
ghost use Rattle.rkt_link.specs.Clock.{IsAmid, IsWithin, TellsOn};
ghost use Rattle.rkt_board.specs.Board.{IsCutWithin, Keeps, SameBook};
ghost use Rattle.rkt_board.specs.Events.{is_close, is_trip, admitted, trip_of};
ghost use Rattle.rkt_board.specs.Records.{events};
ghost use Rattle.rkt_board.specs.Turns.{logged, AddsOne, AdmitsAs, SteppedAs, StopsAs, GivesAs, DownsAs, ClosesAs, TripsAs, ShowsTrip, gate_with, StaysOpen, MayDown, MayClose, IsOpen, IsRunOf};
ghost use Rattle.rkt_board.specs.declared.history.EventOf.TheVariants as event;

use crate::{BoardOf, Entry, EventOf, Log, RecordOf, Served, Stepped, recorded_trip};
use rkt_base::{Poll, Seq};
use rkt_fairing::Called;
use rkt_link::{Accepted, Clock, Link, Listener};
use rkt_request::Types;
use rkt_source::Gate;
use rkt_turn::Shutdown;
use std::snapshot::Snapshot;

/// A turn of a worker that has nothing open: it reads the clock, looks at the wire, and then polls the listener. Where the
/// wire has a word it enters the Trip, once. Nothing is admitted where that has come, or the listener has ended or failed.
pub fn turn<A: Types, P: Served<A, L::Link>, L: Listener, C: Clock>(
    board: &mut BoardOf<A, P, L, C>,
    by: u64,
) -> Stepped<L::Link>
    requires keeps { Keeps L.Link.meaning L.meaning C.meaning P.cause board.old }
    ensures name { board.new.name ≡ board.old.name }
    ensures turned { SteppedAs by board.old.log.records.items board.new.log.records.items result }
    ensures given { GivesAs L.Link.meaning board.new.log.records.items by (C.meaning board.new.outside.clock).last result }
    // A link is given only where the listener had neither ended nor failed, and has not in this turn.
    ensures admits { AdmitsAs board.old.outside.over board.old.outside.faulted result }
    ensures faultless { AdmitsAs board.new.outside.over board.new.outside.faulted result }
    // It looks at the wire with one load, unless a word was seen before.
    ensures looked { board.old.outside.handle.seen ≡ 0 → board.new.outside.handle.looked ≡ board.old.outside.handle.looked + 1 }
    ensures handle { HandsBack board.old.outside.handle board.new.outside.handle }
    ensures stops { StopsAs board.new.outside.handle.seen board.new.log.records.items result }
    ensures clock { TellsOn (C.meaning board.old.outside.clock) (C.meaning board.new.outside.clock) }
    ensures keeps { Keeps L.Link.meaning L.meaning C.meaning P.cause board.new }
{
    let moment = board.outside.clock.now();
    match board.outside.handle.tripped() {
        Some(word) => trip::<A, P, L, C>(board, by, moment, word),
        None => admit::<A, P, L, C>(board, by, moment),
    }
}

// Enters the Trip, where none stands yet.
fn trip<A: Types, P: Served<A, L::Link>, L: Listener, C: Clock>(
    board: &mut BoardOf<A, P, L, C>,
    by: u64,
    moment: u64,
    word: u64,
) -> Stepped<L::Link>
    requires keeps { Keeps L.Link.meaning L.meaning C.meaning P.cause board.old }
    requires moment { (moment ≡ (C.meaning board.old.outside.clock).last)
        × IsWithin (C.meaning board.old.name.clock.value).window moment }
    requires word { (0 < word) × (board.old.outside.handle.seen ≡ word) × A.Reason.allowed word }
    ensures name { board.new.name ≡ board.old.name }
    ensures turned { SteppedAs by board.old.log.records.items board.new.log.records.items result }
    ensures given { GivesAs L.Link.meaning board.new.log.records.items by (C.meaning board.new.outside.clock).last result }
    ensures admits { AdmitsAs board.old.outside.over board.old.outside.faulted result }
    ensures faultless { AdmitsAs board.new.outside.over board.new.outside.faulted result }
    ensures stops { StopsAs board.new.outside.handle.seen board.new.log.records.items result }
    ensures same { (board.new.outside.clock ≡ board.old.outside.clock) × (board.new.outside.handle ≡ board.old.outside.handle) }
    ensures keeps { Keeps L.Link.meaning L.meaning C.meaning P.cause board.new }
{
    if board.log.tripped || board.log.closed {
        return Stepped::Stop;
    }
    board.log.records.push_reserved(RecordOf {
        by,
        event: EventOf::Trip { word, moment },
        link: None,
    });
    board.log.tripped = true;
    Stepped::Tripped
}

// Makes room for an Admit, its End and all that can come anyway, and counts that Admit.
fn make_room<M, E>(log: &mut Log<M, E>) -> Option<u64>
    ensures same { SameBook log.old log.new }
    ensures next { IfSome result (λ next. next ≡ log.old.admitted + 1) }
    ensures room { IfSome result (λ next. length log.old.records.items + (log.old.opens + 5) ≤ vec_capacity log.new.records) }
    ensures history_room { IfSome result (λ next.
        length log.old.records.items + (log.old.opens + 5) ≤ vec_capacity log.new.history) }
{
    let next = log.admitted.checked_add(1)?;
    let room = log.opens.checked_add(5)?;
    let all = log.records.len().checked_add(room)?;
    log.records.reserve(room).ok()?;
    log.history.reserve(all).ok()?;
    Some(next)
}

// Polls the listener, with room for what it gives.
fn admit<A: Types, P: Served<A, L::Link>, L: Listener, C: Clock>(
    board: &mut BoardOf<A, P, L, C>,
    by: u64,
    moment: u64,
) -> Stepped<L::Link>
    requires keeps { Keeps L.Link.meaning L.meaning C.meaning P.cause board.old }
    requires moment { (moment ≡ (C.meaning board.old.outside.clock).last)
        × IsWithin (C.meaning board.old.name.clock.value).window moment }
    requires unseen { board.old.outside.handle.seen ≡ 0 }
    requires looked { board.old.name.handle.value.looked + admitted (events board.old.log.records.items)
        < board.old.outside.handle.looked }
    ensures name { board.new.name ≡ board.old.name }
    ensures turned { SteppedAs by board.old.log.records.items board.new.log.records.items result }
    ensures given { GivesAs L.Link.meaning board.new.log.records.items by (C.meaning board.new.outside.clock).last result }
    ensures admits { AdmitsAs board.old.outside.over board.old.outside.faulted result }
    ensures faultless { AdmitsAs board.new.outside.over board.new.outside.faulted result }
    ensures stops { StopsAs board.new.outside.handle.seen board.new.log.records.items result }
    ensures same { (board.new.outside.clock ≡ board.old.outside.clock) × (board.new.outside.handle ≡ board.old.outside.handle) }
    ensures keeps { Keeps L.Link.meaning L.meaning C.meaning P.cause board.new }
{
    if board.log.closed || board.outside.over || board.outside.faulted {
        return Stepped::Stop;
    }
    let Some(next) = make_room(&mut board.log) else {
        return Stepped::Stop;
    };
    match board.outside.listener.poll_accept() {
        Poll::Pending => Stepped::Again,
        Poll::Ready(Accepted::End) => {
            board.outside.over = true;
            Stepped::Stop
        }
        Poll::Ready(Accepted::Fault) => {
            board.outside.faulted = true;
            Stepped::Stop
        }
        Poll::Ready(Accepted::Given(link)) => {
            let number = board.log.admitted;
            board.log.records.push_reserved(RecordOf {
                by,
                event: EventOf::Admit { number, moment, by },
                link: Some(Snapshot::of(link.kept())),
            });
            board.log.admitted = next;
            board.log.opens += 1;
            Stepped::Given {
                number,
                moment,
                link,
            }
        }
    }
}

// Enters the Trip of a word that the handle has seen, where none stands yet.
fn enter_trip<A: Types, P: Served<A, L::Link>, L: Listener, C: Clock>(
    board: &mut BoardOf<A, P, L, C>,
    by: u64,
    moment: u64,
    word: u64,
)
    requires keeps { Keeps L.Link.meaning L.meaning C.meaning P.cause board.old }
    requires unclosed { list_any is_close (events board.old.log.records.items) ≡ false }
    requires moment { (moment ≡ (C.meaning board.old.outside.clock).last)
        × IsWithin (C.meaning board.old.name.clock.value).window moment }
    requires word { (0 < word) × (board.old.outside.handle.seen ≡ word) × A.Reason.allowed word }
    ensures name { board.new.name ≡ board.old.name }
    ensures outside { board.new.outside ≡ board.old.outside }
    ensures adds { TripsAs by board.old.log.records.items board.new.log.records.items }
    ensures trip { ShowsTrip (Some word) (events board.new.log.records.items) }
    ensures keeps { Keeps L.Link.meaning L.meaning C.meaning P.cause board.new }
{
    if board.log.tripped {
        return;
    }
    board.log.records.push_reserved(RecordOf {
        by,
        event: EventOf::Trip { word, moment },
        link: None,
    });
    board.log.tripped = true;
}

/// Reads the clock.
pub fn moment<A: Types, P: Served<A, L::Link>, L: Listener, C: Clock>(
    board: &mut BoardOf<A, P, L, C>,
) -> u64
    requires keeps { Keeps L.Link.meaning L.meaning C.meaning P.cause board.old }
    ensures name { board.new.name ≡ board.old.name }
    ensures log { board.new.log ≡ board.old.log }
    ensures handle { board.new.outside.handle ≡ board.old.outside.handle }
    ensures last { (C.meaning board.new.outside.clock).last ≡ result }
    ensures clock { TellsOn (C.meaning board.old.outside.clock) (C.meaning board.new.outside.clock) }
    ensures keeps { Keeps L.Link.meaning L.meaning C.meaning P.cause board.new }
{
    board.outside.clock.now()
}

/// The word and the moment of the Trip, if there is one.
pub fn entered_trip<A: Types, P: Served<A, L::Link>, L: Listener, C: Clock>(
    board: &BoardOf<A, P, L, C>,
) -> Option<(u64, u64)>
    requires keeps { Keeps L.Link.meaning L.meaning C.meaning P.cause board.now }
    ensures { result ≡ trip_of (events board.now.log.records.items) }
{
    if board.log.tripped {
        recorded_trip(board.log.records.as_slice())
    } else {
        None
    }
}

/// Looks at the clock and at the wire, and gives the Gate of that moment with these delays, in seconds, and with the
/// word, if there is one; the first time that there is, it enters the Trip. What is open stays open.
pub fn look<A: Types, P: Served<A, L::Link>, L: Listener, C: Clock>(
    board: &mut BoardOf<A, P, L, C>,
    by: u64,
    grace: u32,
    mercy: u32,
) -> Gate
    requires keeps { Keeps L.Link.meaning L.meaning C.meaning P.cause board.old }
    requires unclosed { list_any is_close (events board.old.log.records.items) ≡ false }
    ensures name { board.new.name ≡ board.old.name }
    ensures gate { result ≡ gate_with result.moment result.tripped grace mercy }
    ensures moment { IsAmid (C.meaning board.old.outside.clock) (C.meaning board.new.outside.clock) result.moment }
    ensures last { (C.meaning board.new.outside.clock).last ≡ result.moment }
    // It looks with one load, unless a word was seen before.
    ensures looked { board.old.outside.handle.seen ≡ 0 → board.new.outside.handle.looked ≡ board.old.outside.handle.looked + 1 }
    ensures handle { HandsBack board.old.outside.handle board.new.outside.handle }
    ensures clock { TellsOn (C.meaning board.old.outside.clock) (C.meaning board.new.outside.clock) }
    // The word that it shows is that of the Trip, where there is one.
    ensures word { ShowsTrip result.tripped (events board.new.log.records.items) }
    ensures adds { TripsAs by board.old.log.records.items board.new.log.records.items }
    ensures stays { StaysOpen L.Link.meaning board.old.log.records.items board.new.log.records.items }
    ensures keeps { Keeps L.Link.meaning L.meaning C.meaning P.cause board.new }
{
    let moment = board.outside.clock.now();
    let tripped = board.outside.handle.tripped();
    if let Some(word) = tripped {
        enter_trip::<A, P, L, C>(board, by, moment, word);
    }
    Gate {
        moment,
        tripped,
        grace,
        mercy,
    }
}

/// Takes a handle of the wire in that has seen a word, and enters the Trip, where none stands yet. What is open stays open.
pub fn return_handle<A: Types, P: Served<A, L::Link>, L: Listener, C: Clock>(
    board: &mut BoardOf<A, P, L, C>,
    by: u64,
    handle: Shutdown<A::Reason>,
)
    requires keeps { Keeps L.Link.meaning L.meaning C.meaning P.cause board.old }
    requires wire { handle.wire ≡ board.old.name.handle.value.wire }
    requires seen { 0 < handle.seen }
    requires unclosed { list_any is_close (events board.old.log.records.items) ≡ false }
    ensures name { board.new.name ≡ board.old.name }
    ensures clock { TellsOn (C.meaning board.old.outside.clock) (C.meaning board.new.outside.clock) }
    ensures trip { ShowsTrip (Some handle.seen) (events board.new.log.records.items) }
    ensures adds { TripsAs by board.old.log.records.items board.new.log.records.items }
    ensures stays { StaysOpen L.Link.meaning board.old.log.records.items board.new.log.records.items }
    ensures keeps { Keeps L.Link.meaning L.meaning C.meaning P.cause board.new }
{
    board.outside.handle.rejoin(handle);
    let moment = board.outside.clock.now();
    let word = board.outside.handle.seen();
    enter_trip::<A, P, L, C>(board, by, moment, word);
}

// Takes a handle of the wire in.
fn rejoin<A: Types, P: Served<A, L::Link>, L: Listener, C: Clock>(
    board: &mut BoardOf<A, P, L, C>,
    handle: Shutdown<A::Reason>,
)
    requires keeps { Keeps L.Link.meaning L.meaning C.meaning P.cause board.old }
    requires wire { handle.wire ≡ board.old.name.handle.value.wire }
    ensures name { board.new.name ≡ board.old.name }
    ensures log { board.new.log ≡ board.old.log }
    ensures clock { board.new.outside.clock ≡ board.old.outside.clock }
    ensures keeps { Keeps L.Link.meaning L.meaning C.meaning P.cause board.new }
{
    board.outside.handle.rejoin(handle);
}

// Enters the Trip of a word that the handle has seen, where none stands yet.
fn enter_seen<A: Types, P: Served<A, L::Link>, L: Listener, C: Clock>(
    board: &mut BoardOf<A, P, L, C>,
    by: u64,
)
    requires keeps { Keeps L.Link.meaning L.meaning C.meaning P.cause board.old }
    requires unclosed { list_any is_close (events board.old.log.records.items) ≡ false }
    ensures name { board.new.name ≡ board.old.name }
    ensures clock { TellsOn (C.meaning board.old.outside.clock) (C.meaning board.new.outside.clock) }
    ensures tripped { 0 < board.new.outside.handle.seen → list_any is_trip (events board.new.log.records.items) ≡ true }
    ensures adds { TripsAs by board.old.log.records.items board.new.log.records.items }
    ensures keeps { Keeps L.Link.meaning L.meaning C.meaning P.cause board.new }
{
    let word = board.outside.handle.seen();
    if word == 0 {
        return;
    }
    let moment = board.outside.clock.now();
    enter_trip::<A, P, L, C>(board, by, moment, word);
}

/// Takes the handle in that was lent to workers, if there is one, and enters the Trip of a word that it or the board's own has
/// seen, where none stands yet.
pub fn settle<A: Types, P: Served<A, L::Link>, L: Listener, C: Clock>(
    board: &mut BoardOf<A, P, L, C>,
    by: u64,
    handle: Option<Shutdown<A::Reason>>,
)
    requires keeps { Keeps L.Link.meaning L.meaning C.meaning P.cause board.old }
    requires wire { IfSome handle (λ h. h.wire ≡ board.old.name.handle.value.wire) }
    requires unclosed { list_any is_close (events board.old.log.records.items) ≡ false }
    ensures name { board.new.name ≡ board.old.name }
    ensures clock { TellsOn (C.meaning board.old.outside.clock) (C.meaning board.new.outside.clock) }
    // A handle has seen a word only where there is a Trip.
    ensures tripped { 0 < board.new.outside.handle.seen → list_any is_trip (events board.new.log.records.items) ≡ true }
    ensures adds { TripsAs by board.old.log.records.items board.new.log.records.items }
    ensures keeps { Keeps L.Link.meaning L.meaning C.meaning P.cause board.new }
{
    if let Some(handle) = handle {
        rejoin::<A, P, L, C>(board, handle);
    }
    enter_seen::<A, P, L, C>(board, by);
}

/// Enters the End of a number that this worker has open. It takes no memory.
pub fn end<A: Types, P: Served<A, L::Link>, L: Listener, C: Clock>(
    board: &mut BoardOf<A, P, L, C>,
    by: u64,
    number: u64,
    entry: Entry<A, L::Link>,
)
    requires keeps { Keeps L.Link.meaning L.meaning C.meaning P.cause board.old }
    requires opened { IsOpen L.Link.meaning board.old.log.records.items by number (L.Link.meaning entry.link.io).asked }
    requires ran { IsRunOf (C.meaning board.old.name.clock.value).window (events board.old.log.records.items) number entry
        (C.meaning board.old.outside.clock).last }
    requires cut { IsCutWithin (C.meaning board.old.name.clock.value).window entry.end }
    requires caused { (moment : ℕ)
        → (C.meaning board.old.outside.clock).last ≤ moment
        → P.cause board.old.name.served (C.meaning board.old.name.clock.value).window (events board.old.log.records.items)
        (event.End number entry moment by) }
    ensures name { board.new.name ≡ board.old.name }
    ensures adds { (moment : ℕ)
        × AddsOne board.old.log.records.items board.new.log.records.items (logged by (event.End number entry moment by)) }
    ensures handle { board.new.outside.handle ≡ board.old.outside.handle }
    ensures clock { TellsOn (C.meaning board.old.outside.clock) (C.meaning board.new.outside.clock) }
    ensures keeps { Keeps L.Link.meaning L.meaning C.meaning P.cause board.new }
{
    let moment = board.outside.clock.now();
    board.log.records.push_reserved(RecordOf {
        by,
        event: EventOf::End {
            number,
            entry,
            moment,
            by,
        },
        link: None,
    });
    board.log.opens -= 1;
}

/// Enters the Down, with the calls of the callbacks of a shutdown, behind a Trip that has none. It takes no memory.
pub fn down<A: Types, P: Served<A, L::Link>, L: Listener, C: Clock>(
    board: &mut BoardOf<A, P, L, C>,
    by: u64,
    calls: Seq<Called>,
) -> bool
    requires keeps { Keeps L.Link.meaning L.meaning C.meaning P.cause board.old }
    requires caused { P.cause board.old.name.served (C.meaning board.old.name.clock.value).window
        (events board.old.log.records.items) (event.Down calls) }
    ensures name { board.new.name ≡ board.old.name }
    ensures adds { DownsAs by calls board.old.log.records.items board.new.log.records.items result }
    ensures due { IsTrue result ↔ MayDown board.old.log.records.items }
    ensures outside { board.new.outside ≡ board.old.outside }
    ensures keeps { Keeps L.Link.meaning L.meaning C.meaning P.cause board.new }
{
    if !board.log.tripped || board.log.down || board.log.closed {
        return false;
    }
    board.log.records.push_reserved(RecordOf {
        by,
        event: EventOf::Down { calls },
        link: None,
    });
    board.log.down = true;
    true
}

/// Enters the Close, where nothing is open and a Down stands where a Trip does. It takes no memory.
pub fn close<A: Types, P: Served<A, L::Link>, L: Listener, C: Clock>(
    board: &mut BoardOf<A, P, L, C>,
    by: u64,
) -> bool
    requires keeps { Keeps L.Link.meaning L.meaning C.meaning P.cause board.old }
    ensures name { board.new.name ≡ board.old.name }
    ensures adds { ClosesAs by board.old.log.records.items board.new.log.records.items result }
    ensures due { IsTrue result ↔ MayClose board.old.log.records.items }
    // It does not look at the wire.
    ensures handle { board.new.outside.handle ≡ board.old.outside.handle }
    ensures clock { TellsOn (C.meaning board.old.outside.clock) (C.meaning board.new.outside.clock) }
    ensures keeps { Keeps L.Link.meaning L.meaning C.meaning P.cause board.new }
{
    if board.log.closed || board.log.opens != 0 || board.log.down != board.log.tripped {
        return false;
    }
    let moment = board.outside.clock.now();
    board.log.records.push_reserved(RecordOf {
        by,
        event: EventOf::Close { moment },
        link: None,
    });
    board.log.closed = true;
    true
}
