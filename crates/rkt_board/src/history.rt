//! What happened in a launch.
ghost use Rattle.std.specs.Prelude.{Some, None, replicate, ◌≡◌, ◌≤◌, ◌<◌, ◌↔◌, ℕ, nat_lt, if◌then◌else◌, ◌++◌, List, true, IsSome, IfOk, IfSome, map, length, slice_get};
ghost use Rattle.std.specs.List.{count_by, list_any};
ghost use Rattle.std.specs.Option.{option_copied};
ghost use Rattle.rkt_board.specs.declared.history.EventOf.{EventOf};
ghost use Rattle.rkt_board.specs.Events.{noted, with_first, is_admit, is_abandoned, is_trip, admitted, admits, ends, end_of, trip_of, Ordered, IsClosed};

use rkt_base::{Boxed, NoMemory, Seq};
use rkt_exchange::RunOf;
use rkt_fairing::Called;
use rkt_message::Response;
use rkt_request::Types;
use rkt_source::CancellableIo;
use std::alloc::{AllocError, Global};

/// Why a response could not be sent.
#[derive(Clone, Copy, Debug, PartialEq, Eq)]
pub enum Failure {
    /// No head can be formed, and nothing was sent.
    BadHead,
    /// The source of the body refused, or was Pending too often in a row.
    BodyFault,
}

/// How an exchange ended.
#[derive(Clone, Copy, Debug, PartialEq, Eq)]
pub enum End {
    /// The link took the whole response.
    Answered,
    /// The link failed before it had taken the whole response.
    Lost,
    /// The link was cut off before it had taken the whole response: a Trip was seen while it was sent, in this second, and
    /// the grace was over in that one.
    Cut { saw: u64, cut: u64 },
    /// The response could not be sent, or not to its end.
    Failed(Failure),
    /// It still waited when the grace and the mercy of a Trip were over, and was left alone.
    Abandoned,
    /// There was no memory for it.
    Starved,
}

/// What is kept of one exchange. The link is kept as it was sent through.
#[derive(Drop)]
pub struct EntryOf<C, S, K> {
    pub link: CancellableIo<K>,
    pub run: Option<Boxed<RunOf<C>>>,
    pub response: Option<Boxed<Response<S>>>,
    pub end: End,
}

/// A run of an application and its response, on the heap.
pub type Kept<A> = (
    Boxed<RunOf<<A as Types>::Cached>>,
    Boxed<Response<<A as Types>::Stream>>,
);

/// What is kept of one exchange of an application.
pub type Entry<A, K> = EntryOf<<A as Types>::Cached, <A as Types>::Stream, K>;

impl<C, S, K> EntryOf<C, S, K> {
    /// What is kept of an exchange that came to no response.
    pub fn unanswered(link: CancellableIo<K>, end: End) -> EntryOf<C, S, K>
        ensures { result ≡ record { link = link; run = None; response = None; end = end } }
    {
        EntryOf {
            link,
            run: None,
            response: None,
            end,
        }
    }
}

/// A run and its response, to be kept. Where there is no memory for them both are let go.
pub fn kept<A: Types>(
    alloc: Global,
    run: RunOf<A::Cached>,
    response: Response<A::Stream>,
) -> Result<Kept<A>, NoMemory>
    ensures { IfOk result (λ kept. kept ≡ (run, response)) }
{
    // What is let go is by a call, in which that is proved once for its type.
    let Ok(run) = Boxed::new(alloc, run) else {
        drop(response);
        return Err(AllocError);
    };
    match Boxed::new(alloc, response) {
        Ok(response) => Ok((run, response)),
        Err(error) => {
            drop(run);
            Err(error)
        }
    }
}

/// One event of a launch. `by` is the number of the worker that entered it.
#[derive(Drop)]
pub enum EventOf<C, S, K> {
    /// The liftoff callbacks were called.
    Lift {
        calls: Seq<Called>,
    },
    /// A word was seen on the wire, and nothing is admitted any more.
    Trip {
        word: u64,
        moment: u64,
    },
    /// A link was given.
    Admit {
        number: u64,
        moment: u64,
        by: u64,
    },
    /// The exchange with that link is over.
    End {
        number: u64,
        entry: EntryOf<C, S, K>,
        moment: u64,
        by: u64,
    },
    /// The callbacks of a shutdown were called.
    Down {
        calls: Seq<Called>,
    },
    /// Nothing is open any more, and nothing follows.
    Close {
        moment: u64,
    },
}

/// One event of a launch of an application.
pub type Event<A, K> = EventOf<<A as Types>::Cached, <A as Types>::Stream, K>;

/// The events of a launch, in order.
#[derive(Drop)]
pub struct HistoryOf<C, S, K> {
    pub events: Seq<EventOf<C, S, K>>,
}

/// The events of a launch of an application, in order.
pub type History<A, K> = HistoryOf<<A as Types>::Cached, <A as Types>::Stream, K>;

fn is_admit<C, S, K>(event: &EventOf<C, S, K>) -> bool
    ensures { result ≡ is_admit event.now }
{
    matches!(event, EventOf::Admit { .. })
}

fn count_admits<C, S, K>(events: &[EventOf<C, S, K>]) -> u64
    ensures { result ≡ admitted events.now }
{
    events.iter().filter(|event| is_admit(event)).count() as u64
}

// The entry of the first End of a number.
fn find_entry<C, S, K>(events: &Seq<EventOf<C, S, K>>, number: u64) -> Option<&EntryOf<C, S, K>>
    ensures { option_copied result ≡ end_of number events.now }
{
    for event in events.as_slice() {
        if let EventOf::End {
            number: other,
            entry,
            ..
        } = event
            && *other == number
        {
            return Some(entry);
        }
    }
    None
}

fn is_abandoned<C, S, K>(event: &EventOf<C, S, K>) -> bool
    ensures { result ≡ is_abandoned event.now }
{
    match event {
        EventOf::End { entry, .. } => matches!(entry.end, End::Abandoned),
        _ => false,
    }
}

// The word and the moment of the first Trip.
fn find_trip<C, S, K>(events: &Seq<EventOf<C, S, K>>) -> Option<(u64, u64)>
    ensures { result ≡ trip_of events.now }
{
    for event in events.as_slice() {
        if let EventOf::Trip { word, moment } = event {
            return Some((*word, *moment));
        }
    }
    None
}

impl<C, S, K> HistoryOf<C, S, K> {
    /// How many requests were admitted.
    pub fn admitted(&self) -> u64
        ensures count { result ≡ admitted self.now.events }
        ensures numbers { Ordered self.now.events
            → (k : ℕ)
            → count_by (admits k) self.now.events ≡ (if nat_lt k result then 1 else 0) }
    {
        count_admits(self.events.as_slice())
    }

    /// The entry of a number.
    pub fn entry(&self, number: u64) -> Option<&EntryOf<C, S, K>>
        ensures found { option_copied result ≡ end_of number self.now.events }
        ensures once { Ordered self.now.events → count_by (ends number) self.now.events ≤ 1 }
        ensures closed { Ordered self.now.events
            → IsClosed self.now.events
            → IsSome result ↔ (number < admitted self.now.events) }
    {
        find_entry(&self.events, number)
    }

    /// The word and the moment of its Trip, if there is one.
    pub fn trip(&self) -> Option<(u64, u64)>
        ensures found { result ≡ trip_of self.now.events }
        ensures once { Ordered self.now.events → count_by is_trip self.now.events ≤ 1 }
        ensures word { IfSome result (λ trip. Ordered self.now.events → 0 < trip.0) }
        // Nothing is admitted behind it.
        ensures last { Ordered self.now.events
            → (front rest : List (EventOf C S K))
            → self.now.events ≡ front ++ rest
            → list_any is_trip front ≡ true
            → admitted rest ≡ 0 }
    {
        find_trip(&self.events)
    }

    /// Whether an exchange was abandoned.
    pub fn abandoned(&self) -> bool
        ensures { result ≡ list_any is_abandoned self.now.events }
    {
        self.events
            .as_slice()
            .iter()
            .any(|event| is_abandoned(event))
    }

    /// The entries of the numbers that were admitted, by number, in one walk over the events.
    pub fn entries(&self, alloc: Global) -> Result<Vec<Option<&EntryOf<C, S, K>>>, NoMemory>
        ensures count { IfOk result (λ entries. length entries.items ≡ admitted self.now.events) }
        ensures each { IfOk result (λ entries. (k : ℕ)
            → k < admitted self.now.events
            → slice_get (map (λ entry. option_copied entry) entries.items) k ≡ Some (end_of k self.now.events)) }
    {
        let mut entries = none_of(alloc, self.admitted() as usize)?;
        for event in self.events.as_slice() {
            note(&mut entries, event);
        }
        Ok(entries)
    }
}

// As many places, with nothing in them.
fn none_of<'a, C, S, K>(
    alloc: Global,
    count: usize,
) -> Result<Vec<Option<&'a EntryOf<C, S, K>>>, NoMemory>
    ensures { IfOk result (λ entries. map (λ entry. option_copied entry) entries.items ≡ replicate count None) }
{
    let mut entries = Vec::new(alloc);
    for _ in 0..count {
        entries.push(None)?;
    }
    Ok(entries)
}

// Notes the entry of an End at the place of its number.
fn note<'a, C, S, K>(entries: &mut Vec<Option<&'a EntryOf<C, S, K>>>, event: &'a EventOf<C, S, K>)
    ensures { map (λ entry. option_copied entry) entries.new.items
        ≡ noted event.now (map (λ entry. option_copied entry) entries.old.items) }
{
    if let EventOf::End { number, entry, .. } = event {
        enter_first(entries, *number as usize, entry);
    }
}

// Notes an entry at its place, unless one stands there or there is no such place.
fn enter_first<'a, C, S, K>(
    entries: &mut Vec<Option<&'a EntryOf<C, S, K>>>,
    at: usize,
    entry: &'a EntryOf<C, S, K>,
)
    ensures { map (λ entry. option_copied entry) entries.new.items
        ≡ with_first at entry.now (map (λ entry. option_copied entry) entries.old.items) }
{
    if at < entries.len() && entries[at].is_none() {
        entries[at] = Some(entry);
    }
}
