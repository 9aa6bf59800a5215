//! Launches.
ghost use Rattle.std.specs.Prelude.{IfOk};
ghost use Rattle.rkt_link.specs.Listener.{IsFresh};
ghost use Rattle.rkt_link.specs.Memory.{listener_meaning};

use crate::app::{Site, rocket};
use crate::exchange::cookies;
use crate::heads::listener_of;
use crate::pieces::ended;
use crate::setting::Setting;
use cases::{CaseError, first_word, numbers, parsed};
use rkt_serve::{
    Entry, Error, ErrorKindOf, EventOf, History, Launch, Launched, ListClock, ListListener,
    MemoryLink,
};
use std::alloc::{AllocError, Global};
use std::sync::Wait;
use std::thread::Threads;

pub type Over = Launched<Site, ListListener, ListClock>;

fn run_cookies(alloc: Global, entry: &Entry<Site, MemoryLink>) -> Result<String, AllocError> {
    match &entry.run {
        Some(run) => cookies(alloc, &run.get().jar),
        None => Ok(String::new(alloc)),
    }
}

/// How an entry ended, and the cookies of its run.
fn entry_text(alloc: Global, entry: &Entry<Site, MemoryLink>) -> Result<String, AllocError> {
    let ended = ended(alloc, entry.end, entry.link.kept())?;
    let cookies = run_cookies(alloc, entry)?;
    format!(in alloc; "; {ended} cookies [{cookies}]")
}

fn push_entry(
    alloc: Global,
    text: &mut String,
    entry: Option<&Entry<Site, MemoryLink>>,
) -> Result<(), AllocError> {
    match entry {
        Some(entry) => text.push_str(entry_text(alloc, entry)?.as_str()),
        None => text.push_str("; none"),
    }
}

fn push_entries(
    alloc: Global,
    text: &mut String,
    history: &History<Site, MemoryLink>,
) -> Result<(), AllocError> {
    for entry in history.entries(alloc)? {
        push_entry(alloc, text, entry)?;
    }
    Ok(())
}

fn closed_at(history: &History<Site, MemoryLink>) -> u64 {
    match history.events.as_slice().last() {
        Some(EventOf::Close { moment }) => *moment,
        _ => 0,
    }
}

/// The events of a launch, its entries, and the moment of its close.
pub fn history_text(
    alloc: Global,
    history: &History<Site, MemoryLink>,
) -> Result<String, AllocError> {
    let (events, admitted) = (history.events.len(), history.admitted());
    let mut text = format!(in alloc; "{events} events, {admitted} admitted")?;
    push_entries(alloc, &mut text, history)?;
    let close = format!(in alloc; "; closed at {}", closed_at(history))?;
    text.push_str(close.as_str())?;
    Ok(text)
}

/// Want of memory, which is what is left of the errors of a rocket that has ignited.
pub fn refused(error: Error<Site, ListListener, ListClock>) -> CaseError {
    let _text = error.pretty_print();
    CaseError::NoMemory
}

/// A launch whose listener failed, or which abandoned an exchange.
fn failed(error: Error<Site, ListListener, ListClock>) -> Result<(Over, bool), CaseError> {
    match error.kind() {
        ErrorKindOf::Shutdown(over) => Ok((over, true)),
        kind => {
            drop(kind);
            Err(CaseError::NoMemory)
        }
    }
}

/// What a launch leaves, and whether its shutdown failed.
fn launched<R: Wait + Threads>(
    rt: &R,
    alloc: Global,
    setting: &Setting,
    workers: u64,
    clock: ListClock,
    listener: ListListener,
) -> Result<(Over, bool), CaseError>
    requires fresh { IsFresh (listener_meaning listener) }
{
    let rocket = rocket(alloc, setting)?;
    match rocket.launch(rt, alloc, listener, clock, workers as usize) {
        Ok(over) => Ok((over, false)),
        Err(error) => failed(error),
    }
}

fn over_text(alloc: Global, over: &Over, failed: bool) -> Result<String, AllocError> {
    let text = history_text(alloc, &over.history)?;
    if failed {
        return format!(in alloc; "shutdown failed; {text}");
    }
    Ok(text)
}

/// The listener of `POLLS LINK | LINK ..`.
pub fn listener(alloc: Global, setting: &Setting, text: &str) -> Result<ListListener, CaseError>
    ensures { IfOk result (λ listener. IsFresh (listener_meaning listener)) }
{
    let (pends, links) = first_word(text);
    let pends = numbers(alloc, pends)?;
    Ok(listener_of(alloc, setting, pends, links)?)
}

/// The launch of `WORKERS MOMENTS POLLS LINK | LINK ..`.
pub fn launch<R: Wait + Threads>(
    rt: &R,
    alloc: Global,
    setting: &Setting,
    text: &str,
) -> Result<String, CaseError> {
    let (workers, rest) = first_word(text);
    let (moments, rest) = first_word(rest);
    let workers = parsed::<u64>(workers)?;
    let clock = ListClock::new(numbers(alloc, moments)?);
    let listener = listener(alloc, setting, rest)?;
    let (over, failed) = launched(rt, alloc, setting, workers, clock, listener)?;
    let text = over_text(alloc, &over, failed);
    drop(over);
    Ok(text?)
}
