//! The order of the events of launches.
ghost use Rattle.rkt_link.specs.Listener.{IsFresh};
ghost use Rattle.rkt_link.specs.Memory.{listener_meaning};

use crate::app::{Site, rocket};
use crate::launch::{Over, listener, refused};
use crate::setting::Setting;
use cases::{CaseError, push_item};
use rkt_life::{Ignite, Rocket};
use rkt_serve::{
    Called, Event, EventOf, History, Launch, LaunchedOf, ListClock, ListListener, MemoryLink,
};
use std::alloc::{AllocError, Global};
use std::sync::Wait;
use std::thread::Threads;

fn called_text(called: Called) -> &'static str {
    match called {
        Called::Done => " done",
        Called::FailedTurn => " failed",
        Called::Starved => " starved",
    }
}

/// An event of this name, with how each of its calls ended.
fn calls_text(alloc: Global, name: &str, calls: &[Called]) -> Result<String, AllocError> {
    let mut text = String::from_str(alloc, name)?;
    for called in calls {
        text.push_str(called_text(*called))?;
    }
    Ok(text)
}

/// What an event is, with its calls, its number or its word.
fn event_text(alloc: Global, event: &Event<Site, MemoryLink>) -> Result<String, AllocError> {
    match event {
        EventOf::Lift { calls } => calls_text(alloc, "Lift", calls.as_slice()),
        EventOf::Trip { word, .. } => format!(in alloc; "Trip {}", *word),
        EventOf::Admit { number, .. } => format!(in alloc; "Admit {}", *number),
        EventOf::End { number, .. } => format!(in alloc; "End {}", *number),
        EventOf::Down { calls } => calls_text(alloc, "Down", calls.as_slice()),
        EventOf::Close { .. } => String::from_str(alloc, "Close"),
    }
}

fn push_event(
    alloc: Global,
    text: &mut String,
    event: &Event<Site, MemoryLink>,
) -> Result<(), AllocError> {
    let event = event_text(alloc, event)?;
    push_item(text, event.as_str())
}

/// The events of a launch, in order.
pub fn events_text(
    alloc: Global,
    history: &History<Site, MemoryLink>,
) -> Result<String, AllocError> {
    let mut text = String::new(alloc);
    for event in history.events.as_slice() {
        push_event(alloc, &mut text, event)?;
    }
    Ok(text)
}

fn launched<R: Wait + Threads>(
    rt: &R,
    alloc: Global,
    rocket: Rocket<Ignite, Site>,
    listener: ListListener,
) -> Result<Over, CaseError>
    requires fresh { IsFresh (listener_meaning listener) }
{
    match rocket.launch(rt, alloc, listener, ListClock::new(Vec::new(alloc)), 0) {
        Ok(launched) => Ok(launched),
        Err(error) => Err(refused(error)),
    }
}

/// The rocket that comes back.
fn rocket_of(over: Over) -> Rocket<Ignite, Site> {
    let LaunchedOf {
        rocket,
        listener,
        clock,
        history,
    } = over;
    drop(listener);
    drop(clock);
    drop(history);
    rocket
}

/// Launches a rocket: what happened, and the rocket that comes back.
fn launched_once<R: Wait + Threads>(
    rt: &R,
    alloc: Global,
    rocket: Rocket<Ignite, Site>,
    listener: ListListener,
) -> Result<(String, Rocket<Ignite, Site>), CaseError>
    requires fresh { IsFresh (listener_meaning listener) }
{
    let over = launched(rt, alloc, rocket, listener)?;
    match events_text(alloc, &over.history) {
        Ok(events) => Ok((events, rocket_of(over))),
        Err(_) => {
            drop(over);
            Err(CaseError::NoMemory)
        }
    }
}

fn both(alloc: Global, first: &str, again: &str) -> Result<String, CaseError> {
    Ok(format!(in alloc; "{first}; again {again}")?)
}

/// Launches a rocket: what happened.
fn launched_last<R: Wait + Threads>(
    rt: &R,
    alloc: Global,
    rocket: Rocket<Ignite, Site>,
    listener: ListListener,
) -> Result<String, CaseError>
    requires fresh { IsFresh (listener_meaning listener) }
{
    let over = launched(rt, alloc, rocket, listener)?;
    let events = events_text(alloc, &over.history);
    drop(over);
    Ok(events?)
}

/// Launches a rocket, and then the one that comes back.
fn launched_twice<R: Wait + Threads>(
    rt: &R,
    alloc: Global,
    rocket: Rocket<Ignite, Site>,
    first: ListListener,
    again: ListListener,
) -> Result<String, CaseError>
    requires first { IsFresh (listener_meaning first) }
    requires again { IsFresh (listener_meaning again) }
{
    let (first, rocket) = launched_once(rt, alloc, rocket, first)?;
    let again = launched_last(rt, alloc, rocket, again)?;
    both(alloc, first.as_str(), again.as_str())
}

/// The events of a launch of `POLLS LINK | LINK ..`, and of a second one of the rocket that comes back.
pub fn order<R: Wait + Threads>(
    rt: &R,
    alloc: Global,
    setting: &Setting,
    text: &str,
) -> Result<String, CaseError> {
    let first = listener(alloc, setting, text)?;
    let again = listener(alloc, setting, text)?;
    let rocket = rocket(alloc, setting)?;
    launched_twice(rt, alloc, rocket, first, again)
}
