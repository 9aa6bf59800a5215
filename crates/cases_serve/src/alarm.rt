//! Launches whose wire is notified from outside.
ghost use Rattle.rkt_link.specs.Listener.{IsFresh};
ghost use Rattle.rkt_link.specs.Memory.{listener_meaning};

use crate::app::{Site, Stopped, rocket};
use crate::built::count_links;
use crate::launch::listener;
use crate::order::events_text;
use crate::setting::Setting;
use cases::{CaseError, first_word, numbers, parsed};
use rkt_base::{NoMemory, Poll};
use rkt_life::{Ignite, Rocket};
use rkt_serve::{
    Accepted, Clock, Error, Launch, Launched, LaunchedOf, ListClock, ListListener, Listener,
    MemoryLink,
};
use rkt_turn::Shutdown;
use std::alloc::Global;
use std::sync::Wait;
use std::thread::Threads;

/// A clock that notifies the wire where it tells this moment or a later one.
#[derive(Drop)]
pub struct AlarmClock {
    clock: ListClock,
    at: u64,
    handle: Shutdown<Stopped>,
}

impl Clock for AlarmClock {
    ghost use Rattle.rkt_link.specs.Memory.{clock_meaning};

    ghost meaning = { λ alarm. clock_meaning alarm.clock };

    fn now(&mut self) -> u64 {
        let moment = self.clock.now();
        if self.at <= moment {
            self.handle.notify(Stopped);
        }
        moment
    }
}

/// A listener that notifies the wire in each poll that is Pending.
#[derive(Drop)]
pub struct Bell {
    listener: ListListener,
    handle: Shutdown<Stopped>,
}

impl Listener for Bell {
    ghost use Rattle.rkt_link.specs.Memory.{listener_meaning};

    type Link = MemoryLink;

    ghost meaning = { λ bell. listener_meaning bell.listener };

    fn poll_accept(&mut self) -> Poll<Accepted<MemoryLink>> {
        let polled = self.listener.poll_accept();
        if matches!(polled, Poll::Pending) {
            self.handle.notify(Stopped);
        }
        polled
    }
}

type Over = Launched<Site, Bell, AlarmClock>;

/// Want of memory, which is what is left of the errors of a rocket that has ignited.
fn refused(error: Error<Site, Bell, AlarmClock>) -> CaseError {
    let _text = error.pretty_print();
    CaseError::NoMemory
}

fn launched<R: Wait + Threads>(
    rt: &R,
    alloc: Global,
    rocket: Rocket<Ignite, Site>,
    bell: Bell,
    alarm: AlarmClock,
) -> Result<Over, CaseError>
    requires fresh { IsFresh (listener_meaning bell.listener) }
{
    match rocket.launch(rt, alloc, bell, alarm, 0) {
        Ok(launched) => Ok(launched),
        Err(error) => Err(refused(error)),
    }
}

/// Two handles of a rocket's wire.
fn handles(
    rocket: &mut Rocket<Ignite, Site>,
) -> Result<(Shutdown<Stopped>, Shutdown<Stopped>), NoMemory> {
    let mut handle = rocket.shutdown()?;
    let other = handle.split()?;
    Ok((handle, other))
}

fn launched_with<R: Wait + Threads>(
    rt: &R,
    alloc: Global,
    mut rocket: Rocket<Ignite, Site>,
    listener: ListListener,
    clock: ListClock,
    at: u64,
) -> Result<Over, CaseError>
    requires fresh { IsFresh (listener_meaning listener) }
{
    let Ok((handle, other)) = handles(&mut rocket) else {
        drop(rocket);
        return Err(CaseError::NoMemory);
    };
    let bell = Bell { listener, handle };
    let alarm = AlarmClock {
        clock,
        at,
        handle: other,
    };
    launched(rt, alloc, rocket, bell, alarm)
}

fn links_left(over: Over) -> usize {
    let LaunchedOf {
        rocket,
        listener,
        clock,
        history,
    } = over;
    drop(rocket);
    drop(clock);
    drop(history);
    let Bell { listener, handle } = listener;
    drop(handle);
    count_links(listener)
}

fn over_text(alloc: Global, over: Over) -> Result<String, CaseError> {
    let events = events_text(alloc, &over.history);
    let left = links_left(over);
    Ok(format!(in alloc; "{}; {left} links left", events?)?)
}

/// The events of a launch of `MOMENT MOMENTS POLLS LINK | LINK ..`, and how many links are left.
pub fn alarm<R: Wait + Threads>(
    rt: &R,
    alloc: Global,
    setting: &Setting,
    text: &str,
) -> Result<String, CaseError> {
    let (at, rest) = first_word(text);
    let (moments, rest) = first_word(rest);
    let at = parsed::<u64>(at)?;
    let clock = ListClock::new(numbers(alloc, moments)?);
    let listener = listener(alloc, setting, rest)?;
    let rocket = rocket(alloc, setting)?;
    let over = launched_with(rt, alloc, rocket, listener, clock, at)?;
    over_text(alloc, over)
}
