//! What is called of a rocket in orbit, as text.
use crate::orbit::actor::OrbitActor;
use crate::orbit::rocket::Orbit;
use rkt_base::NoMemory;
use rkt_fairing::{Callback, Called, Fairings, Slot};

fn called_text(called: Called) -> &'static str {
    match called {
        Called::Done => "done",
        Called::FailedTurn => "failed",
        Called::Starved => "starved",
    }
}

fn push_called(out: &mut String, called: Called) -> Result<(), NoMemory> {
    write!(out, " {}", called_text(called))
}

/// Adds how calls ended.
pub fn push_calls(out: &mut String, calls: &[Called]) -> Result<(), NoMemory> {
    write!(out, "{} calls", calls.len())?;
    for called in calls {
        push_called(out, *called)?;
    }
    Ok(())
}

// How often it was polled; a shield is not polled.
fn push_polled(out: &mut String, slot: Option<&Slot<OrbitActor>>) -> Result<(), NoMemory> {
    match slot {
        Some(Slot::App(actor)) => write!(out, " {}", actor.polled()),
        _ => out.push_str(" -"),
    }
}

fn push_all_polled(out: &mut String, fairings: &Fairings<OrbitActor>) -> Result<(), NoMemory> {
    out.push_str("; polled")?;
    for n in 0..fairings.count(Callback::Liftoff) {
        push_polled(out, fairings.get(Callback::Liftoff, n))?;
    }
    Ok(())
}

/// Adds how often each fairing was polled at liftoff, and the word that the handle has seen.
pub fn push_lifted(out: &mut String, orbit: &Orbit) -> Result<(), NoMemory> {
    push_all_polled(out, orbit.fairings())?;
    write!(out, "; seen {}", orbit.seen())
}

/// Adds how many are called.
pub fn push_counts(out: &mut String, fairings: &Fairings<OrbitActor>) -> Result<(), NoMemory> {
    let liftoff = fairings.count(Callback::Liftoff);
    let shutdown = fairings.count(Callback::Shutdown);
    write!(out, "liftoff {liftoff} shutdown {shutdown}")
}
