//! What lines of a rocket in orbit are answered with.
use crate::orbit::actor::{OrbitActor, read_orbit_actor};
use crate::orbit::rocket::{Orbit, read_orbit};
use crate::orbit::shown::{push_calls, push_counts, push_lifted};
use cases::{CaseError, first_word};
use rkt_fairing::Slot;
use rkt_shield::Shield;
use std::alloc::Global;

fn attach_answer(
    orbit: &mut Orbit,
    slot: Slot<OrbitActor>,
    out: &mut String,
) -> Result<(), CaseError> {
    orbit.attach(slot)?;
    Ok(push_counts(out, orbit.fairings())?)
}

fn liftoff_answer(alloc: Global, orbit: &mut Orbit, out: &mut String) -> Result<(), CaseError> {
    let calls = orbit.lift(alloc)?;
    push_calls(out, calls.as_slice())?;
    Ok(push_lifted(out, orbit)?)
}

fn down_answer(alloc: Global, orbit: &Orbit, out: &mut String) -> Result<(), CaseError> {
    let calls = orbit.shut(alloc)?;
    Ok(push_calls(out, calls.as_slice())?)
}

/// Adds what a line is answered with.
pub fn orbit_answer(
    alloc: Global,
    orbit: &mut Orbit,
    line: &str,
    out: &mut String,
) -> Result<(), CaseError> {
    let (command, rest) = first_word(line);
    match command {
        "new" => {
            *orbit = read_orbit(alloc, rest)?;
            Ok(out.push_str("done")?)
        }
        "attach" => attach_answer(orbit, Slot::App(read_orbit_actor(rest)?), out),
        "shield" => attach_answer(orbit, Slot::Shield(Shield::new(alloc)), out),
        "liftoff" => liftoff_answer(alloc, orbit, out),
        "down" => down_answer(alloc, orbit, out),
        _ => Err(CaseError::Line),
    }
}
