use crate::actor::{Actor, Acts};
use crate::build::{Built, attach_answer, catch_answer, configure_answer, route_answer};
use crate::orbit::{Orbit, orbit_answer};
use crate::sentries::query_answer;
use crate::shown::{push_error, push_ignited};
use crate::site::Site;
use cases::{Answers, CaseError, first_word};
use rkt_base::{NoMemory, Want};
use rkt_fairing::BuildingOf;
use rkt_ignition::ignite;
use rkt_request::ConfigTable;
use std::alloc::Global;
use std::mem::replace;

/// What is kept from line to line.
#[derive(Drop)]
pub struct Kept {
    built: Built,
    orbit: Orbit,
}

fn new_building(alloc: Global) -> Built {
    BuildingOf::new(alloc, ConfigTable::new(alloc))
}

impl Kept {
    pub fn new(alloc: Global) -> Result<Kept, NoMemory> {
        Ok(Kept {
            orbit: Orbit::with_default(alloc)?,
            built: new_building(alloc),
        })
    }
}

/// Ignites what was built, and adds what comes of it.
fn ignite_answer(alloc: Global, built: Built, out: &mut String) -> Result<(), CaseError> {
    match ignite::<Site, Actor, Acts>(alloc, built) {
        Ok(parts) => Ok(push_ignited(out, &parts)?),
        Err(Want::Refused(error)) => Ok(push_error(out, &error)?),
        Err(Want::NoMemory) => Err(CaseError::NoMemory),
    }
}

impl Answers for Kept {
    fn answer(&mut self, alloc: Global, line: &str, out: &mut String) -> Result<(), CaseError> {
        let (command, rest) = first_word(line);
        match command {
            "attach" => attach_answer(&mut self.built, rest, false, out),
            "single" => attach_answer(&mut self.built, rest, true, out),
            "configure" => configure_answer(alloc, &mut self.built, rest, out),
            "route" => route_answer(alloc, &mut self.built, rest, out),
            "catch" => catch_answer(alloc, &mut self.built, rest, out),
            "query" => query_answer(alloc, rest, out),
            "orbit" => orbit_answer(alloc, &mut self.orbit, rest, out),
            "ignite" => {
                let built = replace(&mut self.built, new_building(alloc));
                ignite_answer(alloc, built, out)
            }
            _ => Err(CaseError::Line),
        }
    }
}
