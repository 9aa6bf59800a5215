//! What a fairing does at ignition.
use crate::actor::{Actor, read_name};
use crate::site::Site;
use cases::{CaseError, first_word, parsed};
use rkt_base::NoMemory;
use rkt_fairing::{Building, Slot};
use rkt_request::ConfigTable;
use std::alloc::Global;

/// What a fairing does at ignition.
#[derive(Clone, Copy, Debug, Drop)]
pub enum Act {
    Done,
    Refuse,
    Fault,
    Starve,
    Pend(u32),
    Again,
    Attach(&'static str, u32, bool),
    Name(u32),
    Turns(u32),
}

/// What an act that attaches one is handed.
fn read_attach(text: &str, singleton: bool) -> Result<Act, CaseError> {
    let (name, key) = first_word(text);
    Ok(Act::Attach(read_name(name)?, parsed::<u32>(key)?, singleton))
}

fn read_plain(text: &str) -> Result<Act, CaseError> {
    match text {
        "done" => Ok(Act::Done),
        "refuse" => Ok(Act::Refuse),
        "fault" => Ok(Act::Fault),
        "starve" => Ok(Act::Starve),
        "again" => Ok(Act::Again),
        _ => Err(CaseError::Line),
    }
}

/// The act that a line says.
pub fn read_act(text: &str) -> Result<Act, CaseError> {
    let (name, rest) = first_word(text);
    match name {
        "pend" => Ok(Act::Pend(parsed::<u32>(rest)?)),
        "attach" => read_attach(rest, false),
        "single" => read_attach(rest, true),
        "name" => Ok(Act::Name(parsed::<u32>(rest)?)),
        "turns" => Ok(Act::Turns(parsed::<u32>(rest)?)),
        _ => read_plain(text),
    }
}

type SiteBuilding = Building<Site, Actor>;

fn set_number(
    alloc: Global,
    building: &mut SiteBuilding,
    name: &str,
    number: u32,
) -> Result<(), NoMemory> {
    let text = format!(in alloc; "{number}")?;
    let mut table = ConfigTable::new(alloc);
    table.set(name, text.as_str())?;
    building.configure(table);
    Ok(())
}

/// How an act ends.
#[derive(Clone, Copy, Debug, Drop)]
pub enum Ending {
    Done,
    Refused,
    Fault,
    Starved,
}

fn ending_of(made: Result<(), NoMemory>) -> Ending {
    match made {
        Ok(()) => Ending::Done,
        Err(_) => Ending::Starved,
    }
}

/// The change of the builder that an act makes.
fn change(alloc: Global, actor: &Actor, building: &mut SiteBuilding) -> Result<(), NoMemory> {
    match actor.act() {
        Act::Again => building.attach(Slot::App(actor.again())),
        Act::Attach(name, key, singleton) => {
            building.attach(Slot::App(Actor::new(name, key, singleton, Act::Done)))
        }
        Act::Name(number) => set_number(alloc, building, "ident", number),
        Act::Turns(number) => set_number(alloc, building, "turns", number),
        _ => Ok(()),
    }
}

/// What an act does once it is not Pending any more.
pub fn act_once(alloc: Global, actor: &Actor, building: &mut SiteBuilding) -> Ending {
    match actor.act() {
        Act::Refuse => Ending::Refused,
        Act::Fault => Ending::Fault,
        Act::Starve => Ending::Starved,
        _ => ending_of(change(alloc, actor, building)),
    }
}
