use crate::ad_hoc::ad_hoc_answer;
use crate::build::{
    Built, configure_answer, manage_answer, mount_answer, register_answer, text_answer,
};
use crate::kinds::{kinds_answer, read_event};
use crate::named::{Named, read_named};
use crate::shown::{push_active, push_audit, push_fairings};
use crate::turns::{ask_answer, respond_answer};
use cases::{Answers, CaseError, first_word, parsed, written};
use rkt_fairing::{Attach, BuildingOf, Callback, Fairings, Slot};
use rkt_request::ConfigTable;
use rkt_shield::Shield;
use std::alloc::Global;

/// What is kept from line to line.
#[derive(Drop)]
pub struct Kept {
    built: Built,
    others: Fairings<Named>,
}

impl Kept {
    pub fn new(alloc: Global) -> Kept {
        Kept {
            built: BuildingOf::new(alloc, ConfigTable::new(alloc)),
            others: Fairings::new(alloc),
        }
    }
}

fn read_slot(alloc: Global, text: &str) -> Result<Slot<Named>, CaseError> {
    if text == "shield" {
        return Ok(Slot::Shield(Shield::new(alloc)));
    }
    Ok(Slot::App(read_named(text)?))
}

fn attach_answer(
    alloc: Global,
    built: &mut Built,
    text: &str,
    out: &mut String,
) -> Result<(), CaseError> {
    built.attach(read_slot(alloc, text)?)?;
    Ok(push_fairings(out, &built.fairings)?)
}

fn other_answer(
    alloc: Global,
    others: &mut Fairings<Named>,
    text: &str,
    out: &mut String,
) -> Result<(), CaseError> {
    others.add(read_slot(alloc, text)?)?;
    Ok(push_fairings(out, others)?)
}

fn append_answer(kept: &mut Kept, out: &mut String) -> Result<(), CaseError> {
    kept.built.fairings.append(&mut kept.others)?;
    push_fairings(out, &kept.built.fairings)?;
    out.push_str(" others ")?;
    Ok(push_fairings(out, &kept.others)?)
}

fn at_answer(fairings: &Fairings<Named>, text: &str, out: &mut String) -> Result<(), CaseError> {
    let (event, place) = first_word(text);
    let event = read_event(event)?;
    let found = fairings.get(event, parsed::<usize>(place)?);
    let name = match found {
        Some(fairing) => fairing.info().name,
        None => "none",
    };
    Ok(write!(out, "{name} of {}", fairings.count(event))?)
}

/// Puts another fairing in place of one that is called at an event.
fn change_answer(
    alloc: Global,
    fairings: &mut Fairings<Named>,
    text: &str,
    out: &mut String,
) -> Result<(), CaseError> {
    let (event, rest) = first_word(text);
    let (place, other) = first_word(rest);
    let (event, place) = (read_event(event)?, parsed::<usize>(place)?);
    let other = read_slot(alloc, other)?;
    if !replace_at(fairings, event, place, other) {
        return Ok(out.push_str("none")?);
    }
    Ok(push_fairings(out, fairings)?)
}

/// Whether there was one to be replaced.
fn replace_at(
    fairings: &mut Fairings<Named>,
    event: Callback,
    place: usize,
    other: Slot<Named>,
) -> bool {
    match fairings.get_mut(event, place) {
        Some(slot) => {
            *slot = other;
            true
        }
        None => false,
    }
}

/// Adds the name of the next one that is called at ignition.
fn ignite_answer(fairings: &mut Fairings<Named>, out: &mut String) -> Result<(), CaseError> {
    let name = match fairings.next_ignite() {
        Some(slot) => slot.info().name,
        None => "none",
    };
    Ok(out.push_str(name)?)
}

/// Adds the answer to a line on the builder's list.
fn list_answer(
    alloc: Global,
    fairings: &mut Fairings<Named>,
    command: &str,
    rest: &str,
    out: &mut String,
) -> Result<(), CaseError> {
    match command {
        "audit" => written(push_audit(out, fairings)),
        "active" => written(push_active(out, fairings)),
        "at" => at_answer(fairings, rest, out),
        "change" => change_answer(alloc, fairings, rest, out),
        "ignite" => ignite_answer(fairings, out),
        _ => Err(CaseError::Line),
    }
}

/// Adds the answer to a line on fairings.
fn fairings_answer(
    alloc: Global,
    kept: &mut Kept,
    command: &str,
    rest: &str,
    out: &mut String,
) -> Result<(), CaseError> {
    match command {
        "attach" => attach_answer(alloc, &mut kept.built, rest, out),
        "other" => other_answer(alloc, &mut kept.others, rest, out),
        "append" => append_answer(kept, out),
        _ => list_answer(alloc, &mut kept.built.fairings, command, rest, out),
    }
}

/// Adds the answer to a line on what is built.
fn build_answer(
    alloc: Global,
    kept: &mut Kept,
    command: &str,
    rest: &str,
    out: &mut String,
) -> Result<(), CaseError> {
    match command {
        "mount" => mount_answer(alloc, &mut kept.built, rest, out),
        "register" => register_answer(alloc, &mut kept.built, rest, out),
        "manage" => manage_answer(&mut kept.built, rest, out),
        "configure" => configure_answer(alloc, &mut kept.built, rest, out),
        "text" => text_answer(&kept.built, rest, out),
        _ => fairings_answer(alloc, kept, command, rest, out),
    }
}

/// From here on nothing is built any more.
fn new_answer(alloc: Global, kept: &mut Kept, out: &mut String) -> Result<(), CaseError> {
    *kept = Kept::new(alloc);
    written(out.push_str("new"))
}

/// Adds the answer to a line on kinds, or on what is kept.
fn kept_answer(
    alloc: Global,
    kept: &mut Kept,
    command: &str,
    rest: &str,
    out: &mut String,
) -> Result<(), CaseError> {
    match command {
        "kind" | "is" | "is_exactly" => kinds_answer(command, rest, out),
        "build" => new_answer(alloc, kept, out),
        _ => build_answer(alloc, kept, command, rest, out),
    }
}

impl Answers for Kept {
    fn answer(&mut self, alloc: Global, line: &str, out: &mut String) -> Result<(), CaseError> {
        let (command, rest) = first_word(line);
        match command {
            "adhoc" => ad_hoc_answer(alloc, rest, out),
            "ask" => ask_answer(alloc, rest, out),
            "respond" => respond_answer(alloc, rest, out),
            _ => kept_answer(alloc, self, command, rest, out),
        }
    }
}
