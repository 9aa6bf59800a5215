//! One exchange.
ghost use Rattle.std.specs.Prelude.{IfNone, IsSome};

use crate::app::Site;
use crate::asked::{Asked, When, body_of};
use crate::owned::no_memory;
use crate::shown::push_ended;
use crate::source::Paused;
use cases::CaseError;
use rkt_base::{NoMemory, Poll};
use rkt_data::Gate;
use rkt_exchange::{Ended, Exchange, Tables};
use rkt_request::{Body0, Head, Incoming, Request};
use rkt_turn::{Shutdown, TripWire};
use sample_app::{Stopped, gate_at};
use std::alloc::Global;

/// The most polls that a case has.
const POLLS: u64 = 9;

fn handle(alloc: Global) -> Result<Shutdown<Stopped>, NoMemory> {
    let (_wire, shutdown) = TripWire::<Stopped>::new(alloc)?;
    Ok(shutdown)
}

/// One poll. Where it is Pending, there may be another.
fn polled(exchange: &mut Exchange<'_, Site>, gate: Gate) -> Option<Ended<Site>>
    requires going { IsSome exchange.old.phase }
    ensures { IfNone result (IsSome exchange.new.phase) }
{
    match exchange.poll(gate) {
        Poll::Ready(ended) => Some(ended),
        Poll::Pending => None,
    }
}

/// Adds its end.
fn push_end(
    alloc: Global,
    polls: u64,
    mut ended: Ended<Site>,
    when: When,
    out: &mut String,
) -> Result<(), CaseError> {
    let pushed = push_ended(alloc, polls, &mut ended, when, out);
    drop(ended);
    pushed
}

/// Polls it until it ends, each time a second behind the one before, and adds its end. One that takes too many polls makes
/// no case.
fn drive(
    alloc: Global,
    exchange: &mut Exchange<'_, Site>,
    when: When,
    out: &mut String,
) -> Result<(), CaseError>
    requires going { IsSome exchange.old.phase }
{
    for before in 0..POLLS {
        let gate = gate_at(when.moment.saturating_add(before));
        if let Some(ended) = polled(exchange, gate) {
            return push_end(alloc, before + 1, ended, when, out);
        }
    }
    Err(CaseError::Line)
}

fn push_exchange(
    alloc: Global,
    tables: &Tables<Site>,
    incoming: Incoming<'_, Site>,
    body: Body0<Site>,
    shutdown: Shutdown<Stopped>,
    when: When,
    out: &mut String,
) -> Result<(), CaseError> {
    let gate = gate_at(when.moment);
    let mut exchange = Exchange::<Site>::new(alloc, tables, incoming, body, shutdown, gate);
    let driven = drive(alloc, &mut exchange, when, out);
    drop(exchange);
    driven
}

fn push_incoming(
    alloc: Global,
    tables: &Tables<Site>,
    incoming: Incoming<'_, Site>,
    body: Body0<Site>,
    when: When,
    out: &mut String,
) -> Result<(), CaseError> {
    match handle(alloc) {
        Ok(shutdown) => push_exchange(alloc, tables, incoming, body, shutdown, when, out),
        Err(_) => {
            drop(incoming);
            no_memory(body)
        }
    }
}

fn push_head(
    alloc: Global,
    tables: &Tables<Site>,
    head: &Head,
    body: Body0<Site>,
    when: When,
    out: &mut String,
) -> Result<(), CaseError> {
    match Request::from_incoming(alloc, head, &tables.config, &tables.managed) {
        Ok(incoming) => push_incoming(alloc, tables, incoming, body, when, out),
        Err(_) => no_memory(body),
    }
}

fn push_source(
    alloc: Global,
    tables: &Tables<Site>,
    head: &Head,
    source: Paused,
    when: When,
    out: &mut String,
) -> Result<(), CaseError> {
    let body = body_of(alloc, source)?;
    push_head(alloc, tables, head, body, when, out)
}

/// Adds what an exchange answers.
pub fn answer(
    alloc: Global,
    tables: &Tables<Site>,
    asked: Asked,
    out: &mut String,
) -> Result<(), CaseError> {
    let when = asked.when;
    let (head, source) = asked.parts();
    push_source(alloc, tables, &head, source, when, out)
}
