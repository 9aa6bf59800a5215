//! One exchange.
ghost use Rattle.std.specs.Prelude.{IsSome};

use crate::app::{Site, Stopped, rocket};
use crate::heads::head_of;
use crate::setting::Setting;
use cases::{CaseError, first_word, parsed, push_item};
use rkt_base::{NoMemory, Poll};
use rkt_cookie::{Cookie, CookieJar};
use rkt_data::{CancellableIo, Data, Gate, MemorySource};
use rkt_http::Key;
use rkt_life::{Ended, EndedOf, Exchange, Ignite, Orbit, Rocket, Run, Tables};
use rkt_message::Response;
use rkt_request::{Body0, Head, Incoming, Request};
use rkt_turn::Shutdown;
use std::alloc::{AllocError, Global};

fn gate(moment: u64) -> Gate {
    Gate {
        moment,
        tripped: None,
        grace: 2,
        mercy: 3,
    }
}

fn push_cookie(alloc: Global, list: &mut String, cookie: &Cookie) -> Result<(), AllocError> {
    let text = format!(in alloc; "{}={}", cookie.name(), cookie.value())?;
    push_item(list, text.as_str())
}

/// The cookies that came.
pub fn cookies(alloc: Global, jar: &CookieJar) -> Result<String, AllocError> {
    let mut list = String::new(alloc);
    for cookie in jar.iter() {
        push_cookie(alloc, &mut list, cookie)?;
    }
    Ok(list)
}

/// Adds the status, the content type and the server of a response, and the size of its body.
fn push_answered(response: &mut Response<MemorySource>, text: &mut String) -> Result<(), NoMemory> {
    let size = response.body_mut().size().unwrap_or(0);
    let media = response.headers().get_one("Content-Type").unwrap_or("-");
    let server = response.headers().get_one("Server").unwrap_or("-");
    let code = response.status().code;
    write!(text, "{code} {media}, {size} bytes, by {server}")
}

/// Adds how much a run did, with the cookies of its jar.
fn push_counts(run: &Run<Site>, cookies: &str, text: &mut String) -> Result<(), NoMemory> {
    let (calls, cached, moment) = (run.calls.len(), run.cache.len(), run.moment);
    write!(
        text,
        "; {calls} calls, cookies [{cookies}], {cached} cached, at {moment}"
    )
}

/// Adds what a run did.
fn push_done(alloc: Global, run: &Run<Site>, text: &mut String) -> Result<(), NoMemory> {
    let cookies = cookies(alloc, &run.jar)?;
    push_counts(run, cookies.as_str(), text)
}

fn told(
    alloc: Global,
    run: &Run<Site>,
    response: &mut Response<MemorySource>,
) -> Result<String, CaseError> {
    let mut text = String::new(alloc);
    push_answered(response, &mut text)?;
    push_done(alloc, run, &mut text)?;
    Ok(text)
}

fn shown(
    alloc: Global,
    run: &Run<Site>,
    mut response: Response<MemorySource>,
) -> Result<String, CaseError> {
    let text = told(alloc, run, &mut response);
    drop(response);
    text
}

fn no_body(alloc: Global) -> Result<Body0<Site>, NoMemory> {
    let source = MemorySource::new(Vec::new(alloc), 0, Vec::new(alloc));
    Data::from_source(alloc, CancellableIo::new(source))
}

/// The end of an exchange that waits for nothing.
fn polled(exchange: &mut Exchange<'_, Site>, moment: u64) -> Option<Ended<Site>>
    requires going { IsSome exchange.old.phase }
{
    match exchange.poll(gate(moment)) {
        Poll::Ready(ended) => Some(ended),
        Poll::Pending => None,
    }
}

fn run_exchange(
    alloc: Global,
    tables: &Tables<Site>,
    incoming: Incoming<'_, Site>,
    body: Body0<Site>,
    shutdown: Shutdown<Stopped>,
    moment: u64,
) -> Option<Ended<Site>> {
    let mut exchange = Exchange::new(alloc, tables, incoming, body, shutdown, gate(moment));
    let ended = polled(&mut exchange, moment);
    drop(exchange);
    ended
}

fn dispatched(
    alloc: Global,
    tables: &Tables<Site>,
    head: &Head,
    shutdown: Shutdown<Stopped>,
    moment: u64,
) -> Result<Option<Ended<Site>>, NoMemory> {
    let body = no_body(alloc)?;
    let incoming = Request::from_incoming(alloc, head, &tables.config, &tables.managed)?;
    Ok(run_exchange(alloc, tables, incoming, body, shutdown, moment))
}

fn ended(alloc: Global, ended: Option<Ended<Site>>) -> Result<String, CaseError> {
    match ended {
        Some(EndedOf::Finished { run, response, .. }) => shown(alloc, &run, response),
        Some(EndedOf::Starved { .. }) => Err(CaseError::NoMemory),
        None => Err(CaseError::Line),
    }
}

fn handle(rocket: &mut Rocket<Ignite, Site>) -> Result<Shutdown<Stopped>, NoMemory> {
    rocket.shutdown()
}

fn exchanged(
    alloc: Global,
    rocket: &mut Rocket<Ignite, Site>,
    head: &Head,
    moment: u64,
) -> Result<String, CaseError> {
    let shutdown = handle(rocket)?;
    let end = dispatched(alloc, rocket.tables(), head, shutdown, moment)?;
    ended(alloc, end)
}

/// The exchange of `MOMENT METHOD TARGET`.
pub fn exchange(alloc: Global, setting: &Setting, text: &str) -> Result<String, CaseError> {
    let (moment, asked) = first_word(text);
    let moment = parsed::<u64>(moment)?;
    let head = head_of(alloc, setting, asked)?;
    let mut rocket = rocket(alloc, setting)?;
    let text = exchanged(alloc, &mut rocket, &head, moment);
    drop(rocket);
    text
}

/// A rocket that was taken apart and put together.
fn put_together(rocket: Rocket<Ignite, Site>) -> Rocket<Orbit, Site> {
    let (tables, table, handle) = rocket.into_orbit().into_parts();
    Rocket::<Orbit, Site>::from_parts(tables, table, handle)
}

/// How many routes it has then, and whether it has a managed value.
fn counted(rocket: Rocket<Ignite, Site>) -> (usize, bool) {
    let rocket = put_together(rocket);
    let routes = rocket.tables().router.routes().len();
    let managed = rocket.tables().managed.get(Key(0)).is_some();
    drop(rocket);
    (routes, managed)
}

/// How many routes a rocket has that was taken apart and put together, and whether it has a managed value.
pub fn parted(alloc: Global, setting: &Setting) -> Result<String, CaseError> {
    let (routes, managed) = counted(rocket(alloc, setting)?);
    Ok(format!(in alloc; "{routes} routes, managed {managed}")?)
}
