//! How the application's fairings are called.
ghost use Rattle.std.specs.Prelude.{◌≡◌};
ghost use Rattle.rkt_request.specs.Lent.{MayGrow};
ghost use Rattle.cases_exchange.specs.Pages.{IsLast};

use crate::acts::{add_cookie, cache, notify};
use crate::app::Site;
use crate::changer::{Changer, Does};
use cases::cut;
use rkt_base::NoMemory;
use rkt_data::{Data, MemorySource};
use rkt_fairing::{Fairing, Quiet, RequestCallback, ResponseCallback};
use rkt_http::{Header, Origin, Status};
use rkt_request::{Body0, Ctx, Request};
use rkt_response::Response;
use rkt_router::Step;
use std::alloc::Global;

/// Stands for how a fairing is called: it is Pending as often as it says, and then makes its change.
#[derive(Clone, Copy, Drop)]
pub struct InTurns;

impl Fairing<Site> for Changer {
    type Ignites = Quiet;

    type Lifts = Quiet;

    type Requests = InTurns;

    type Responses = InTurns;

    type Shuts = Quiet;
}

/// What a change comes to.
fn step(made: Result<(), NoMemory>) -> Step<()>
    ensures { IsLast result }
{
    match made {
        Ok(()) => Step::Done(()),
        Err(_) => Step::Starved,
    }
}

/// Changes what is lent beside a request and a response.
fn change_lent(alloc: Global, changer: &Changer, ctx: &mut Ctx<Site>) -> Result<(), NoMemory>
    ensures grows { MayGrow ctx.old ctx.new }
{
    match changer.does {
        Does::Cookie => add_cookie(alloc, changer.text.as_str(), ctx),
        Does::Caches => cache(ctx),
        Does::Notifies => notify(ctx),
        _ => Ok(()),
    }
}

/// Gives a request another URI, if the text is one.
fn move_to(alloc: Global, text: &str, request: &mut Request<'_, Site>) -> Result<(), NoMemory>
    ensures config { request.new.config ≡ request.old.config }
    ensures managed { request.new.managed ≡ request.old.managed }
{
    if let Ok(uri) = Origin::parse(alloc, text) {
        request.set_uri(uri);
    }
    Ok(())
}

fn add_header(alloc: Global, text: &str, request: &mut Request<'_, Site>) -> Result<(), NoMemory>
    ensures config { request.new.config ≡ request.old.config }
    ensures managed { request.new.managed ≡ request.old.managed }
{
    let (name, value) = cut(text, ": ");
    let header = Header::new(alloc, name, value)?;
    request.add_header(header)
}

fn change_request(
    alloc: Global,
    changer: &Changer,
    request: &mut Request<'_, Site>,
) -> Result<(), NoMemory>
    ensures config { request.new.config ≡ request.old.config }
    ensures managed { request.new.managed ≡ request.old.managed }
{
    match changer.does {
        Does::Method(method) => {
            request.set_method(method);
            Ok(())
        }
        Does::Uri => move_to(alloc, changer.text.as_str(), request),
        Does::Header => add_header(alloc, changer.text.as_str(), request),
        _ => Ok(()),
    }
}

fn change_body(alloc: Global, text: &str, body: &mut Body0<Site>) -> Result<(), NoMemory> {
    let bytes = text.as_bytes().to_vec(alloc)?;
    *body = Data::local(bytes);
    Ok(())
}

fn ask(
    alloc: Global,
    changer: &Changer,
    request: &mut Request<'_, Site>,
    body: &mut Body0<Site>,
    ctx: &mut Ctx<Site>,
) -> Step<()>
    ensures last { IsLast result }
    ensures config { request.new.config ≡ request.old.config }
    ensures managed { request.new.managed ≡ request.old.managed }
    ensures grows { MayGrow ctx.old ctx.new }
{
    match changer.does {
        Does::Method(_) | Does::Uri | Does::Header => {
            step(change_request(alloc, changer, request))
        }
        Does::Body => step(change_body(alloc, changer.text.as_str(), body)),
        Does::Faults => Step::Fault,
        _ => step(change_lent(alloc, changer, ctx)),
    }
}

impl RequestCallback<Site, Changer> for InTurns {
    ghost use Rattle.cases_exchange.specs.Changers.{asking, asking_keeps};

    type Task = u32;

    ghost calling = { asking };

    fn start(_changer: &Changer) -> u32 {
        0
    }

    fn poll(
        changer: &Changer,
        alloc: Global,
        task: &mut u32,
        request: &mut Request<'_, Site>,
        body: &mut Body0<Site>,
        ctx: &mut Ctx<Site>,
    ) -> Step<()> {
        if *task < changer.waits {
            *task += 1;
            return Step::Pending;
        }
        ask(alloc, changer, request, body, ctx)
    }

    ghost keeps = { asking_keeps };
}

fn push_seen(
    request: &Request<'_, Site>,
    response: &Response<MemorySource>,
    moment: u64,
    out: &mut String,
) -> Result<(), NoMemory> {
    write!(out, "{} at {moment}", request.method().as_str())?;
    for (name, _) in response.headers().iter() {
        write!(out, ", {name}")?;
    }
    Ok(())
}

fn tell_seen(
    alloc: Global,
    request: &Request<'_, Site>,
    response: &mut Response<MemorySource>,
    moment: u64,
) -> Result<(), NoMemory> {
    let mut text = String::new(alloc);
    push_seen(request, response, moment, &mut text)?;
    response.adjoin_raw_header("X-Seen", text.as_str())
}

fn put_body(
    alloc: Global,
    text: &str,
    response: &mut Response<MemorySource>,
) -> Result<(), NoMemory> {
    let bytes = text.as_bytes().to_vec(alloc)?;
    response.set_sized_body(None, bytes);
    Ok(())
}

fn adjoin(text: &str, response: &mut Response<MemorySource>) -> Result<(), NoMemory> {
    let (name, value) = cut(text, ": ");
    response.adjoin_raw_header(name, value)
}

fn change_response(
    alloc: Global,
    changer: &Changer,
    response: &mut Response<MemorySource>,
) -> Result<(), NoMemory> {
    match changer.does {
        Does::Status(code) => {
            response.set_status(Status::new(code));
            Ok(())
        }
        Does::Header => adjoin(changer.text.as_str(), response),
        Does::Body => put_body(alloc, changer.text.as_str(), response),
        _ => Ok(()),
    }
}

fn respond(
    alloc: Global,
    changer: &Changer,
    request: &Request<'_, Site>,
    response: &mut Response<MemorySource>,
    ctx: &mut Ctx<Site>,
) -> Step<()>
    ensures last { IsLast result }
    ensures grows { MayGrow ctx.old ctx.new }
{
    match changer.does {
        Does::Status(_) | Does::Header | Does::Body => {
            step(change_response(alloc, changer, response))
        }
        Does::Sees => step(tell_seen(alloc, request, response, ctx.gate().moment)),
        Does::Faults => Step::Fault,
        _ => step(change_lent(alloc, changer, ctx)),
    }
}

impl ResponseCallback<Site, Changer> for InTurns {
    ghost use Rattle.cases_exchange.specs.Changers.{responding, responding_keeps};

    type Task = u32;

    ghost calling = { responding };

    fn start(_changer: &Changer, _request: &Request<'_, Site>) -> u32 {
        0
    }

    fn poll(
        changer: &Changer,
        alloc: Global,
        task: &mut u32,
        request: &Request<'_, Site>,
        response: &mut Response<MemorySource>,
        ctx: &mut Ctx<Site>,
    ) -> Step<()> {
        if *task < changer.waits {
            *task += 1;
            return Step::Pending;
        }
        respond(alloc, changer, request, response, ctx)
    }

    ghost keeps = { responding_keeps };
}
