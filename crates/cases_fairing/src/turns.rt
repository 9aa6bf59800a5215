//! Turns of what is attached: by the bounds alone, of a shield with its policies by default, or of a fairing.
use crate::ad_hoc::{Orbit, handle};
use crate::named::{Named, read_called};
use crate::site::Site;
use cases::{CaseError, first_word, written};
use rkt_adhoc::{AtOnce, ChangesRequest, ChangesResponse};
use rkt_base::NoMemory;
use rkt_cookie::CookieJar;
use rkt_data::{Data, Gate, MemorySource};
use rkt_fairing::{InSlot, RequestCallback, ResponseCallback, Slot, turn_request, turn_response};
use rkt_http::{Method, Origin};
use rkt_request::{Body0, Ctx, Request, Types};
use rkt_response::Response;
use rkt_router::{Final, Polled};
use rkt_shield::Shield;
use std::alloc::Global;

const GATE: Gate = Gate {
    moment: 0,
    tripped: None,
    grace: 2,
    mercy: 3,
};

// It makes a PUT of each request.
impl ChangesRequest<Site> for Named {
    fn on_request(
        &self,
        _alloc: Global,
        request: &mut Request<'_, Site>,
        _body: &mut Body0<Site>,
        _ctx: &mut Ctx<Site>,
    ) -> Result<(), NoMemory> {
        request.set_method(Method::Put);
        Ok(())
    }
}

// It adds its name to each response.
impl ChangesResponse<Site> for Named {
    fn on_response(
        &self,
        _alloc: Global,
        _request: &Request<'_, Site>,
        response: &mut Response<MemorySource>,
        _ctx: &mut Ctx<Site>,
    ) -> Result<(), NoMemory> {
        response.adjoin_raw_header("X-Name", self.name())
    }
}

fn push_turn(out: &mut String, turn: Polled<()>) -> Result<(), NoMemory> {
    out.push_str(match turn {
        Polled::Pending => "pending",
        Polled::Over(Final::Done(())) => "done",
        Polled::Over(Final::FailedTurn) => "failed turn",
        Polled::Over(Final::Starved) => "starved",
    })
}

/// The one turn of a call for a request, by the bounds alone.
fn asked<T: Types, F, P: RequestCallback<T, F>>(
    alloc: Global,
    fairing: &F,
    request: &mut Request<'_, T>,
    body: &mut Body0<T>,
    ctx: &mut Ctx<T>,
) -> Polled<()> {
    let mut task = P::start(fairing);
    turn_request::<T, F, P>(alloc, fairing, 1, 0, &mut task, request, body, ctx)
}

/// The one turn of a call for a response, by the bounds alone.
fn responded<T: Types, F, Q: ResponseCallback<T, F>>(
    alloc: Global,
    fairing: &F,
    request: &Request<'_, T>,
    response: &mut Response<T::Stream>,
    ctx: &mut Ctx<T>,
) -> Polled<()> {
    let mut task = Q::start(fairing, request);
    turn_response::<T, F, Q>(alloc, fairing, 1, 0, &mut task, request, response, ctx)
}

fn read_called_slot(alloc: Global, text: &str) -> Result<Slot<Named>, CaseError> {
    if text == "shield" {
        return Ok(Slot::Shield(Shield::default(alloc)?));
    }
    Ok(Slot::App(read_called(text)?))
}

fn context(alloc: Global) -> Result<Ctx<Site>, NoMemory> {
    let shutdown = handle(alloc)?;
    Ok(Ctx::new(alloc, CookieJar::new(alloc), shutdown, GATE))
}

fn request(alloc: Global, orbit: &Orbit) -> Result<Request<'_, Site>, CaseError> {
    let uri = Origin::parse(alloc, "/")?;
    Ok(Request::new(alloc, &orbit.config, &orbit.managed, Method::Get, uri))
}

/// Adds the answer to a line on what is done to a request.
pub fn ask_answer(alloc: Global, text: &str, out: &mut String) -> Result<(), CaseError> {
    let slot = read_called_slot(alloc, text)?;
    ask(alloc, &slot, out)
}

fn ask(alloc: Global, slot: &Slot<Named>, out: &mut String) -> Result<(), CaseError> {
    let orbit = Orbit::new(alloc)?;
    ask_in(alloc, slot, &orbit, out)
}

fn ask_in(
    alloc: Global,
    slot: &Slot<Named>,
    orbit: &Orbit,
    out: &mut String,
) -> Result<(), CaseError> {
    let mut request = request(alloc, orbit)?;
    let asked = ask_for(alloc, slot, &mut request, out);
    drop(request);
    asked
}

fn ask_for(
    alloc: Global,
    slot: &Slot<Named>,
    request: &mut Request<'_, Site>,
    out: &mut String,
) -> Result<(), CaseError> {
    push_asked(alloc, slot, request, out)?;
    written(write!(out, " {}", request.method().as_str()))
}

fn push_asked(
    alloc: Global,
    slot: &Slot<Named>,
    request: &mut Request<'_, Site>,
    out: &mut String,
) -> Result<(), CaseError> {
    let mut ctx = context(alloc)?;
    let mut body = Data::local(Vec::new(alloc));
    let turn = asked::<Site, Slot<Named>, InSlot<AtOnce>>(
        alloc, slot, request, &mut body, &mut ctx,
    );
    written(push_turn(out, turn))
}

/// Adds the header that a line says, if any.
fn adjoin(response: &mut Response<MemorySource>, text: &str) -> Result<(), NoMemory> {
    if text.is_empty() {
        return Ok(());
    }
    let (name, value) = first_word(text);
    response.adjoin_raw_header(name, value)
}

fn push_headers(out: &mut String, response: &Response<MemorySource>) -> Result<(), NoMemory> {
    for (name, value) in response.headers().iter() {
        write!(out, " | {name}: {value}")?;
    }
    Ok(())
}

/// Adds the answer to a line on what is done to a response.
pub fn respond_answer(alloc: Global, text: &str, out: &mut String) -> Result<(), CaseError> {
    let (called, header) = first_word(text);
    let slot = read_called_slot(alloc, called)?;
    let mut response = Response::new(alloc);
    push_responded(alloc, &slot, header, &mut response, out)
}

fn push_responded(
    alloc: Global,
    slot: &Slot<Named>,
    header: &str,
    response: &mut Response<MemorySource>,
    out: &mut String,
) -> Result<(), CaseError> {
    adjoin(response, header)?;
    respond(alloc, slot, response, out)?;
    written(push_headers(out, response))
}

fn respond(
    alloc: Global,
    slot: &Slot<Named>,
    response: &mut Response<MemorySource>,
    out: &mut String,
) -> Result<(), CaseError> {
    let orbit = Orbit::new(alloc)?;
    respond_in(alloc, slot, &orbit, response, out)
}

fn respond_in(
    alloc: Global,
    slot: &Slot<Named>,
    orbit: &Orbit,
    response: &mut Response<MemorySource>,
    out: &mut String,
) -> Result<(), CaseError> {
    let request = request(alloc, orbit)?;
    let responded = respond_to(alloc, slot, &request, response, out);
    drop(request);
    responded
}

fn respond_to(
    alloc: Global,
    slot: &Slot<Named>,
    request: &Request<'_, Site>,
    response: &mut Response<MemorySource>,
    out: &mut String,
) -> Result<(), CaseError> {
    let mut ctx = context(alloc)?;
    let turn = responded::<Site, Slot<Named>, InSlot<AtOnce>>(
        alloc, slot, request, response, &mut ctx,
    );
    written(push_turn(out, turn))
}
