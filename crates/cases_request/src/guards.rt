//! Guards of requests, by the names of their types.
use crate::shown::Shown;
use cases::CaseError;
use rkt_http::{Accept, ContentType, Host, Method, Origin, Outcome, Status};
use rkt_request::{Ctx, FromRequest, Limits, Mounted, Request, State};
use sample_app::Sample;
use std::alloc::Global;
use std::convert::Infallible;
use std::fmt::Debug;
use std::net::{IpAddr, SocketAddr};

/// The state of the key that the guard asks.
type Two<'a> = State<'a, u8, 2>;

/// Adds what a guard answers, through the bound.
fn push_asked<'a, G: FromRequest<Request<'a, Sample>, Ctx<Sample>> + Shown + Drop>(
    alloc: Global,
    request: &Request<'a, Sample>,
    ctx: &mut Ctx<Sample>,
    out: &mut String,
) -> Result<(), CaseError>
where
    G::Error: Debug,
{
    let outcome = request.guard::<G>(alloc, ctx)?;
    outcome.show(alloc, out)
}

/// Adds the outcome of the guard of a type.
pub fn push_guard<'a>(
    alloc: Global,
    name: &str,
    request: &Request<'a, Sample>,
    ctx: &mut Ctx<Sample>,
    out: &mut String,
) -> Result<(), CaseError> {
    match name {
        "Method" => push_asked::<Method>(alloc, request, ctx, out),
        "Mounted" => push_asked::<Mounted>(alloc, request, ctx, out),
        "SocketAddr" => push_asked::<SocketAddr>(alloc, request, ctx, out),
        "IpAddr" => push_asked::<IpAddr>(alloc, request, ctx, out),
        _ => push_copying_guard(alloc, name, request, ctx, out),
    }
}

fn push_copying_guard<'a>(
    alloc: Global,
    name: &str,
    request: &Request<'a, Sample>,
    ctx: &mut Ctx<Sample>,
    out: &mut String,
) -> Result<(), CaseError> {
    match name {
        "Origin" => push_asked::<Origin>(alloc, request, ctx, out),
        "Host" => push_asked::<Host>(alloc, request, ctx, out),
        "Limits" => push_asked::<Limits>(alloc, request, ctx, out),
        "ContentType" => push_asked::<ContentType>(alloc, request, ctx, out),
        "Accept" => push_asked::<Accept>(alloc, request, ctx, out),
        _ => push_state_guard(alloc, name, request, ctx, out),
    }
}

fn push_state_guard<'a>(
    alloc: Global,
    name: &str,
    request: &Request<'a, Sample>,
    ctx: &mut Ctx<Sample>,
    out: &mut String,
) -> Result<(), CaseError> {
    match name {
        "State" => push_asked::<Two<'a>>(alloc, request, ctx, out),
        "Result<State>" => push_asked::<Result<Two<'a>, ()>>(alloc, request, ctx, out),
        "Outcome<State>" => {
            push_asked::<Outcome<Two<'a>, (Status, ()), Status>>(alloc, request, ctx, out)
        }
        _ => push_guard_of_guards(alloc, name, request, ctx, out),
    }
}

fn push_guard_of_guards(
    alloc: Global,
    name: &str,
    request: &Request<'_, Sample>,
    ctx: &mut Ctx<Sample>,
    out: &mut String,
) -> Result<(), CaseError> {
    match name {
        "Option<Method>" => push_asked::<Option<Method>>(alloc, request, ctx, out),
        "Option<Mounted>" => push_asked::<Option<Mounted>>(alloc, request, ctx, out),
        "Result<Mounted>" => push_asked::<Result<Mounted, Infallible>>(alloc, request, ctx, out),
        _ => Err(CaseError::Line),
    }
}
