//! What routes reply.
ghost use Rattle.std.specs.Prelude.{◌≡◌, Some, IfOk, OnOk, OnErr, ◌∷◌, [], codes};
ghost use Rattle.rkt_response.specs.Flash.{flash_cookie};
ghost use Rattle.rkt_sample.specs.Added.{mark_of, with_added};
ghost use Rattle.rkt_sample.specs.Greeting.{greeting};
ghost use Rattle.rkt_sample.specs.Replies.{broken, greets, it_worked, says, to_page};
ghost use Rattle.rkt_sample.specs.Routing.{Replies};
ghost use Rattle.rkt_sample.specs.Told.{with_word};

use crate::cookies::mark;
use crate::greeting::greeting;
use crate::route::SampleRoute;
use crate::source::ToldSource;
use crate::stop::StopReason;
use crate::text::read_text;
use rkt_answers::from;
use rkt_base::{NoMemory, Want};
use rkt_data::Source;
use rkt_http::{Outcome, Status};
use rkt_request::{Body0, Ctx, Request, Types};
use rkt_response::{Flash, Redirect, Responder, Response};
use rkt_router::RouteOutcome;
use std::alloc::{AllocError, Global};

/// A text.
pub(crate) fn say<T: Types>(
    alloc: Global,
    request: &Request<'_, T>,
    ctx: &mut Ctx<T>,
    text: &str,
) -> Result<RouteOutcome<T>, NoMemory>
    ensures reply { IfOk result (λ reply. reply ≡ says text.now) }
    ensures kept { ctx.new ≡ ctx.old }
{
    from(alloc, request, ctx, text)
}

/// A greeting, unless the age is no small number.
pub(crate) fn greet<T: Types>(
    alloc: Global,
    request: &Request<'_, T>,
    body: Body0<T>,
    ctx: &mut Ctx<T>,
) -> Result<RouteOutcome<T>, NoMemory>
    ensures reply { IfOk result (λ reply. reply ≡ greets body (greeting request.now)) }
    ensures kept { ctx.new ≡ ctx.old }
{
    match greeting(alloc, request)? {
        Some(text) => from(alloc, request, ctx, text),
        None => Ok(Outcome::Forward((body, Status::NotFound))),
    }
}

/// The text of a body; what its guard answers else is passed on.
pub(crate) fn echo<T: Types<Source = S>, S: ToldSource>(
    alloc: Global,
    request: &Request<'_, T>,
    body: Body0<T>,
    ctx: &mut Ctx<T>,
) -> Result<RouteOutcome<T>, NoMemory>
    ensures reply { IfOk result
        (Replies S.Source.meaning SampleRoute.Echo (record { request = request.now; body = body }) (ctx.old.gate ∷ [])) }
    ensures kept { ctx.new ≡ ctx.old }
{
    match read_text(alloc, request, body, ctx.gate())? {
        Outcome::Success(text) => from(alloc, request, ctx, text),
        Outcome::Error((status, _)) => Ok(Outcome::Error(status)),
        Outcome::Forward((body, status)) => Ok(Outcome::Forward((body, status))),
    }
}

/// A reply, once the cookie `a` was added.
pub(crate) fn after_mark<T: Types>(
    alloc: Global,
    ctx: &mut Ctx<T>,
    reply: RouteOutcome<T>,
) -> Result<RouteOutcome<T>, NoMemory>
    ensures reply { IfOk result (λ given. given ≡ reply) }
    ensures ok { OnOk result (ctx.new ≡ record ctx.old { kept = with_added (Some (mark_of (codes "a"))) ctx.old.kept }) }
    ensures err { OnErr result (ctx.new ≡ ctx.old) }
{
    mark(alloc, "a", ctx)?;
    Ok(reply)
}

/// Leads to `/page`.
fn to_page<T: Types>(
    alloc: Global,
    request: &Request<'_, T>,
    ctx: &mut Ctx<T>,
) -> Result<Response<T::Stream>, NoMemory>
    ensures response { IfOk result (λ response. response ≡ to_page) }
    ensures kept { ctx.new ≡ ctx.old }
{
    let redirect = Redirect::to(alloc, "/page")?;
    match redirect.respond_to(alloc, request, ctx) {
        Ok(response) => Ok(response),
        Err(Want::Refused(_)) => unreachable!(),
        Err(Want::NoMemory) => Err(AllocError),
    }
}

/// Leads to `/page`, with a message. The cookie is added last, so that nothing is left of it where memory runs out.
pub(crate) fn flash<T: Types>(
    alloc: Global,
    request: &Request<'_, T>,
    ctx: &mut Ctx<T>,
) -> Result<RouteOutcome<T>, NoMemory>
    ensures reply { IfOk result (λ reply. reply ≡ Outcome.Success to_page) }
    ensures ok { OnOk result (ctx.new ≡ record ctx.old { kept = with_added (Some (flash_cookie it_worked)) ctx.old.kept }) }
    ensures err { OnErr result (ctx.new ≡ ctx.old) }
{
    let response = to_page(alloc, request, ctx)?;
    let flash = Flash::success(alloc, response, "It worked!")?;
    let Ok(()) = flash.add_to(alloc, ctx.cookies_mut()) else {
        // By a call, in which that is proved once for its type.
        drop(flash);
        return Err(AllocError);
    };
    Ok(Outcome::Success(flash.into_inner()))
}

/// Notifies the handle of the server.
fn notify<T: Types<Reason = R>, R: StopReason>(ctx: &mut Ctx<T>)
    ensures { ctx.new ≡ record ctx.old { kept = with_word (Some R.stop_word) ctx.old.kept } }
{
    let reason = R::stop();
    ctx.shutdown().notify(reason);
}

/// Says that it stops. The handle is notified last, so that nobody is told where memory runs out.
pub(crate) fn stop<T: Types<Reason = R>, R: StopReason>(
    alloc: Global,
    request: &Request<'_, T>,
    ctx: &mut Ctx<T>,
) -> Result<RouteOutcome<T>, NoMemory>
    ensures reply { IfOk result (λ reply. reply ≡ says (codes "stopping")) }
    ensures ok { OnOk result (ctx.new ≡ record ctx.old { kept = with_word (Some R.stop_word) ctx.old.kept }) }
    ensures err { OnErr result (ctx.new ≡ ctx.old) }
{
    let reply = say(alloc, request, ctx, "stopping")?;
    notify(ctx);
    Ok(reply)
}

/// An empty response with a header whose value no response may have.
pub(crate) fn broken<S: Source>(alloc: Global) -> Result<Response<S>, NoMemory>
    ensures { IfOk result (λ response. response ≡ broken) }
{
    let mut response = Response::new(alloc);
    response.set_raw_header("X-Bad", "\n")?;
    Ok(response)
}
