//! What a handler answers, made of what a responder does.
ghost use Rattle.std.specs.Prelude.{◌≡◌, IfOk, OnErr, Ok, Err};
ghost use Rattle.std.specs.Result.{result_map_both};
ghost use Rattle.rkt_answers.specs.Replies.{MadeBy};
ghost use Rattle.rkt_request.specs.Lent.{MayGrow};

use rkt_base::{NoMemory, Want};
use rkt_http::{Outcome, Status};
use rkt_request::{Ctx, Request, Types};
use rkt_response::{Responder, Response, ResponseResult};
use rkt_router::RouteOutcome;
use rkt_source::Source;
use std::alloc::{AllocError, Global};

// What a handler answers whose responder answers so.
fn reply<S: Source, B>(
    answer: ResponseResult<S>,
) -> Result<Outcome<Response<S>, Status, (B, Status)>, NoMemory>
    ensures answers { IfOk result (MadeBy (λ given. answer ≡ result_map_both (λ response. response) Want.Refused given)) }
    ensures starves { OnErr result (answer ≡ Err Want.NoMemory) }
{
    match answer {
        Ok(response) => Ok(Outcome::Success(response)),
        Err(Want::Refused(status)) => Ok(Outcome::Error(status)),
        Err(Want::NoMemory) => Err(AllocError),
    }
}

/// Success of the responder's response, and Error of its status.
pub fn from<T: Types, R: Responder<T>>(
    alloc: Global,
    request: &Request<'_, T>,
    ctx: &mut Ctx<T>,
    responder: R,
) -> Result<RouteOutcome<T>, NoMemory>
    ensures answers { IfOk result (λ reply. MadeBy (λ answer. R.may responder request.now ctx.old answer ctx.new) reply) }
    ensures starves { OnErr result (R.starves responder request.now ctx.old ctx.new) }
    ensures grows { MayGrow ctx.old ctx.new }
{
    reply(responder.respond_to(alloc, request, ctx))
}

/// What `from` makes of a responder, and Error of 500 where there is none.
pub fn try_from<T: Types, R: Responder<T> + Drop, E: Drop>(
    alloc: Global,
    request: &Request<'_, T>,
    ctx: &mut Ctx<T>,
    value: Result<R, E>,
) -> Result<RouteOutcome<T>, NoMemory>
    ensures some { (responder : R) → value ≡ Ok responder
        → IfOk result (λ reply. MadeBy (λ given. R.may responder request.now ctx.old given ctx.new) reply) }
    ensures none { (e : E) → value ≡ Err e
        → (result ≡ Ok (Outcome.Error record { code = 500 })) × (ctx.new ≡ ctx.old) }
    ensures grows { MayGrow ctx.old ctx.new }
{
    match value {
        Ok(responder) => from(alloc, request, ctx, responder),
        Err(_) => Ok(Outcome::Error(Status::InternalServerError)),
    }
}
