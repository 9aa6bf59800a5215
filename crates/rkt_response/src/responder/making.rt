//! The responses that several responders answer.
ghost use Rattle.std.specs.Prelude.{◌≡◌, IfOk, codes};
ghost use Rattle.rkt_media.specs.Media.{known_text};
ghost use Rattle.rkt_request.specs.Lent.{MayGrow};
ghost use Rattle.rkt_response.specs.Responder.{Changes, IfAnswered, IfStarved, StarvesWithin, streamed, typed_bytes, with_header, with_status, with_type};

use crate::responder::{Responder, ResponseResult};
use rkt_base::NoMemory;
use rkt_data::Source;
use rkt_http::{Known, Status};
use rkt_message::Response;
use rkt_request::{Ctx, Request, Types};
use std::alloc::Global;

/// Bytes of a content type.
pub fn typed_bytes<S: Source>(
    alloc: Global,
    known: Known,
    bytes: Vec<u8>,
) -> Result<Response<S>, NoMemory>
    ensures { IfOk result (λ response. response ≡ typed_bytes (known_text known) bytes.items) }
{
    let mut response = Response::new(alloc);
    let size = bytes.len();
    response.set_sized_body(Some(size), bytes);
    response.set_raw_header("Content-Type", known.as_str())?;
    Ok(response)
}

/// What a responder answers, with another status.
pub fn with_status<T: Types, R: Responder<T>>(
    status: Status,
    responder: R,
    alloc: Global,
    request: &Request<'_, T>,
    ctx: &mut Ctx<T>,
) -> ResponseResult<T::Stream>
    ensures answers { IfAnswered result (λ answer.
        Changes (with_status status.code) (R.may responder request.now ctx.old) answer ctx.new) }
    ensures starves { IfStarved result (R.starves responder request.now ctx.old ctx.new) }
    ensures grows { MayGrow ctx.old ctx.new }
{
    let mut response = responder.respond_to(alloc, request, ctx)?;
    response.set_status(status);
    Ok(response)
}

/// What a responder answers, with another content type.
pub fn with_known<T: Types, R: Responder<T>>(
    known: Known,
    responder: R,
    alloc: Global,
    request: &Request<'_, T>,
    ctx: &mut Ctx<T>,
) -> ResponseResult<T::Stream>
    ensures answers { IfAnswered result (λ answer.
        Changes (with_type (known_text known)) (R.may responder request.now ctx.old) answer ctx.new) }
    ensures starves { IfStarved result
        (StarvesWithin (R.may responder request.now ctx.old) (R.starves responder request.now ctx.old) ctx.new) }
    ensures grows { MayGrow ctx.old ctx.new }
{
    let mut response = responder.respond_to(alloc, request, ctx)?;
    response.set_raw_header("Content-Type", known.as_str())?;
    Ok(response)
}

/// A source as a body of a content type.
pub fn typed_stream<S: Source>(
    alloc: Global,
    known: Known,
    stream: S,
) -> Result<Response<S>, NoMemory>
    ensures { IfOk result (λ response. response ≡ with_type (known_text known) (streamed stream)) }
{
    let mut response = Response::new(alloc);
    response.set_streamed_body(stream);
    response.set_raw_header("Content-Type", known.as_str())?;
    Ok(response)
}

/// A response with a status, and the place that it tells of.
pub fn located<S: Source>(
    status: Status,
    location: &str,
    mut response: Response<S>,
) -> Result<Response<S>, NoMemory>
    ensures { IfOk result (λ located.
        located ≡ with_header (codes "Location") location.now (with_status status.code response)) }
{
    response.set_status(status);
    response.set_raw_header("Location", location)?;
    Ok(response)
}
