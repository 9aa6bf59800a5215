//! Responders that set the content type.
ghost use Rattle.std.specs.Prelude.{◌≡◌, OnOk};
ghost use Rattle.rkt_media.specs.Media.{known_text, media_text};
ghost use Rattle.rkt_media.specs.declared.known.Known.TheVariants.{JSON, XML, MsgPack, HTML, Text, CSS, JavaScript};
ghost use Rattle.rkt_response.specs.Responder.{Changes, StarvesWithin, with_type};

use crate::responder::making::with_known;
use crate::responder::{Responder, ResponseResult};
use rkt_base::NoMemory;
use rkt_data::Source;
use rkt_http::{ContentType, Known};
use rkt_message::Response;
use rkt_request::{Ctx, Request, Types};
use std::alloc::Global;

// Gives a response a content type.
fn set_content_type<S: Source>(
    alloc: Global,
    content_type: &ContentType,
    response: &mut Response<S>,
) -> Result<(), NoMemory>
    ensures { OnOk result (response.new ≡ with_type (media_text content_type.now) response.old) }
{
    let header = content_type.header(alloc)?;
    response.set_header(header)?;
    Ok(())
}

impl<T: Types, R: Responder<T>> Responder<T> for (ContentType, R) {
    ghost may = { λ value seen before answer after.
        Changes (with_type (media_text value.0)) (R.may value.1 seen before) answer after };

    ghost starves = { λ value seen before after.
        StarvesWithin (R.may value.1 seen before) (R.starves value.1 seen before) after };

    fn respond_to(
        self,
        alloc: Global,
        request: &Request<'_, T>,
        ctx: &mut Ctx<T>,
    ) -> ResponseResult<T::Stream> {
        let (content_type, responder) = self;
        let mut response = responder.respond_to(alloc, request, ctx)?;
        set_content_type(alloc, &content_type, &mut response)?;
        Ok(response)
    }
}

/// The response of an inner responder as JSON.
#[derive(Debug, Drop, PartialEq)]
pub struct RawJson<R>(pub R);

impl<T: Types, R: Responder<T>> Responder<T> for RawJson<R> {
    ghost may = { λ value seen before answer after.
        Changes (with_type (known_text JSON)) (R.may value.0 seen before) answer after };

    ghost starves = { λ value seen before after.
        StarvesWithin (R.may value.0 seen before) (R.starves value.0 seen before) after };

    fn respond_to(
        self,
        alloc: Global,
        request: &Request<'_, T>,
        ctx: &mut Ctx<T>,
    ) -> ResponseResult<T::Stream> {
        with_known(Known::JSON, self.0, alloc, request, ctx)
    }
}

/// The response of an inner responder as XML.
#[derive(Debug, Drop, PartialEq)]
pub struct RawXml<R>(pub R);

impl<T: Types, R: Responder<T>> Responder<T> for RawXml<R> {
    ghost may = { λ value seen before answer after.
        Changes (with_type (known_text XML)) (R.may value.0 seen before) answer after };

    ghost starves = { λ value seen before after.
        StarvesWithin (R.may value.0 seen before) (R.starves value.0 seen before) after };

    fn respond_to(
        self,
        alloc: Global,
        request: &Request<'_, T>,
        ctx: &mut Ctx<T>,
    ) -> ResponseResult<T::Stream> {
        with_known(Known::XML, self.0, alloc, request, ctx)
    }
}

/// The response of an inner responder as MessagePack.
#[derive(Debug, Drop, PartialEq)]
pub struct RawMsgPack<R>(pub R);

impl<T: Types, R: Responder<T>> Responder<T> for RawMsgPack<R> {
    ghost may = { λ value seen before answer after.
        Changes (with_type (known_text MsgPack)) (R.may value.0 seen before) answer after };

    ghost starves = { λ value seen before after.
        StarvesWithin (R.may value.0 seen before) (R.starves value.0 seen before) after };

    fn respond_to(
        self,
        alloc: Global,
        request: &Request<'_, T>,
        ctx: &mut Ctx<T>,
    ) -> ResponseResult<T::Stream> {
        with_known(Known::MsgPack, self.0, alloc, request, ctx)
    }
}

/// The response of an inner responder as HTML.
#[derive(Debug, Drop, PartialEq)]
pub struct RawHtml<R>(pub R);

impl<T: Types, R: Responder<T>> Responder<T> for RawHtml<R> {
    ghost may = { λ value seen before answer after.
        Changes (with_type (known_text HTML)) (R.may value.0 seen before) answer after };

    ghost starves = { λ value seen before after.
        StarvesWithin (R.may value.0 seen before) (R.starves value.0 seen before) after };

    fn respond_to(
        self,
        alloc: Global,
        request: &Request<'_, T>,
        ctx: &mut Ctx<T>,
    ) -> ResponseResult<T::Stream> {
        with_known(Known::HTML, self.0, alloc, request, ctx)
    }
}

/// The response of an inner responder as plain text.
#[derive(Debug, Drop, PartialEq)]
pub struct RawText<R>(pub R);

impl<T: Types, R: Responder<T>> Responder<T> for RawText<R> {
    ghost may = { λ value seen before answer after.
        Changes (with_type (known_text Text)) (R.may value.0 seen before) answer after };

    ghost starves = { λ value seen before after.
        StarvesWithin (R.may value.0 seen before) (R.starves value.0 seen before) after };

    fn respond_to(
        self,
        alloc: Global,
        request: &Request<'_, T>,
        ctx: &mut Ctx<T>,
    ) -> ResponseResult<T::Stream> {
        with_known(Known::Text, self.0, alloc, request, ctx)
    }
}

/// The response of an inner responder as CSS.
#[derive(Debug, Drop, PartialEq)]
pub struct RawCss<R>(pub R);

impl<T: Types, R: Responder<T>> Responder<T> for RawCss<R> {
    ghost may = { λ value seen before answer after.
        Changes (with_type (known_text CSS)) (R.may value.0 seen before) answer after };

    ghost starves = { λ value seen before after.
        StarvesWithin (R.may value.0 seen before) (R.starves value.0 seen before) after };

    fn respond_to(
        self,
        alloc: Global,
        request: &Request<'_, T>,
        ctx: &mut Ctx<T>,
    ) -> ResponseResult<T::Stream> {
        with_known(Known::CSS, self.0, alloc, request, ctx)
    }
}

/// The response of an inner responder as JavaScript.
#[derive(Debug, Drop, PartialEq)]
pub struct RawJavaScript<R>(pub R);

impl<T: Types, R: Responder<T>> Responder<T> for RawJavaScript<R> {
    ghost may = { λ value seen before answer after.
        Changes (with_type (known_text JavaScript)) (R.may value.0 seen before) answer after };

    ghost starves = { λ value seen before after.
        StarvesWithin (R.may value.0 seen before) (R.starves value.0 seen before) after };

    fn respond_to(
        self,
        alloc: Global,
        request: &Request<'_, T>,
        ctx: &mut Ctx<T>,
    ) -> ResponseResult<T::Stream> {
        with_known(Known::JavaScript, self.0, alloc, request, ctx)
    }
}
