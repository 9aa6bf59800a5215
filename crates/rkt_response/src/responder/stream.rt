//! Responders whose body is a source.
ghost use Rattle.std.specs.Prelude.{◌≡◌, Ok};
ghost use Rattle.rkt_media.specs.Media.{known_text};
ghost use Rattle.rkt_media.specs.declared.known.Known.TheVariants.{Binary, Plain};
ghost use Rattle.rkt_request.specs.FromRequest.{Answers};
ghost use Rattle.rkt_response.specs.Responder.{streamed, with_type};

use crate::responder::making::typed_stream;
use crate::responder::{Responder, ResponseResult};
use rkt_data::Source;
pub use rkt_data::stream::ReaderStream;
use rkt_data::stream::Stream;
use rkt_http::Known;
use rkt_message::Response;
use rkt_request::{Ctx, Request, Types};
use std::alloc::Global;

/// All bytes that a source gives.
#[derive(Debug, Drop)]
pub struct ByteStream<S>(pub S);

impl<S> From<S> for ByteStream<S> {
    ghost from_gives = { λ source stream. stream.0 ≡ source };

    fn from(source: S) -> ByteStream<S> {
        ByteStream(source)
    }
}

/// The text that a source gives.
#[derive(Debug, Drop)]
pub struct TextStream<S>(pub S);

impl<S> From<S> for TextStream<S> {
    ghost from_gives = { λ source stream. stream.0 ≡ source };

    fn from(source: S) -> TextStream<S> {
        TextStream(source)
    }
}

impl<T: Types, S> Responder<T> for ByteStream<S>
where
    T::Stream: From<S>,
{
    ghost may = { λ value _ before answer after. (stream : T.Stream)
        × T.Stream.from_gives value.0 stream
        × Answers answer (Ok (with_type (known_text Binary) (streamed stream))) before after };

    fn respond_to(
        self,
        alloc: Global,
        _request: &Request<'_, T>,
        _ctx: &mut Ctx<T>,
    ) -> ResponseResult<T::Stream> {
        Ok(typed_stream(alloc, Known::Binary, T::Stream::from(self.0))?)
    }
}

impl<T: Types, S> Responder<T> for TextStream<S>
where
    T::Stream: From<S>,
{
    ghost may = { λ value _ before answer after. (stream : T.Stream)
        × T.Stream.from_gives value.0 stream
        × Answers answer (Ok (with_type (known_text Plain) (streamed stream))) before after };

    fn respond_to(
        self,
        alloc: Global,
        _request: &Request<'_, T>,
        _ctx: &mut Ctx<T>,
    ) -> ResponseResult<T::Stream> {
        Ok(typed_stream(alloc, Known::Plain, T::Stream::from(self.0))?)
    }
}

impl<T: Types, S: Stream> Responder<T> for ReaderStream<S>
where
    S::Item: Source,
    T::Stream: From<ReaderStream<S>>,
{
    ghost may = { λ value _ before answer after.
        (stream : T.Stream) × T.Stream.from_gives value stream × Answers answer (Ok (streamed stream)) before after };

    fn respond_to(
        self,
        alloc: Global,
        _request: &Request<'_, T>,
        _ctx: &mut Ctx<T>,
    ) -> ResponseResult<T::Stream> {
        let mut response = Response::new(alloc);
        response.set_streamed_body(T::Stream::from(self));
        Ok(response)
    }
}
