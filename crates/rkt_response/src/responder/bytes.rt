//! Responders of bytes.
ghost use Rattle.std.specs.Prelude.{◌≡◌, Ok};
ghost use Rattle.std.specs.Arc.{arc_slice_items};
ghost use Rattle.std.specs.Box.{boxed_slice_items};
ghost use Rattle.std.specs.Cow.{cow_slice_items};
ghost use Rattle.rkt_media.specs.Media.{known_text};
ghost use Rattle.rkt_media.specs.declared.known.Known.TheVariants.{Binary};
ghost use Rattle.rkt_request.specs.FromRequest.{Answers};
ghost use Rattle.rkt_response.specs.Responder.{typed_bytes};

use crate::responder::making::typed_bytes;
use crate::responder::{Responder, ResponseResult};
use rkt_http::Known;
use rkt_request::{Ctx, Request, Types};
use std::alloc::Global;
use std::borrow::CowSlice;
use std::boxed::BoxedSlice;
use std::sync::ArcSlice;

impl<T: Types> Responder<T> for Vec<u8> {
    ghost may = { λ bytes _ before answer after.
        Answers answer (Ok (typed_bytes (known_text Binary) (bytes.items))) before after };

    fn respond_to(
        self,
        alloc: Global,
        _request: &Request<'_, T>,
        _ctx: &mut Ctx<T>,
    ) -> ResponseResult<T::Stream> {
        Ok(typed_bytes(alloc, Known::Binary, self)?)
    }
}

impl<'a, T: Types> Responder<T> for &'a [u8] {
    ghost may = { λ bytes _ before answer after.
        Answers answer (Ok (typed_bytes (known_text Binary) (bytes.now))) before after };

    fn respond_to(
        self,
        alloc: Global,
        request: &Request<'_, T>,
        ctx: &mut Ctx<T>,
    ) -> ResponseResult<T::Stream> {
        self.to_vec(alloc)?.respond_to(alloc, request, ctx)
    }
}

impl<T: Types> Responder<T> for BoxedSlice<u8> {
    ghost may = { λ bytes _ before answer after.
        Answers answer (Ok (typed_bytes (known_text Binary) (boxed_slice_items bytes))) before after };

    fn respond_to(
        self,
        alloc: Global,
        request: &Request<'_, T>,
        ctx: &mut Ctx<T>,
    ) -> ResponseResult<T::Stream> {
        self.into_vec().respond_to(alloc, request, ctx)
    }
}

impl<T: Types> Responder<T> for ArcSlice<u8> {
    ghost may = { λ bytes _ before answer after.
        Answers answer (Ok (typed_bytes (known_text Binary) (arc_slice_items bytes))) before after };

    fn respond_to(
        self,
        alloc: Global,
        request: &Request<'_, T>,
        ctx: &mut Ctx<T>,
    ) -> ResponseResult<T::Stream> {
        self.as_slice().respond_to(alloc, request, ctx)
    }
}

impl<'a, T: Types> Responder<T> for CowSlice<'a, u8> {
    ghost may = { λ bytes _ before answer after.
        Answers answer (Ok (typed_bytes (known_text Binary) (cow_slice_items bytes))) before after };

    fn respond_to(
        self,
        alloc: Global,
        request: &Request<'_, T>,
        ctx: &mut Ctx<T>,
    ) -> ResponseResult<T::Stream> {
        match self {
            CowSlice::Borrowed(bytes) => bytes.respond_to(alloc, request, ctx),
            CowSlice::Owned(bytes) => bytes.respond_to(alloc, request, ctx),
        }
    }
}
