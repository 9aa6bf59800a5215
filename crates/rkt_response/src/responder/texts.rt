//! Responders of a text.
ghost use Rattle.std.specs.Prelude.{◌≡◌, Ok, string_bytes};
ghost use Rattle.std.specs.Arc.{arc_str_bytes};
ghost use Rattle.std.specs.Box.{boxed_str_bytes};
ghost use Rattle.std.specs.Cow.{cow_str_bytes};
ghost use Rattle.rkt_media.specs.Media.{known_text};
ghost use Rattle.rkt_media.specs.declared.known.Known.TheVariants.{Plain};
ghost use Rattle.rkt_request.specs.FromRequest.{Answers};
ghost use Rattle.rkt_response.specs.Responder.{typed_bytes};

use crate::responder::making::typed_bytes;
use crate::responder::{Responder, ResponseResult};
use rkt_http::Known;
use rkt_request::{Ctx, Request, Types};
use std::alloc::Global;
use std::borrow::CowStr;
use std::boxed::BoxedStr;
use std::sync::ArcStr;

impl<T: Types> Responder<T> for String {
    ghost may = { λ text _ before answer after.
        Answers answer (Ok (typed_bytes (known_text Plain) (string_bytes text))) before after };

    fn respond_to(
        self,
        alloc: Global,
        _request: &Request<'_, T>,
        _ctx: &mut Ctx<T>,
    ) -> ResponseResult<T::Stream> {
        Ok(typed_bytes(alloc, Known::Plain, self.into_bytes())?)
    }
}

impl<'a, T: Types> Responder<T> for &'a str {
    ghost may = { λ text _ before answer after. Answers answer (Ok (typed_bytes (known_text Plain) (text.now))) before after };

    fn respond_to(
        self,
        alloc: Global,
        request: &Request<'_, T>,
        ctx: &mut Ctx<T>,
    ) -> ResponseResult<T::Stream> {
        String::from_str(alloc, self)?.respond_to(alloc, request, ctx)
    }
}

impl<T: Types> Responder<T> for BoxedStr {
    ghost may = { λ text _ before answer after.
        Answers answer (Ok (typed_bytes (known_text Plain) (boxed_str_bytes text))) before after };

    fn respond_to(
        self,
        alloc: Global,
        request: &Request<'_, T>,
        ctx: &mut Ctx<T>,
    ) -> ResponseResult<T::Stream> {
        self.into_string().respond_to(alloc, request, ctx)
    }
}

impl<T: Types> Responder<T> for ArcStr {
    ghost may = { λ text _ before answer after.
        Answers answer (Ok (typed_bytes (known_text Plain) (arc_str_bytes text))) before after };

    fn respond_to(
        self,
        alloc: Global,
        request: &Request<'_, T>,
        ctx: &mut Ctx<T>,
    ) -> ResponseResult<T::Stream> {
        self.as_str().respond_to(alloc, request, ctx)
    }
}

impl<'a, T: Types> Responder<T> for CowStr<'a> {
    ghost may = { λ text _ before answer after.
        Answers answer (Ok (typed_bytes (known_text Plain) (cow_str_bytes text))) before after };

    fn respond_to(
        self,
        alloc: Global,
        request: &Request<'_, T>,
        ctx: &mut Ctx<T>,
    ) -> ResponseResult<T::Stream> {
        self.into_owned(alloc)?.respond_to(alloc, request, ctx)
    }
}
