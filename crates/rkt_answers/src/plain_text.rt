//! A text that was made for an answer.
ghost use Rattle.std.specs.Prelude.{◌≡◌};

use rkt_request::{Ctx, Request, Types};
use rkt_response::{Responder, ResponseResult};
use std::alloc::Global;

/// A text, which is answered as a `String` is. An application's `Answers` names it where it makes texts, since its
/// bounds cannot be stated over a `String`.
#[derive(Debug, Drop)]
pub struct PlainText(pub String);

impl<T: Types> Responder<T> for PlainText {
    ghost use Rattle.std.specs.Prelude.{Ok, string_bytes};
    ghost use Rattle.rkt_media.specs.Media.{known_text};
    ghost use Rattle.rkt_media.specs.declared.known.Known.TheVariants.{Plain};
    ghost use Rattle.rkt_request.specs.FromRequest.{Answers};
    ghost use Rattle.rkt_response.specs.Responder.{typed_bytes};

    ghost may = { λ text _ before answer after.
        Answers answer (Ok (typed_bytes (known_text Plain) (string_bytes text.0))) before after };

    fn respond_to(
        self,
        alloc: Global,
        request: &Request<'_, T>,
        ctx: &mut Ctx<T>,
    ) -> ResponseResult<T::Stream> {
        self.0.respond_to(alloc, request, ctx)
    }
}
