//! Responders: what a handler may answer with.
ghost use Rattle.std.specs.Prelude.{◌≡◌};
ghost use Rattle.rkt_request.specs.Lent.{Lent, MayGrow};
ghost use Rattle.rkt_request.specs.Seen.{Seen};
ghost use Rattle.rkt_response.specs.Responder.{Answer, IfAnswered, IfStarved};

mod bytes;
pub mod content;
mod created;
mod making;
mod plain;
mod redirect;
pub mod status;
pub mod stream;
mod texts;
mod wrapped;

pub use crate::responder::plain::Debug;
pub use crate::responder::redirect::Redirect;
use rkt_base::Want;
use rkt_http::Status;
use rkt_message::Response;
use rkt_request::{Ctx, Request, Types};
use std::alloc::Global;

/// A response, or the status whose catcher is to answer.
pub type ResponseResult<S> = Result<Response<S>, Want<Status>>;

/// A value that a response is made of. One that says nothing of itself may answer anything, and leaves the context as it was.
pub trait Responder<T: Types>: Sized {
    /// What the value may answer to a request, and what it leaves of the context that it is lent.
    ghost may: { Self → Seen T.Value → Lent T.Cached → Answer T.Stream → Lent T.Cached
        → Type 0 } = { λ _ _ before _ after. after ≡ before };

    /// What it may leave of the context where memory runs out.
    ghost starves: { Self → Seen T.Value → Lent T.Cached → Lent T.Cached → Type 0 } = { λ _ _ before after. after ≡ before };

    /// The response, or the status whose catcher is to answer.
    fn respond_to(
        self,
        alloc: Global,
        request: &Request<'_, T>,
        ctx: &mut Ctx<T>,
    ) -> ResponseResult<T::Stream>
        ensures answers { IfAnswered result (λ answer. may self request.now ctx.old answer ctx.new) }
        ensures starves { IfStarved result (starves self request.now ctx.old ctx.new) }
        ensures grows { MayGrow ctx.old ctx.new };
}
