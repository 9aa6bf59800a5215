//! Guards: what a handler asks of a request before it answers.
ghost use Rattle.std.specs.Prelude.{IfOk, OnErr};
ghost use Rattle.rkt_request.specs.Lent.{MayGrow};

use crate::ctx::Ctx;
use crate::request::Request;
use crate::types::Types;
use rkt_base::NoMemory;
use rkt_http::{Outcome, Status};
use std::alloc::Global;

/// What a guard answers: its value, an error with a status, or a status with which another route is tried.
pub type GuardOutcome<G, E> = Outcome<G, (Status, E), Status>;

/// What a guard is lent beside the request.
pub trait Context {
    // What a guard may do to it.
    ghost grows: { Self → Self → Type 0 };
}

impl<T: Types> Context for Ctx<T> {
    ghost use Rattle.rkt_request.specs.Lent.{MayGrow};

    ghost grows = { MayGrow };
}

/// A value that is made of a request `R`, where the request allows it, with the context `C` beside it: of a
/// `Request<'a, T>` with a `Ctx<T>`. A guard that says nothing of itself may answer anything, and leaves the context as it
/// was.
pub trait FromRequest<R, C: Context>: Sized {
    ghost use Rattle.std.specs.Prelude.{◌≡◌};
    ghost use Rattle.rkt_http.specs.declared.outcome.Outcome.{Outcome};
    ghost use Rattle.rkt_http.specs.declared.status.Status.{Status};

    /// Why there is no value.
    type Error: Drop;

    /// What the guard may answer to a request, and what it leaves of the context that it is lent.
    ghost may: { R → C → Outcome Self (Status × Self.Error) Status → C → Type 0 } = { λ _ before _ after. after ≡ before };

    /// What it may leave of the context where memory runs out.
    ghost starves: { R → C → C → Type 0 } = { λ _ before after. after ≡ before };

    fn from_request(
        alloc: Global,
        request: &R,
        ctx: &mut C,
    ) -> Result<GuardOutcome<Self, Self::Error>, NoMemory>
        ensures answers { IfOk result (λ outcome. may request.now ctx.old outcome ctx.new) }
        ensures starves { OnErr result (starves request.now ctx.old ctx.new) }
        ensures grows { C.grows ctx.old ctx.new };
}

impl<'a, T: Types> Request<'a, T> {
    /// Asks a guard.
    pub fn guard<G: FromRequest<Request<'a, T>, Ctx<T>>>(
        &self,
        alloc: Global,
        ctx: &mut Ctx<T>,
    ) -> Result<GuardOutcome<G, G::Error>, NoMemory>
        ensures answers { IfOk result (λ outcome. G.may self.now ctx.old outcome ctx.new) }
        ensures starves { OnErr result (G.starves self.now ctx.old ctx.new) }
        ensures grows { MayGrow ctx.old ctx.new }
    {
        G::from_request(alloc, self, ctx)
    }
}
