//! What is called at the events of an exchange. Each kind of callback has a trait of its own, of a type that stands for how a
//! fairing is called at that event; `Quiet` stands for not at all. So an author writes the callbacks of one kind alone.
ghost use Rattle.std.specs.Prelude.{◌≡◌};

use crate::{Attach, IgniteCallback, LiftoffCallback, Parts, ShutdownCallback};
use rkt_message::Response;
use rkt_request::{Ctx, HasBody, Request, Types};
use rkt_router::Step;
use std::alloc::Global;

/// How fairings of a type are called for a request, before it is routed. They may change it, and its body.
pub trait RequestCallback<A: HasBody, F> {
    ghost use Rattle.rkt_router.specs.Callbacks.{RequestAt};
    ghost use Rattle.rkt_fairing.specs.Callbacks.{KeepsRequest};
    ghost use Rattle.rkt_router.specs.Calling.{Calling, Starts, CanPoll, Polls};

    /// A call that is under way. One that was Done is not polled again.
    type Task: Drop;

    /// What a call means.
    ghost calling: { Calling F (Unit {0}) (RequestAt A.Value A.Body A.Cached) (Unit {0}) Self.Task };

    /// Begins a call.
    fn start(fairing: &F) -> Self::Task
        ensures { Starts calling fairing.now tt result };

    /// Goes on with a call, under the Gate of the context.
    fn poll(
        fairing: &F,
        alloc: Global,
        task: &mut Self::Task,
        request: &mut Request<'_, A>,
        body: &mut A::Body,
        ctx: &mut Ctx<A>,
    ) -> Step<()>
        requires begun { CanPoll calling fairing.now tt task.old
            (record { request = request.old; body = body.old; kept = ctx.old.kept }) }
        ensures gate { ctx.new.gate ≡ ctx.old.gate }
        ensures polls { Polls calling fairing.now tt task.old
            (record { request = request.old; body = body.old; kept = ctx.old.kept }) ctx.old.gate result task.new
            (record { request = request.new; body = body.new; kept = ctx.new.kept }) };

    /// Originals and floor stay, the log and the cache grow, and the request lends what it lent.
    ghost keeps: { KeepsRequest calling };
}

/// How fairings of a type are called for a response. They may change it.
pub trait ResponseCallback<A: Types, F> {
    ghost use Rattle.rkt_request.specs.Seen.{Seen};
    ghost use Rattle.rkt_fairing.specs.Callbacks.{ResponseAt, KeepsResponse};
    ghost use Rattle.rkt_router.specs.Calling.{Calling, Starts, CanPoll, Polls};

    /// A call that is under way. One that was Done is not polled again.
    type Task: Drop;

    /// What a call means.
    ghost calling: { Calling F (Seen A.Value) (ResponseAt A.Stream A.Cached) (Unit {0}) Self.Task };

    /// Begins a call for the response to a request.
    fn start(fairing: &F, request: &Request<'_, A>) -> Self::Task
        ensures { Starts calling fairing.now request.now result };

    /// Goes on with a call, under the Gate of the context.
    fn poll(
        fairing: &F,
        alloc: Global,
        task: &mut Self::Task,
        request: &Request<'_, A>,
        response: &mut Response<A::Stream>,
        ctx: &mut Ctx<A>,
    ) -> Step<()>
        requires begun { CanPoll calling fairing.now request.now task.old
            (record { response = response.old; kept = ctx.old.kept }) }
        ensures gate { ctx.new.gate ≡ ctx.old.gate }
        ensures polls { Polls calling fairing.now request.now task.old (record { response = response.old; kept = ctx.old.kept })
            ctx.old.gate result task.new (record { response = response.new; kept = ctx.new.kept }) };

    /// Originals and floor stay, and the log and the cache grow.
    ghost keeps: { KeepsResponse calling };
}

/// A fairing: how it is called at each event.
pub trait Fairing<A: Parts>: Attach + Sized {
    /// How it is called at ignition.
    type Ignites: IgniteCallback<A, Self>;

    /// How it is called at liftoff.
    type Lifts: LiftoffCallback<A, Self>;

    /// How it is called for a request.
    type Requests: RequestCallback<A, Self>;

    /// How it is called for a response.
    type Responses: ResponseCallback<A, Self>;

    /// How it is called at a shutdown.
    type Shuts: ShutdownCallback<A, Self>;
}
