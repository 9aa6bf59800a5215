//! Callbacks that an author writes as one change, and proves nothing of.
ghost use Rattle.std.specs.Prelude.{◌≡◌, OnOk, ⊤};
ghost use Rattle.rkt_request.specs.Lent.{Kept, MayGrow};
ghost use Rattle.rkt_request.specs.Seen.{Seen};
ghost use Rattle.rkt_router.specs.Callbacks.{RequestAt};
ghost use Rattle.rkt_fairing.specs.Callbacks.{ResponseAt};

use rkt_base::NoMemory;
use rkt_fairing::{RequestCallback, ResponseCallback};
use rkt_message::Response;
use rkt_request::{Body0, Ctx, HasBody, Request, Types};
use rkt_router::Step;
use std::alloc::Global;

/// What changes requests, of a type that says nothing of itself: then it may change them to any others.
pub trait ChangesRequest<A: HasBody> {
    /// What it may leave of what it is lent.
    ghost may: { Self → RequestAt A.Value A.Body A.Cached → RequestAt A.Value A.Body A.Cached → Type 0 } = { λ _ _ _. ⊤ };

    /// The change. The request lends what it lent, and what the context leaves has grown, for want of memory too.
    fn on_request(
        &self,
        alloc: Global,
        request: &mut Request<'_, A>,
        body: &mut A::Body,
        ctx: &mut Ctx<A>,
    ) -> Result<(), NoMemory>
        ensures changes { OnOk result (may self.now (record { request = request.old; body = body.old; kept = ctx.old.kept })
            (record { request = request.new; body = body.new; kept = ctx.new.kept })) }
        ensures config { request.new.config ≡ request.old.config }
        ensures managed { request.new.managed ≡ request.old.managed }
        ensures grows { MayGrow ctx.old ctx.new };
}

/// What changes responses, of a type that says nothing of itself: then it may change them to any others.
pub trait ChangesResponse<A: Types> {
    /// What it may leave of what it is lent beside a request.
    ghost may: { Self → Seen A.Value → ResponseAt A.Stream A.Cached → ResponseAt A.Stream A.Cached
        → Type 0 } = { λ _ _ _ _. ⊤ };

    /// The change. What the context leaves has grown, for want of memory too.
    fn on_response(
        &self,
        alloc: Global,
        request: &Request<'_, A>,
        response: &mut Response<A::Stream>,
        ctx: &mut Ctx<A>,
    ) -> Result<(), NoMemory>
        ensures changes { OnOk result (may self.now request.now (record { response = response.old; kept = ctx.old.kept })
            (record { response = response.new; kept = ctx.new.kept })) }
        ensures grows { MayGrow ctx.old ctx.new };
}

/// Stands for being called as `ChangesRequest` or `ChangesResponse` says: it is done at its first poll, or found no
/// memory then, and finds none later. At ignition, at liftoff and at a shutdown it stands for `TriesBuilding`,
/// `SeesLiftoff` and `SeesShutdown`.
#[derive(Clone, Copy, Debug, PartialEq, Eq, Drop)]
pub struct AtOnce;

// The task of a call for a request or for a response says whether it found no memory.
impl<A: Types, F: ChangesRequest<A>> RequestCallback<A, F> for AtOnce {
    ghost use Rattle.rkt_adhoc.specs.Changes.{changing_request, changing_request_keeps};

    type Task = bool;

    ghost calling = { changing_request F.may };

    fn start(_fairing: &F) -> bool {
        false
    }

    fn poll(
        fairing: &F,
        alloc: Global,
        starved: &mut bool,
        request: &mut Request<'_, A>,
        body: &mut Body0<A>,
        ctx: &mut Ctx<A>,
    ) -> Step<()> {
        if *starved {
            return Step::Starved;
        }
        match fairing.on_request(alloc, request, body, ctx) {
            Ok(()) => Step::Done(()),
            Err(_) => {
                *starved = true;
                Step::Starved
            }
        }
    }

    ghost keeps = { changing_request_keeps _ };
}

impl<A: Types, F: ChangesResponse<A>> ResponseCallback<A, F> for AtOnce {
    ghost use Rattle.rkt_adhoc.specs.Changes.{changing_response, changing_response_keeps};

    type Task = bool;

    ghost calling = { changing_response F.may };

    fn start(_fairing: &F, _request: &Request<'_, A>) -> bool {
        false
    }

    fn poll(
        fairing: &F,
        alloc: Global,
        starved: &mut bool,
        request: &Request<'_, A>,
        response: &mut Response<A::Stream>,
        ctx: &mut Ctx<A>,
    ) -> Step<()> {
        if *starved {
            return Step::Starved;
        }
        match fairing.on_response(alloc, request, response, ctx) {
            Ok(()) => Step::Done(()),
            Err(_) => {
                *starved = true;
                Step::Starved
            }
        }
    }

    ghost keeps = { changing_response_keeps _ };
}
