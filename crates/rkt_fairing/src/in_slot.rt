//! How what is attached is called: the shield, or a fairing of the application.
ghost use Rattle.std.specs.Prelude.{◌≡◌};
ghost use Rattle.rkt_router.specs.Steps.{StepsTo};
ghost use Rattle.rkt_fairing.specs.InSlot.{shielded};

use crate::shielded::add_absent;
use crate::{RequestCallback, ResponseCallback, Slot};
use rkt_data::Source;
use rkt_message::Response;
use rkt_request::{Body0, Ctx, Request, Types};
use rkt_router::Step;
use rkt_shield::Shield;
use std::alloc::Global;
use std::marker::PhantomData;

/// Stands for how slots are called whose fairings are called as `P` says. A shield changes no request, and adds its headers to
/// a response, unless it has such headers of its own.
#[derive(Clone, Copy, Debug, Drop)]
pub struct InSlot<P> {
    callback: PhantomData<P>,
}

impl<T: Types, F, P: RequestCallback<T, F>> RequestCallback<T, Slot<F>> for InSlot<P> {
    ghost use Rattle.rkt_fairing.specs.InSlot.{slot_request, slot_request_keeps};

    type Task = Option<P::Task>;

    ghost calling = { slot_request P.calling };

    fn start(slot: &Slot<F>) -> Option<P::Task> {
        match slot {
            Slot::Shield(_) => None,
            Slot::App(fairing) => Some(P::start(fairing)),
        }
    }

    fn poll(
        slot: &Slot<F>,
        alloc: Global,
        task: &mut Option<P::Task>,
        request: &mut Request<'_, T>,
        body: &mut Body0<T>,
        ctx: &mut Ctx<T>,
    ) -> Step<()> {
        match slot {
            Slot::Shield(_) => Step::Done(()),
            Slot::App(fairing) => match task {
                Some(task) => P::poll(fairing, alloc, task, request, body, ctx),
                None => unreachable!(),
            },
        }
    }

    ghost keeps = { slot_request_keeps P.keeps };
}

/// Adds the headers of a shield, and answers whether there was memory.
fn shield_response<S: Source>(shield: &Shield, response: &mut Response<S>) -> Step<()>
    ensures { StepsTo result (λ _. response.new ≡ shielded shield.now response.old) (response.new ≡ response.old) }
{
    match add_absent(shield.headers(), response) {
        Ok(()) => Step::Done(()),
        Err(_) => Step::Starved,
    }
}

impl<T: Types, F, P: ResponseCallback<T, F>> ResponseCallback<T, Slot<F>> for InSlot<P> {
    ghost use Rattle.rkt_fairing.specs.InSlot.{slot_response, slot_response_keeps};

    type Task = Option<P::Task>;

    ghost calling = { slot_response P.calling };

    fn start(slot: &Slot<F>, request: &Request<'_, T>) -> Option<P::Task> {
        match slot {
            Slot::Shield(_) => None,
            Slot::App(fairing) => Some(P::start(fairing, request)),
        }
    }

    fn poll(
        slot: &Slot<F>,
        alloc: Global,
        task: &mut Option<P::Task>,
        request: &Request<'_, T>,
        response: &mut Response<T::Stream>,
        ctx: &mut Ctx<T>,
    ) -> Step<()> {
        match slot {
            Slot::Shield(shield) => shield_response(shield, response),
            Slot::App(fairing) => match task {
                Some(task) => P::poll(fairing, alloc, task, request, response, ctx),
                None => unreachable!(),
            },
        }
    }

    ghost keeps = { slot_response_keeps P.keeps };
}
