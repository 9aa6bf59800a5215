//! Callbacks that do nothing.
use crate::{
    Building, IgniteCallback, LiftoffCallback, Parts, RequestCallback, ResponseCallback,
    ShutdownCallback, View,
};
use rkt_message::Response;
use rkt_request::{Body0, Ctx, Request, Types};
use rkt_router::Step;
use rkt_turn::Shutdown;
use std::alloc::Global;

/// Stands for not being called: it is done at once, and nothing has changed.
#[derive(Clone, Copy, Debug, PartialEq, Eq, Drop)]
pub struct Quiet;

impl<A: Types, F> RequestCallback<A, F> for Quiet {
    ghost use Rattle.rkt_fairing.specs.Callbacks.{quiet, quiet_keeps_request};

    type Task = ();

    ghost calling = { quiet };

    fn start(_fairing: &F) {}

    fn poll(
        _fairing: &F,
        _alloc: Global,
        _task: &mut (),
        _request: &mut Request<'_, A>,
        _body: &mut Body0<A>,
        _ctx: &mut Ctx<A>,
    ) -> Step<()> {
        Step::Done(())
    }

    ghost keeps = { quiet_keeps_request };
}

impl<A: Types, F> ResponseCallback<A, F> for Quiet {
    ghost use Rattle.rkt_fairing.specs.Callbacks.{quiet, quiet_keeps_response};

    type Task = ();

    ghost calling = { quiet };

    fn start(_fairing: &F, _request: &Request<'_, A>) {}

    fn poll(
        _fairing: &F,
        _alloc: Global,
        _task: &mut (),
        _request: &Request<'_, A>,
        _response: &mut Response<A::Stream>,
        _ctx: &mut Ctx<A>,
    ) -> Step<()> {
        Step::Done(())
    }

    ghost keeps = { quiet_keeps_response };
}

impl<A: Parts, F> IgniteCallback<A, F> for Quiet {
    ghost use Rattle.rkt_fairing.specs.Life.{quiet_ok};

    type Task = ();

    ghost calling = { quiet_ok };

    fn start(_fairing: &F) {}

    fn poll(
        _fairing: &mut F,
        _alloc: Global,
        _task: &mut (),
        _building: &mut Building<A, F>,
    ) -> Step<Result<(), ()>> {
        Step::Done(Ok(()))
    }
}

impl<A: Parts, F> LiftoffCallback<A, F> for Quiet {
    ghost use Rattle.rkt_fairing.specs.Callbacks.{quiet};
    ghost use Rattle.rkt_fairing.specs.Life.{quiet_keeps_liftoff};

    type Task = ();

    ghost calling = { quiet };

    fn start(_fairing: &F, _view: &View<'_, A>) {}

    fn poll(
        _fairing: &mut F,
        _alloc: Global,
        _task: &mut (),
        _view: &View<'_, A>,
        _shutdown: &mut Shutdown<A::Reason>,
    ) -> Step<()> {
        Step::Done(())
    }

    ghost keeps = { quiet_keeps_liftoff };
}

impl<A: Parts, F> ShutdownCallback<A, F> for Quiet {
    ghost use Rattle.rkt_fairing.specs.Callbacks.{quiet};

    type Task = ();

    ghost calling = { quiet };

    fn start(_fairing: &F, _view: &View<'_, A>) {}

    fn poll(_fairing: &F, _alloc: Global, _task: &mut (), _view: &View<'_, A>) -> Step<()> {
        Step::Done(())
    }
}
