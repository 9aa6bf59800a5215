use crate::{Handler, Step};
use rkt_http::{Outcome, Status};
use rkt_message::Response;
use rkt_request::{Body0, Ctx, Request, Types};
use std::alloc::Global;

/// A handler that answers every request with an empty response.
#[derive(Clone, Copy, Debug, PartialEq, Eq)]
pub struct Dummy;

impl<T: Types> Handler<T> for Dummy {
    ghost use Rattle.rkt_router.specs.Dummies.{dummy_calling, dummy_keeps};

    type Task = ();

    ghost calling = { dummy_calling };

    fn start(&self, _request: &Request<'_, T>, _body: Body0<T>) {}

    fn poll(
        &self,
        alloc: Global,
        _task: &mut (),
        _request: &Request<'_, T>,
        _ctx: &mut Ctx<T>,
    ) -> Step<Outcome<Response<T::Stream>, Status, (Body0<T>, Status)>> {
        Step::Done(Outcome::Success(Response::new(alloc)))
    }

    ghost keeps = { dummy_keeps _ };
}
