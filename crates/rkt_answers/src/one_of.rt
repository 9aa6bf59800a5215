//! Two ways of answering in one type.
use rkt_http::Status;
use rkt_request::{Body0, Ctx, Request, Types};
use rkt_response::Response;
use rkt_router::{CatchHandler, Handler, RouteOutcome, Step};
use std::alloc::Global;

/// What answers in one of two ways, and a call of it: so pages of different kinds, or catchers, are of one type.
#[derive(Clone, Copy, Debug, Drop, PartialEq, Eq)]
pub enum OneOf<L, R> {
    First(L),
    Second(R),
}

impl<T: Types, L: Handler<T>, R: Handler<T>> Handler<T> for OneOf<L, R> {
    ghost use Rattle.rkt_answers.specs.OneOf.{one_of, one_of_keeps_handler};

    type Task = OneOf<L::Task, R::Task>;

    ghost calling = { one_of L.calling R.calling };

    fn start(&self, request: &Request<'_, T>, body: Body0<T>) -> OneOf<L::Task, R::Task> {
        match self {
            OneOf::First(handler) => OneOf::First(handler.start(request, body)),
            OneOf::Second(handler) => OneOf::Second(handler.start(request, body)),
        }
    }

    fn poll(
        &self,
        alloc: Global,
        task: &mut OneOf<L::Task, R::Task>,
        request: &Request<'_, T>,
        ctx: &mut Ctx<T>,
    ) -> Step<RouteOutcome<T>> {
        match self {
            OneOf::First(handler) => match task {
                OneOf::First(task) => handler.poll(alloc, task, request, ctx),
                OneOf::Second(_) => unreachable!(),
            },
            OneOf::Second(handler) => match task {
                OneOf::First(_) => unreachable!(),
                OneOf::Second(task) => handler.poll(alloc, task, request, ctx),
            },
        }
    }

    ghost keeps = { one_of_keeps_handler L.keeps R.keeps };
}

impl<T: Types, L: CatchHandler<T>, R: CatchHandler<T>> CatchHandler<T> for OneOf<L, R> {
    ghost use Rattle.rkt_answers.specs.OneOf.{one_of, one_of_keeps};

    type Task = OneOf<L::Task, R::Task>;

    ghost calling = { one_of L.calling R.calling };

    fn start(&self, status: Status, request: &Request<'_, T>) -> OneOf<L::Task, R::Task> {
        match self {
            OneOf::First(catcher) => OneOf::First(catcher.start(status, request)),
            OneOf::Second(catcher) => OneOf::Second(catcher.start(status, request)),
        }
    }

    fn poll(
        &self,
        alloc: Global,
        task: &mut OneOf<L::Task, R::Task>,
        request: &Request<'_, T>,
        ctx: &mut Ctx<T>,
    ) -> Step<Result<Response<T::Stream>, Status>> {
        match self {
            OneOf::First(catcher) => match task {
                OneOf::First(task) => catcher.poll(alloc, task, request, ctx),
                OneOf::Second(_) => unreachable!(),
            },
            OneOf::Second(catcher) => match task {
                OneOf::First(_) => unreachable!(),
                OneOf::Second(task) => catcher.poll(alloc, task, request, ctx),
            },
        }
    }

    ghost keeps = { one_of_keeps L.keeps R.keeps };
}
