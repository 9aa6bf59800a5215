//! What answers for statuses where an application has no catcher of its own.
use rkt_http::Status;
use rkt_request::{Ctx, Request, Types};
use rkt_response::Response;
use rkt_router::{CatchHandler, Step, default_handler};
use std::alloc::Global;

/// Answers a status with its default page.
#[derive(Clone, Copy, Debug, PartialEq, Eq)]
pub struct DefaultCatcher;

impl<T: Types> CatchHandler<T> for DefaultCatcher {
    ghost use Rattle.rkt_answers.specs.DefaultCatcher.{default_calling, default_keeps};

    type Task = Status;

    ghost calling = { default_calling };

    fn start(&self, status: Status, _request: &Request<'_, T>) -> Status {
        status
    }

    fn poll(
        &self,
        alloc: Global,
        task: &mut Status,
        request: &Request<'_, T>,
        _ctx: &mut Ctx<T>,
    ) -> Step<Result<Response<T::Stream>, Status>> {
        match default_handler(alloc, *task, request) {
            Ok(page) => Step::Done(Ok(page)),
            Err(_) => Step::Starved,
        }
    }

    ghost keeps = { default_keeps };
}
