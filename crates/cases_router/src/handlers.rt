//! Callbacks of the application.
use rkt_cookie::Cookie;
use rkt_data::MemorySource;
use rkt_http::{Outcome, Status};
use rkt_request::{Body0, Ctx, Request};
use rkt_response::Response;
use rkt_router::{CatchHandler, Handler, Step};
use sample_app::Sample;
use std::alloc::Global;

/// Leaves each request to another route.
pub struct Passes;

impl Handler<Sample> for Passes {
    ghost use Rattle.std.specs.Prelude.{◌≡◌, Some, refl};
    ghost use Rattle.rkt_http.specs.declared.outcome.Outcome.TheVariants.{Forward};
    ghost use Rattle.rkt_request.specs.LentLaws.{grows_same};
    ghost use Rattle.rkt_router.specs.CallbackLaws.{at_once_keeps};
    ghost use Rattle.rkt_router.specs.Callbacks.{at_once};

    type Task = Option<Body0<Sample>>;

    ghost calling = { at_once (λ _ handed task. task ≡ Some handed.body)
        (λ _ handed before reply after. (reply ≡ Forward (handed.body, record { code = 422 })) × (after ≡ before)) };

    fn start(&self, _request: &Request<'_, Sample>, body: Body0<Sample>) -> Option<Body0<Sample>> {
        Some(body)
    }

    fn poll(
        &self,
        _alloc: Global,
        task: &mut Option<Body0<Sample>>,
        _request: &Request<'_, Sample>,
        _ctx: &mut Ctx<Sample>,
    ) -> Step<Outcome<Response<MemorySource>, Status, (Body0<Sample>, Status)>> {
        match task.take() {
            Some(body) => Step::Done(Outcome::Forward((body, Status::UnprocessableEntity))),
            None => unreachable!(),
        }
    }

    ghost keeps = { record {
      keeps = at_once_keeps _ _ (λ _ _ before after _ is. grows_same before after is.1);
      forwards = λ _ _ _ _ _ _ is. rw is.0 refl;
    } };
}

/// Is Pending once, and then answers an empty response.
pub struct Waits;

impl Handler<Sample> for Waits {
    ghost use Rattle.std.specs.Prelude.{◌≡◌};
    ghost use Rattle.rkt_http.specs.declared.outcome.Outcome.TheVariants.{Success};
    ghost use Rattle.rkt_message.specs.Response.{empty_response};
    ghost use Rattle.rkt_request.specs.LentLaws.{grows_same};

    // How many polls were Pending.
    type Task = u32;

    ghost calling = { record {
      may = λ _ _ before _ reply after. (reply ≡ Success empty_response) × (after ≡ before);
      begun = λ _ _ task before now _ n. (task ≡ n) × (now ≡ before);
      pendings = λ _ _ _. 1;
      may_fault = λ _ _ _. ⊥;
    } };

    fn start(&self, _request: &Request<'_, Sample>, _body: Body0<Sample>) -> u32 {
        0
    }

    fn poll(
        &self,
        alloc: Global,
        task: &mut u32,
        _request: &Request<'_, Sample>,
        _ctx: &mut Ctx<Sample>,
    ) -> Step<Outcome<Response<MemorySource>, Status, (Body0<Sample>, Status)>> {
        if *task == 0 {
            *task = 1;
            return Step::Pending;
        }
        Step::Done(Outcome::Success(Response::new(alloc)))
    }

    ghost keeps = { record {
      keeps = record {
        done = λ _ _ before after _ _ is. grows_same before after is.1;
        begun = λ _ _ _ before now _ _ is. grows_same before now is.1;
      };
      forwards = λ _ _ _ _ _ _ is. rw is.0 tt;
    } };
}

/// Adds a cookie, and leaves each request to another route.
pub struct Marks;

impl Handler<Sample> for Marks {
    ghost use Rattle.cases_router.specs.Marks.{marks_calling, marks_keeps};

    type Task = Option<Body0<Sample>>;

    ghost calling = { marks_calling };

    fn start(&self, _request: &Request<'_, Sample>, body: Body0<Sample>) -> Option<Body0<Sample>> {
        Some(body)
    }

    fn poll(
        &self,
        alloc: Global,
        task: &mut Option<Body0<Sample>>,
        _request: &Request<'_, Sample>,
        ctx: &mut Ctx<Sample>,
    ) -> Step<Outcome<Response<MemorySource>, Status, (Body0<Sample>, Status)>> {
        let Ok(cookie) = Cookie::new(alloc, "mark", "1") else {
            return Step::Starved;
        };
        if ctx.cookies_mut().add(cookie).is_err() {
            return Step::Starved;
        }
        match task.take() {
            Some(body) => Step::Done(Outcome::Forward((body, Status::NotFound))),
            None => unreachable!(),
        }
    }

    ghost keeps = { marks_keeps _ };
}

/// Fails its turn.
pub struct Faults;

impl Handler<Sample> for Faults {
    ghost use Rattle.std.specs.Prelude.{◌≡◌, ⊤};
    ghost use Rattle.rkt_request.specs.LentLaws.{grows_same};

    type Task = ();

    ghost calling = { record {
      may = λ _ _ _ _ _ _. ⊥;
      begun = λ _ _ _ before now _ _. now ≡ before;
      pendings = λ _ _ _. 0;
      may_fault = λ _ _ _. ⊤;
    } };

    fn start(&self, _request: &Request<'_, Sample>, _body: Body0<Sample>) {}

    fn poll(
        &self,
        _alloc: Global,
        _task: &mut (),
        _request: &Request<'_, Sample>,
        _ctx: &mut Ctx<Sample>,
    ) -> Step<Outcome<Response<MemorySource>, Status, (Body0<Sample>, Status)>> {
        Step::Fault
    }

    ghost keeps = { record {
      keeps = record { done = λ _ _ _ _ _ _ is. absurd is; begun = λ _ _ _ before now _ _ is. grows_same before now is };
      forwards = λ _ _ _ _ _ _ is. absurd is;
    } };
}

/// Answers each status with itself.
pub struct Bare;

impl CatchHandler<Sample> for Bare {
    ghost use Rattle.std.specs.Prelude.{◌≡◌, Ok, ⊤};
    ghost use Rattle.rkt_response.specs.Responder.{status_alone};
    ghost use Rattle.rkt_request.specs.LentLaws.{grows_same};
    ghost use Rattle.rkt_router.specs.CallbackLaws.{at_once_keeps};
    ghost use Rattle.rkt_router.specs.Callbacks.{at_once};

    type Task = Status;

    ghost calling = { at_once (λ _ refused task. task ≡ refused.status)
        (λ _ refused before answer after. (answer ≡ Ok (status_alone refused.status.code)) × (after ≡ before)) };

    fn start(&self, status: Status, _request: &Request<'_, Sample>) -> Status {
        status
    }

    fn poll(
        &self,
        alloc: Global,
        task: &mut Status,
        _request: &Request<'_, Sample>,
        _ctx: &mut Ctx<Sample>,
    ) -> Step<Result<Response<MemorySource>, Status>> {
        let mut response = Response::new(alloc);
        response.set_status(*task);
        Step::Done(Ok(response))
    }

    ghost keeps = { at_once_keeps _ _ (λ _ _ before after _ is. grows_same before after is.1) };
}
