//! Handlers and catchers that an author writes as one answer, and proves nothing of.
ghost use Rattle.std.specs.Prelude.{◌≡◌, IfOk, ⊤};
ghost use Rattle.rkt_http.specs.declared.outcome.Outcome.{Outcome};
ghost use Rattle.rkt_http.specs.declared.status.Status.{Status};
ghost use Rattle.rkt_request.specs.Lent.{Lent, MayGrow};
ghost use Rattle.rkt_request.specs.Seen.{Seen};
ghost use Rattle.rkt_router.specs.Steps.{StepsTo};
ghost use Rattle.rkt_answers.specs.Answers.{RepliesAs, answer_step};
ghost use Rattle.rkt_router.specs.Callbacks.{Refused};

use crate::outcome::from;
use rkt_base::{NoMemory, Want};
use rkt_http::{Outcome, Status};
use rkt_request::{Body0, Ctx, Request, Types};
use rkt_response::{Responder, Response, ResponseResult};
use rkt_router::{CatchHandler, Handler, RouteOutcome, Step};
use rkt_source::Source;
use std::alloc::Global;

/// What answers requests with a value, of a type that says nothing of itself: then it may be any value.
pub trait Answers<T: Types> {
    type Value: Responder<T>;

    /// Which value it may answer to a request.
    ghost may: { Self → Seen T.Value → Self.Value → Type 0 } = { λ _ _ _. ⊤ };

    /// The value.
    fn answer(&self, alloc: Global, request: &Request<'_, T>) -> Result<Self::Value, NoMemory>
        ensures { IfOk result (may self.now request.now) };
}

/// The same, with what is lent beside the request. What that leaves has grown.
pub trait AnswersWith<T: Types> {
    type Value: Responder<T>;

    /// Which value it may answer to a request, and what it leaves of the context that it is lent.
    ghost may: { Self → Seen T.Value → Lent T.Cached → Self.Value → Lent T.Cached → Type 0 } = { λ _ _ _ _ _. ⊤ };

    /// The value.
    fn answer(
        &self,
        alloc: Global,
        request: &Request<'_, T>,
        ctx: &mut Ctx<T>,
    ) -> Result<Self::Value, NoMemory>
        ensures answers { IfOk result (λ value. may self.now request.now ctx.old value ctx.new) }
        ensures grows { MayGrow ctx.old ctx.new };
}

/// The same, where it may answer with a status too, or leave the request with a status to another route.
pub trait AnswersIf<T: Types> {
    type Value: Responder<T>;

    /// What it may answer to a request, and what it leaves of the context that it is lent.
    ghost may: { Self → Seen T.Value → Lent T.Cached → Outcome Self.Value Status Status → Lent T.Cached
        → Type 0 } = { λ _ _ _ _ _. ⊤ };

    /// The value, or why there is none.
    fn answer(
        &self,
        alloc: Global,
        request: &Request<'_, T>,
        ctx: &mut Ctx<T>,
    ) -> Result<Outcome<Self::Value, Status, Status>, NoMemory>
        ensures answers { IfOk result (λ outcome. may self.now request.now ctx.old outcome ctx.new) }
        ensures grows { MayGrow ctx.old ctx.new };
}

/// What answers for a status with a value, of a type that says nothing of itself: then it may be any value.
pub trait Catches<T: Types> {
    type Value: Responder<T>;

    /// Which value it may answer for the status of a request.
    ghost may: { Self → Refused T.Value → Self.Value → Type 0 } = { λ _ _ _. ⊤ };

    /// The value.
    fn catch(
        &self,
        alloc: Global,
        status: Status,
        request: &Request<'_, T>,
    ) -> Result<Self::Value, NoMemory>
        ensures { IfOk result (may self.now (record { status = status; request = request.now })) };
}

/// The same, with what is lent beside the request. What that leaves has grown.
pub trait CatchesWith<T: Types> {
    type Value: Responder<T>;

    /// Which value it may answer for the status of a request, and what it leaves of the context that it is lent.
    ghost may: { Self → Refused T.Value → Lent T.Cached → Self.Value → Lent T.Cached → Type 0 } = { λ _ _ _ _ _. ⊤ };

    /// The value.
    fn catch(
        &self,
        alloc: Global,
        status: Status,
        request: &Request<'_, T>,
        ctx: &mut Ctx<T>,
    ) -> Result<Self::Value, NoMemory>
        ensures answers { IfOk result (λ value.
            may self.now (record { status = status; request = request.now }) ctx.old value ctx.new) }
        ensures grows { MayGrow ctx.old ctx.new };
}

/// The handler, or the catcher, that answers with the value of `Answers`, or of `Catches`.
#[derive(Clone, Copy, Debug, Drop, PartialEq, Eq)]
pub struct Answering<A>(pub A);

/// The handler, or the catcher, that answers with the value of `AnswersWith`, or of `CatchesWith`.
#[derive(Clone, Copy, Debug, Drop, PartialEq, Eq)]
pub struct AnsweringWith<A>(pub A);

/// The handler that answers with the outcome of `AnswersIf`.
#[derive(Clone, Copy, Debug, Drop, PartialEq, Eq)]
pub struct AnsweringIf<A>(pub A);

/// The step of a catcher whose responder answers so.
fn answer_step<S: Source>(answer: ResponseResult<S>) -> Step<Result<Response<S>, Status>>
    ensures { result ≡ answer_step answer }
{
    match answer {
        Ok(response) => Step::Done(Ok(response)),
        Err(Want::Refused(status)) => Step::Done(Err(status)),
        Err(Want::NoMemory) => Step::Starved,
    }
}

impl<T: Types, A: Answers<T>> Handler<T> for Answering<A> {
    ghost use Rattle.std.specs.Prelude.{◌≡◌};
    ghost use Rattle.rkt_answers.specs.Answers.{answering, answering_keeps};

    /// None once it was polled.
    type Task = Option<()>;

    // Its value leaves the context as it was.
    ghost calling = { answering (λ handler request before value after. A.may handler.0 request value × (after ≡ before))
        A.Value.may };

    fn start(&self, _request: &Request<'_, T>, _body: Body0<T>) -> Option<()> {
        Some(())
    }

    fn poll(
        &self,
        alloc: Global,
        task: &mut Option<()>,
        request: &Request<'_, T>,
        ctx: &mut Ctx<T>,
    ) -> Step<RouteOutcome<T>> {
        let Some(()) = task.take() else {
            return Step::Starved;
        };
        let Ok(value) = self.0.answer(alloc, request) else {
            return Step::Starved;
        };
        match from(alloc, request, ctx, value) {
            Ok(reply) => Step::Done(reply),
            Err(_) => Step::Starved,
        }
    }

    ghost keeps = { answering_keeps _ _ _ };
}

impl<T: Types, A: AnswersWith<T>> Handler<T> for AnsweringWith<A> {
    ghost use Rattle.rkt_answers.specs.Answers.{answering, answering_keeps};

    /// None once it was polled.
    type Task = Option<()>;

    ghost calling = { answering (λ handler. A.may handler.0) A.Value.may };

    fn start(&self, _request: &Request<'_, T>, _body: Body0<T>) -> Option<()> {
        Some(())
    }

    fn poll(
        &self,
        alloc: Global,
        task: &mut Option<()>,
        request: &Request<'_, T>,
        ctx: &mut Ctx<T>,
    ) -> Step<RouteOutcome<T>> {
        let Some(()) = task.take() else {
            return Step::Starved;
        };
        let Ok(value) = self.0.answer(alloc, request, ctx) else {
            return Step::Starved;
        };
        match from(alloc, request, ctx, value) {
            Ok(reply) => Step::Done(reply),
            Err(_) => Step::Starved,
        }
    }

    ghost keeps = { answering_keeps _ _ _ };
}

/// The step of a handler whose value was made, or was not, with the body at hand.
fn outcome_step<T: Types, R: Responder<T>>(
    alloc: Global,
    request: &Request<'_, T>,
    ctx: &mut Ctx<T>,
    outcome: Outcome<R, Status, Status>,
    body: Body0<T>,
) -> Step<RouteOutcome<T>>
    ensures steps { StepsTo result
        (λ reply. RepliesAs (λ value. R.may value request.now) body outcome ctx.old reply ctx.new) ⊤ }
    ensures grows { MayGrow ctx.old ctx.new }
{
    match outcome {
        Outcome::Success(value) => match from(alloc, request, ctx, value) {
            Ok(reply) => Step::Done(reply),
            Err(_) => Step::Starved,
        },
        Outcome::Error(status) => Step::Done(Outcome::Error(status)),
        Outcome::Forward(status) => Step::Done(Outcome::Forward((body, status))),
    }
}

impl<T: Types, A: AnswersIf<T>> Handler<T> for AnsweringIf<A> {
    ghost use Rattle.rkt_answers.specs.Answers.{attempting, attempting_keeps};

    /// None once it was polled.
    type Task = Option<Body0<T>>;

    ghost calling = { attempting (λ handler. A.may handler.0) A.Value.may };

    fn start(&self, _request: &Request<'_, T>, body: Body0<T>) -> Option<Body0<T>> {
        Some(body)
    }

    fn poll(
        &self,
        alloc: Global,
        task: &mut Option<Body0<T>>,
        request: &Request<'_, T>,
        ctx: &mut Ctx<T>,
    ) -> Step<RouteOutcome<T>> {
        let Some(body) = task.take() else {
            return Step::Starved;
        };
        match self.0.answer(alloc, request, ctx) {
            Ok(outcome) => outcome_step(alloc, request, ctx, outcome, body),
            Err(_) => Step::Starved,
        }
    }

    ghost keeps = { attempting_keeps _ _ _ };
}

impl<T: Types, A: Catches<T>> CatchHandler<T> for Answering<A> {
    ghost use Rattle.std.specs.Prelude.{◌≡◌};
    ghost use Rattle.rkt_answers.specs.Answers.{catching, catching_keeps};

    /// None once it was polled.
    type Task = Option<Status>;

    // Its value leaves the context as it was.
    ghost calling = { catching (λ catcher refused before value after. A.may catcher.0 refused value × (after ≡ before))
        A.Value.may };

    fn start(&self, status: Status, _request: &Request<'_, T>) -> Option<Status> {
        Some(status)
    }

    fn poll(
        &self,
        alloc: Global,
        task: &mut Option<Status>,
        request: &Request<'_, T>,
        ctx: &mut Ctx<T>,
    ) -> Step<Result<Response<T::Stream>, Status>> {
        let Some(status) = task.take() else {
            return Step::Starved;
        };
        let Ok(value) = self.0.catch(alloc, status, request) else {
            return Step::Starved;
        };
        answer_step(value.respond_to(alloc, request, ctx))
    }

    ghost keeps = { catching_keeps _ _ };
}

impl<T: Types, A: CatchesWith<T>> CatchHandler<T> for AnsweringWith<A> {
    ghost use Rattle.rkt_answers.specs.Answers.{catching, catching_keeps};

    /// None once it was polled.
    type Task = Option<Status>;

    ghost calling = { catching (λ catcher. A.may catcher.0) A.Value.may };

    fn start(&self, status: Status, _request: &Request<'_, T>) -> Option<Status> {
        Some(status)
    }

    fn poll(
        &self,
        alloc: Global,
        task: &mut Option<Status>,
        request: &Request<'_, T>,
        ctx: &mut Ctx<T>,
    ) -> Step<Result<Response<T::Stream>, Status>> {
        let Some(status) = task.take() else {
            return Step::Starved;
        };
        let Ok(value) = self.0.catch(alloc, status, request, ctx) else {
            return Step::Starved;
        };
        answer_step(value.respond_to(alloc, request, ctx))
    }

    ghost keeps = { catching_keeps _ _ };
}
