//! Handlers that an author writes as one answer to what a body is read as, and proves nothing of.
ghost use Rattle.std.specs.Prelude.{◌≡◌, IfOk, ⊤};
ghost use Rattle.rkt_request.specs.Lent.{Lent, MayGrow};
ghost use Rattle.rkt_request.specs.Seen.{Seen};
ghost use Rattle.rkt_router.specs.Steps.{StepsTo};
ghost use Rattle.rkt_answers.specs.Replies.{MadeBy};
ghost use Rattle.rkt_answers.specs.Answers.{Responds};
ghost use Rattle.rkt_answers.specs.AnswersData.{IsAnsweredAs, IsWaiting};

use crate::from;
use rkt_base::{NoMemory, Poll};
use rkt_http::{Outcome, Status};
use rkt_request::{Body0, Ctx, DataOutcome, FromData, Request, Types};
use rkt_response::Responder;
use rkt_router::{Handler, RouteOutcome, Step};
use std::alloc::Global;

/// What answers requests with a value, of what their bodies are read as. One that says nothing of itself may answer any value.
pub trait AnswersData<T: Types> {
    /// What a body is read as.
    type Data: FromData<T>;

    type Value: Responder<T>;

    /// Which value it may answer to a request with such a body, and what it leaves of the context that it is lent.
    ghost may: { Self → Seen T.Value → Self.Data → Lent T.Cached → Self.Value → Lent T.Cached → Type 0 } = { λ _ _ _ _ _ _. ⊤ };

    /// The value.
    fn answer(
        &self,
        alloc: Global,
        request: &Request<'_, T>,
        taken: Self::Data,
        ctx: &mut Ctx<T>,
    ) -> Result<Self::Value, NoMemory>
        ensures answers { IfOk result (λ value. may self.now request.now taken ctx.old value ctx.new) }
        ensures grows { MayGrow ctx.old ctx.new };
}

/// The handler that reads the body and answers with the value of `AnswersData`. A body that is refused is answered with the
/// status of the refusal; so is one that its guard leaves to another route, since that does not say that the body comes back.
#[derive(Clone, Copy, Debug, Drop, PartialEq, Eq)]
pub struct AnsweringData<A>(pub A);

/// A body that is being read.
#[derive(Drop)]
pub struct Taking<R> {
    /// None once it is over.
    reading: Option<R>,
    /// How often it may be Pending yet.
    left: u32,
}

/// The step of a handler whose body is read so.
fn data_step<T: Types, A: AnswersData<T>>(
    alloc: Global,
    handler: &A,
    request: &Request<'_, T>,
    ctx: &mut Ctx<T>,
    outcome: DataOutcome<A::Data, <A::Data as FromData<T>>::Error, Body0<T>>,
) -> Step<RouteOutcome<T>>
    ensures steps { StepsTo result
        (λ reply.
        IsAnsweredAs (A.may handler.now request.now) (λ value. A.Value.may value request.now) ctx.old outcome reply ctx.new) ⊤ }
    ensures grows { MayGrow ctx.old ctx.new }
{
    match outcome {
        Outcome::Success(taken) => value_step(alloc, handler, request, ctx, taken),
        Outcome::Error((status, _)) => Step::Done(Outcome::Error(status)),
        Outcome::Forward((_, status)) => Step::Done(Outcome::Error(status)),
    }
}

/// The same with what the body was read as.
fn value_step<T: Types, A: AnswersData<T>>(
    alloc: Global,
    handler: &A,
    request: &Request<'_, T>,
    ctx: &mut Ctx<T>,
    taken: A::Data,
) -> Step<RouteOutcome<T>>
    ensures steps { StepsTo result
        (λ reply. MadeBy (λ answer.
        Responds (A.may handler.now request.now taken) (λ value. A.Value.may value request.now) ctx.old answer ctx.new) reply)
        ⊤ }
    ensures grows { MayGrow ctx.old ctx.new }
{
    let Ok(value) = handler.answer(alloc, request, taken, ctx) else {
        return Step::Starved;
    };
    match from(alloc, request, ctx, value) {
        Ok(reply) => Step::Done(reply),
        Err(_) => Step::Starved,
    }
}

impl<T: Types, A: AnswersData<T>> Handler<T> for AnsweringData<A> {
    ghost use Rattle.rkt_answers.specs.AnswersData.{taking, taking_keeps};

    type Task = Taking<<A::Data as FromData<T>>::Reading>;

    ghost calling = { taking A.Data.guarding (λ handler. A.may handler.0) A.Value.may };

    fn start(
        &self,
        request: &Request<'_, T>,
        body: Body0<T>,
    ) -> Taking<<A::Data as FromData<T>>::Reading> {
        Taking {
            reading: Some(A::Data::from_data(request, body)),
            left: u32::MAX,
        }
    }

    fn poll(
        &self,
        alloc: Global,
        task: &mut Taking<<A::Data as FromData<T>>::Reading>,
        request: &Request<'_, T>,
        ctx: &mut Ctx<T>,
    ) -> Step<RouteOutcome<T>> {
        let Some(mut reading) = task.reading.take() else {
            return Step::Starved;
        };
        match A::Data::poll_data(alloc, &mut reading, ctx.gate()) {
            Poll::Ready(Ok(outcome)) => data_step(alloc, &self.0, request, ctx, outcome),
            Poll::Ready(Err(_)) => Step::Starved,
            Poll::Pending => task.waits(reading),
        }
    }

    ghost keeps = { taking_keeps _ _ _ _ };
}

impl<R: Drop> Taking<R> {
    /// The step of a reading that was Pending: the turn fails where it was so too often.
    fn waits<A>(&mut self, reading: R) -> Step<A>
        ensures { IsWaiting reading self.old result self.new }
    {
        if self.left == 0 {
            return Step::Fault;
        }
        self.left -= 1;
        self.reading = Some(reading);
        Step::Pending
    }
}
