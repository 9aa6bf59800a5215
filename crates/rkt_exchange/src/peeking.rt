//! A peek at the front of a body, poll by poll.
ghost use Rattle.rkt_exchange.specs.Peeks.{MethodPeeked, PeekGives, cut_reads, cuts};

use rkt_base::Poll;
use rkt_data::{Data, Gate, Source};
use rkt_dispatch::{method_in, override_method};
use rkt_http::Method;
use rkt_request::{Body0, Ctx, Request, Types};
use rkt_routing::Progress;

/// As many bytes are peeked at as the longest field has that sets a method.
const PEEKED: usize = "_method=delete".len();

/// A request whose body is peeked at: R is the type of requests, B that of bodies, X that of contexts.
#[derive(Drop)]
pub struct PeekingOf<R, B, X> {
    pub request: R,
    pub body: B,
    pub ctx: X,
}

/// A request of an application whose body is peeked at.
pub type Peeking<'a, T> = PeekingOf<Request<'a, T>, Body0<T>, Ctx<T>>;

// The method that the front of a body sets, once enough of it is held.
fn peek_method<S: Source>(body: &mut Data<S>, gate: Gate) -> Poll<Option<Method>>
    ensures { MethodPeeked S.meaning S.polled gate body.old body.new result }
{
    match body.peek(gate, PEEKED) {
        Poll::Pending => Poll::Pending,
        Poll::Ready(front) => Poll::Ready(method_in(front)),
    }
}

impl<'a, T: Types> PeekingOf<Request<'a, T>, Body0<T>, Ctx<T>> {
    /// Goes on under a Gate, until the body's source is Pending or enough is held; the request has its method then.
    pub fn poll(self, gate: Gate) -> Progress<Peeking<'a, T>, Peeking<'a, T>>
        ensures { PeekGives (cuts T.Source.meaning) (cut_reads T.Source.shuts T.Source.polled) gate self.entry result }
    {
        let PeekingOf {
            mut request,
            mut body,
            ctx,
        } = self;
        match peek_method(&mut body, gate) {
            Poll::Pending => Progress::Pending(PeekingOf { request, body, ctx }),
            Poll::Ready(method) => {
                override_method(&mut request, method);
                Progress::Ready(PeekingOf { request, body, ctx })
            }
        }
    }
}
