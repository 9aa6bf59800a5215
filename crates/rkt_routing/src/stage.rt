//! Where routing stands.
ghost use Rattle.std.specs.Prelude.{◌≡◌};

use crate::Call;
use rkt_base::Seq;
use rkt_http::Status;
use rkt_message::Response;
use rkt_request::{Body0, Ctx, Request, Types};
use rkt_router::{CatchHandler, Handler};

/// What callbacks are lent, and the calls that were made so far.
#[derive(Drop)]
pub struct Live<R, X> {
    pub request: R,
    pub ctx: X,
    pub calls: Seq<Call>,
}

/// The call of a route, which was Pending so many turns; `again` in the second walk.
#[derive(Drop)]
pub struct RouteTask<H> {
    pub position: usize,
    pub task: H,
    pub turn: u32,
    pub again: bool,
}

/// The call of a catcher for a status, which was Pending so many turns.
#[derive(Drop)]
pub struct CatcherTask<K> {
    pub status: Status,
    pub position: usize,
    pub task: K,
    pub turn: u32,
}

/// Where routing stands: B is the type of bodies, H and K are those of the tasks of handlers and of catchers.
#[derive(Drop)]
pub enum Stage<B, H, K> {
    /// The next route is to be found, behind one that was tried; `again` in the second walk.
    Next {
        behind: Option<usize>,
        body: B,
        status: Status,
        again: bool,
    },
    /// A route is being called.
    Trying(RouteTask<H>),
    /// A catcher is to be chosen.
    Catch {
        status: Status,
    },
    /// A catcher is being called.
    Catching(CatcherTask<K>),
}

/// Where routing stands, and what it holds there.
#[derive(Drop)]
pub struct Underway<R, X, G> {
    pub live: Live<R, X>,
    pub stage: G,
}

/// What a move leads to.
#[derive(Drop)]
pub enum Moved<G, R> {
    Going(G),
    /// A callback was Pending.
    Pending(G),
    Ended(R),
    /// There was no memory.
    Starved,
}

/// What routing comes to: R is the type of requests, X that of contexts, S that of streams, W that of handles.
#[derive(Drop)]
pub enum RoutedOf<R, X, S, W> {
    Found {
        live: Live<R, X>,
        response: Response<S>,
    },
    /// There was no memory.
    Starved {
        shutdown: W,
    },
}

/// What an application's callbacks are lent for a request.
pub type LiveOf<'a, T> = Live<Request<'a, T>, Ctx<T>>;

impl<'a, T: Types> Live<Request<'a, T>, Ctx<T>> {
    /// The context and the calls; the request is let go.
    pub fn without_request(self) -> (Ctx<T>, Seq<Call>)
        ensures ctx { result.0 ≡ self.entry.ctx }
        ensures calls { result.1 ≡ self.entry.calls }
    {
        let Live {
            request,
            ctx,
            calls,
        } = self;
        drop(request);
        (ctx, calls)
    }
}

/// Where routing stands, for an application.
pub type StageOf<T, H, K> = Stage<Body0<T>, <H as Handler<T>>::Task, <K as CatchHandler<T>>::Task>;

/// What a move of routing leads to, for an application.
pub type MovedOf<T, H, K> = Moved<StageOf<T, H, K>, Response<<T as Types>::Stream>>;

/// Where routing stands, and what it holds there, for an application.
pub type UnderwayOf<'a, T, H, K> = Underway<Request<'a, T>, Ctx<T>, StageOf<T, H, K>>;
