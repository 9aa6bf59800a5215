//! The state of a launch.
use crate::{Event, Record};
use rkt_base::Seq;
use rkt_fairing::Called;
use rkt_link::{CancellableListener, Listener};
use rkt_request::Types;
use rkt_source::CancellableIo;
use rkt_turn::Shutdown;
use std::marker::PhantomData;
use std::snapshot::Snapshot;

/// What a board stands for: what is served of an application, the calls at liftoff, and the rest as it was handed in.
#[derive(Drop)]
pub struct Initial<A, P, L, C, H> {
    pub app: PhantomData<A>,
    pub served: P,
    pub listener: Snapshot<L>,
    pub clock: Snapshot<C>,
    pub handle: Snapshot<H>,
    pub calls: Snapshot<Seq<Called>>,
}

/// What has happened, counted, with room for what is to come and for the history of it all.
#[derive(Drop)]
pub struct Log<M, E> {
    pub records: Vec<M>,
    pub history: Vec<E>,
    /// How many links were given.
    pub admitted: u64,
    /// How many of these have no End.
    pub opens: usize,
    pub tripped: bool,
    pub down: bool,
    pub closed: bool,
}

/// What is looked at.
#[derive(Drop)]
pub struct Outside<L, C, H> {
    pub listener: L,
    pub clock: C,
    pub handle: H,
    /// The listener has ended.
    pub over: bool,
    /// The listener has failed.
    pub faulted: bool,
}

/// The state of a launch. It is generic in its parts, so that each of them by itself says whether it crosses threads.
#[derive(Drop)]
pub struct Board<N, B, X> {
    pub name: N,
    pub log: B,
    pub outside: X,
}

/// The name of the board of an application's launch.
pub type InitialOf<A, P, L, C> = Initial<A, P, L, C, Shutdown<<A as Types>::Reason>>;

/// The state of an application's launch.
pub type BoardOf<A, P, L, C> = Board<
    InitialOf<A, P, L, C>,
    Log<Record<A, <L as Listener>::Link>, Event<A, <L as Listener>::Link>>,
    Outside<CancellableListener<L>, C, Shutdown<<A as Types>::Reason>>,
>;

/// What a turn of a worker came to.
#[derive(Drop)]
pub enum Stepped<K> {
    /// A link was admitted under this number, at this moment, and nothing has cut it off yet.
    Given {
        number: u64,
        moment: u64,
        link: CancellableIo<K>,
    },
    /// This turn has entered the Trip.
    Tripped,
    /// There is no link yet.
    Again,
    /// Nothing will be admitted any more, or there is no memory for it.
    Stop,
}
