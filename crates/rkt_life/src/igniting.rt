//! What a rocket is made of once it has ignited.
use crate::{Ignite, Orbit};
use rkt_exchange::TablesOf;
use rkt_fairing::{App, Parts};
use rkt_request::{ConfigTable, Types};
use rkt_turn::{Reason, Shutdown};
use std::marker::{Model, PhantomData};

/// What a rocket serves by, with a handle of its wire, in a phase.
#[derive(Drop)]
pub struct IgnitedOf<P, F, H, K, N, V, W: Reason> {
    pub(crate) phase: PhantomData<P>,
    pub(crate) tables: TablesOf<F, H, K, N, V>,
    /// What the configuration was read of.
    pub(crate) table: ConfigTable,
    pub(crate) handle: Shutdown<W>,
}

/// What an application's rocket is made of that may be launched.
pub type Igniting<A> = IgnitedOf<
    Ignite,
    <A as App>::Fairing,
    <A as Parts>::Handler,
    <A as Parts>::Catch,
    <A as Parts>::Sentinel,
    <A as Types>::Value,
    <A as Types>::Reason,
>;

/// What an application's rocket is made of that serves.
pub type Orbiting<A> = IgnitedOf<
    Orbit,
    <A as App>::Fairing,
    <A as Parts>::Handler,
    <A as Parts>::Catch,
    <A as Parts>::Sentinel,
    <A as Types>::Value,
    <A as Types>::Reason,
>;

impl<P, F, H, K, N, V, W: Reason> Model for IgnitedOf<P, F, H, K, N, V, W> {
    ghost use Rattle.rkt_life.specs.Rocket.{SeenRocket};

    ghost Value = { SeenRocket F H K N V };

    ghost view = { λ i. record { tables = i.tables; table = i.table; handle = i.handle } };
}
