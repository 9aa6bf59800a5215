use crate::{BuildingOf, Fairing};
use rkt_request::{Config, Managed, Types};
use rkt_router::{CatchHandler, Handler, Router};
use std::marker::Model;

/// The types of what answers an application's requests and statuses. That they answer them is asked where the application is
/// whole: a fairing is one for every application, whatever answers there.
pub trait Parts: Types + Sized {
    type Handler: Drop;

    type Catch: Drop;

    /// What a sentry asks before a rocket may be launched.
    type Sentinel: Drop;
}

/// An application: its parts, of which handlers answer requests and catchers statuses, and what may be attached to its rocket.
pub trait App: Parts<Handler: Handler<Self>, Catch: CatchHandler<Self>> {
    type Fairing: Fairing<Self> + Drop;
}

/// The builder of a rocket of these parts, for fairings of a type.
pub type Building<A, F> = BuildingOf<
    <A as Parts>::Handler,
    <A as Parts>::Catch,
    <A as Parts>::Sentinel,
    <A as Types>::Value,
    F,
>;

/// The builder of an application's rocket.
pub type AppBuilding<A> = Building<A, <A as App>::Fairing>;

/// What fairings see of a rocket in orbit.
#[derive(Drop)]
pub struct ViewOf<'a, H, K, N, V> {
    pub config: &'a Config,
    pub managed: &'a Managed<V>,
    pub router: &'a Router<H, K, N>,
}

/// The same of an application's rocket.
pub type View<'a, A> = ViewOf<
    'a,
    <A as Parts>::Handler,
    <A as Parts>::Catch,
    <A as Parts>::Sentinel,
    <A as Types>::Value,
>;

impl<'a, H, K, N, V> Model for ViewOf<'a, H, K, N, V> {
    ghost use Rattle.rkt_fairing.specs.Life.{SeenView};

    ghost Value = { SeenView H K N V };

    ghost view = { λ v. record { config = v.config.now; managed = v.managed.now; router = v.router.now } };
}
