//! What an application's exchanges go by, and what is called of it at liftoff and at a shutdown.
ghost use Rattle.std.specs.List.{Contains};
ghost use Rattle.std.specs.Prelude.{◌≡◌, ◌≤◌, [], ℕ, IfOk, OnErr, length, slice_get, vec_capacity};
ghost use Rattle.rkt_fairing.specs.Lifts.{Lifts};
ghost use Rattle.rkt_fairing.specs.ShutsDown.{ShutsDown};
ghost use Rattle.rkt_turn.specs.HandsBack.{HandsBack};
ghost use Rattle.rkt_exchange.specs.View.{view_of};

use rkt_base::{NoMemory, Seq};
use rkt_fairing::{App, Called, Fairing, Fairings, Parts, ViewOf, down_room, liftoff, shut_down};
use rkt_request::{Config, Managed, Types};
use rkt_router::Router;
use rkt_turn::Shutdown;
use std::alloc::Global;
use std::marker::Model;

/// What an application's exchanges go by.
#[derive(Drop)]
pub struct TablesOf<F, H, K, N, V> {
    pub router: Router<H, K, N>,
    pub fairings: Fairings<F>,
    /// What is lent to every request.
    pub config: Config,
    pub managed: Managed<V>,
}

/// The tables of an application.
pub type Tables<A> = TablesOf<
    <A as App>::Fairing,
    <A as Parts>::Handler,
    <A as Parts>::Catch,
    <A as Parts>::Sentinel,
    <A as Types>::Value,
>;

impl<F, H, K, N, V> Model for TablesOf<F, H, K, N, V> {
    ghost use Rattle.rkt_exchange.specs.Tables.{SeenTables};

    ghost Value = { SeenTables F H K N V };

    ghost view = { λ t. record { router = t.router; fairings = t.fairings; config = t.config; managed = t.managed } };
}

// What fairings see of the tables: all but themselves.
fn view<'a, H, K, N, V>(
    config: &'a Config,
    managed: &'a Managed<V>,
    router: &'a Router<H, K, N>,
) -> ViewOf<'a, H, K, N, V>
    ensures { result ≡ record { config = config.entry.now; managed = managed.entry.now; router = router.entry.now } }
{
    ViewOf {
        config,
        managed,
        router,
    }
}

impl<F, H, K, N, V> TablesOf<F, H, K, N, V> {
    /// Calls the fairings of liftoff in the order in which they were attached, and answers how each call ended. The room for
    /// that is made first.
    pub fn liftoff<A: Parts<Handler = H, Catch = K, Sentinel = N> + Types<Value = V>>(
        &mut self,
        alloc: Global,
        shutdown: &mut Shutdown<A::Reason>,
    ) -> Result<Seq<Called>, NoMemory>
    where
        F: Fairing<A>,
        // Each call is one of its fairing, on what those before it left.
        ensures lifts { IfOk result (λ calls. Lifts F.Lifts.calling (view_of self.old)
            (record { fairings = self.old.fairings; shutdown = shutdown.old }) calls
            (record { fairings = self.new.fairings; shutdown = shutdown.new })) }
        // A fairing that is not called at liftoff stays as it is.
        ensures others { (place : ℕ) → ¬ Contains self.old.fairings.places.liftoff place
            → slice_get self.new.fairings.slots place ≡ slice_get self.old.fairings.slots place }
        // Nothing but the fairings themselves differs.
        ensures tables { self.new ≡ record self.old { fairings = self.new.fairings } }
        ensures kept { self.new.fairings ≡ record self.old.fairings { slots = self.new.fairings.slots } }
        ensures handle { HandsBack shutdown.old shutdown.new }
        // For want of memory nothing was called.
        ensures err { OnErr result ((self.new ≡ self.old) × (shutdown.new ≡ shutdown.old)) }
    {
        let view = view(&self.config, &self.managed, &self.router);
        liftoff::<A, F, <F as Fairing<A>>::Lifts>(alloc, &mut self.fairings, &view, shutdown)
    }

    /// An empty list with room for a call of each fairing that is called at a shutdown.
    pub fn down_room(&self, alloc: Global) -> Result<Vec<Called>, NoMemory>
        ensures empty { IfOk result (λ room. room.items ≡ []) }
        ensures room { IfOk result (λ room. length self.now.fairings.places.shutdown ≤ vec_capacity room) }
    {
        down_room(alloc, &self.fairings)
    }

    /// Calls the fairings of a shutdown in the order in which they were attached, and answers how each call ended, in the room
    /// that is handed in. It takes no memory.
    pub fn shut_down<A: Parts<Handler = H, Catch = K, Sentinel = N> + Types<Value = V>>(
        &self,
        alloc: Global,
        room: Vec<Called>,
    ) -> Seq<Called>
    where
        F: Fairing<A>,
        requires empty { room.items ≡ [] }
        requires room { length self.now.fairings.places.shutdown ≤ vec_capacity room }
        // Each call is one of its fairing.
        ensures { ShutsDown F.Shuts.calling (view_of self.now) self.now.fairings result }
    {
        let view = view(&self.config, &self.managed, &self.router);
        shut_down::<A, F, <F as Fairing<A>>::Shuts>(alloc, &self.fairings, &view, room)
    }
}
