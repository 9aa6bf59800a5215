//! Fairings of one kind of a rocket's life, each over a change that the caller made.
ghost use Rattle.std.specs.Prelude.{◌≡◌, IfOk, None, Ok, OnOk, Some, ⊤};
ghost use Rattle.rkt_router.specs.Steps.{StepsTo};
ghost use Rattle.rkt_turn.specs.HandsBack.{HandsBack};
ghost use Rattle.rkt_adhoc.specs.LifeChanges.{once, tried_once};

use crate::{AdHoc, AtOnce, ChangesBuilding, SeesLiftoff, SeesShutdown, TriesBuilding};
use rkt_base::NoMemory;
use rkt_fairing::{Attach, Building, Fairing, Info, Kind, Parts, Quiet, View};
use rkt_http::Key;
use rkt_router::Step;
use rkt_turn::Shutdown;
use std::alloc::Global;

impl AdHoc {
    /// One that changes the builder at ignition.
    pub fn on_ignite<C>(name: &'static str, key: Key, change: C) -> OnIgnite<C>
        ensures name { result.name.now ≡ name.now }
        ensures key { result.key ≡ key }
        ensures change { result.change ≡ Some change }
    {
        let change = Some(change);
        OnIgnite { name, key, change }
    }

    /// One that changes the builder at ignition, or refuses.
    pub fn try_on_ignite<C>(name: &'static str, key: Key, change: C) -> TryOnIgnite<C>
        ensures name { result.name.now ≡ name.now }
        ensures key { result.key ≡ key }
        ensures change { result.change ≡ Some change }
    {
        let change = Some(change);
        TryOnIgnite { name, key, change }
    }

    /// One that is called at liftoff.
    pub fn on_liftoff<C>(name: &'static str, key: Key, change: C) -> OnLiftoff<C>
        ensures name { result.name.now ≡ name.now }
        ensures key { result.key ≡ key }
        ensures change { result.change ≡ Some change }
    {
        let change = Some(change);
        OnLiftoff { name, key, change }
    }

    /// One that is called at a shutdown.
    pub fn on_shutdown<C>(name: &'static str, key: Key, change: C) -> OnShutdown<C>
        ensures name { result.name.now ≡ name.now }
        ensures key { result.key ≡ key }
        ensures change { result.change ≡ change }
    {
        OnShutdown { name, key, change }
    }
}

/// A change of the builder under a name, which is made once.
#[derive(Drop)]
pub struct OnIgnite<C> {
    pub name: &'static str,
    pub key: Key,
    /// None once it was made.
    pub change: Option<C>,
}

impl<C> Attach for OnIgnite<C> {
    ghost use Rattle.rkt_adhoc.specs.AdHoc.{ignite_kind};

    ghost key = { λ ad_hoc. ad_hoc.key };

    ghost info = { λ ad_hoc. record { name = ad_hoc.name.now; kind = ignite_kind } };

    fn key(&self) -> Key {
        self.key
    }

    fn info(&self) -> Info {
        Info {
            name: self.name,
            kind: Kind::Ignite,
        }
    }
}

impl<A: Parts, G, C: ChangesBuilding<A, G> + Drop> TriesBuilding<A, G> for OnIgnite<C> {
    ghost use Rattle.std.specs.Prelude.{◌≡◌, Ok};
    ghost use Rattle.rkt_adhoc.specs.LifeChanges.{once};

    ghost may = { λ ad_hoc before answer left after. once C.may ad_hoc.change before left.change after × (answer ≡ Ok tt) };

    fn try_on_ignite(
        &mut self,
        alloc: Global,
        building: &mut Building<A, G>,
    ) -> Result<Result<(), ()>, NoMemory> {
        change_once(alloc, &mut self.change, building)?;
        Ok(Ok(()))
    }
}

impl<A: Parts, C: ChangesBuilding<A, OnIgnite<C>> + Drop> Fairing<A> for OnIgnite<C> {
    type Ignites = AtOnce;

    type Lifts = Quiet;

    type Requests = Quiet;

    type Responses = Quiet;

    type Shuts = Quiet;
}

impl<C> OnIgnite<C> {
    /// Makes the change at the first call, and answers whether there was memory. A later call changes nothing.
    pub fn run<A: Parts, G>(
        &mut self,
        alloc: Global,
        building: &mut Building<A, G>,
    ) -> Step<Result<(), ()>>
    where
        C: ChangesBuilding<A, G> + Drop,
        ensures name { self.new.name.now ≡ self.old.name.now }
        ensures key { self.new.key ≡ self.old.key }
        // For want of memory too it is not made again.
        ensures taken { self.new.change ≡ None }
        ensures changes { StepsTo result
            (λ answer. once C.may self.old.change building.old self.new.change building.new × (answer ≡ Ok tt)) ⊤ }
    {
        match change_once(alloc, &mut self.change, building) {
            Ok(()) => Step::Done(Ok(())),
            Err(_) => Step::Starved,
        }
    }
}

// Makes a change of the builder, unless it was made before.
fn change_once<A: Parts, G, C: ChangesBuilding<A, G> + Drop>(
    alloc: Global,
    change: &mut Option<C>,
    building: &mut Building<A, G>,
) -> Result<(), NoMemory>
    ensures taken { change.new ≡ None }
    ensures changes { OnOk result (once C.may change.old building.old change.new building.new) }
{
    match change.take() {
        Some(mut change) => change.on_ignite(alloc, building),
        None => Ok(()),
    }
}

/// A change of the builder under a name, which is made once, and may refuse.
#[derive(Drop)]
pub struct TryOnIgnite<C> {
    pub name: &'static str,
    pub key: Key,
    /// None once it was made.
    pub change: Option<C>,
}

impl<C> Attach for TryOnIgnite<C> {
    ghost use Rattle.rkt_adhoc.specs.AdHoc.{ignite_kind};

    ghost key = { λ ad_hoc. ad_hoc.key };

    ghost info = { λ ad_hoc. record { name = ad_hoc.name.now; kind = ignite_kind } };

    fn key(&self) -> Key {
        self.key
    }

    fn info(&self) -> Info {
        Info {
            name: self.name,
            kind: Kind::Ignite,
        }
    }
}

impl<A: Parts, G, C: TriesBuilding<A, G> + Drop> TriesBuilding<A, G> for TryOnIgnite<C> {
    ghost use Rattle.rkt_adhoc.specs.LifeChanges.{tried_once};

    ghost may = { λ ad_hoc before answer left after. tried_once C.may ad_hoc.change before answer left.change after };

    fn try_on_ignite(
        &mut self,
        alloc: Global,
        building: &mut Building<A, G>,
    ) -> Result<Result<(), ()>, NoMemory> {
        try_once(alloc, &mut self.change, building)
    }
}

impl<A: Parts, C: TriesBuilding<A, TryOnIgnite<C>> + Drop> Fairing<A> for TryOnIgnite<C> {
    type Ignites = AtOnce;

    type Lifts = Quiet;

    type Requests = Quiet;

    type Responses = Quiet;

    type Shuts = Quiet;
}

impl<C> TryOnIgnite<C> {
    /// Makes the change at the first call, and answers what it did, or that there was no memory. A later call changes nothing.
    pub fn run<A: Parts, G>(
        &mut self,
        alloc: Global,
        building: &mut Building<A, G>,
    ) -> Step<Result<(), ()>>
    where
        C: TriesBuilding<A, G> + Drop,
        ensures name { self.new.name.now ≡ self.old.name.now }
        ensures key { self.new.key ≡ self.old.key }
        // For want of memory too it is not made again.
        ensures taken { self.new.change ≡ None }
        ensures changes { StepsTo result
            (λ answer. tried_once C.may self.old.change building.old answer self.new.change building.new) ⊤ }
    {
        match try_once(alloc, &mut self.change, building) {
            Ok(answer) => Step::Done(answer),
            Err(_) => Step::Starved,
        }
    }
}

// The same of a change that may refuse.
fn try_once<A: Parts, G, C: TriesBuilding<A, G> + Drop>(
    alloc: Global,
    change: &mut Option<C>,
    building: &mut Building<A, G>,
) -> Result<Result<(), ()>, NoMemory>
    ensures taken { change.new ≡ None }
    ensures changes { IfOk result (λ answer. tried_once C.may change.old building.old answer change.new building.new) }
{
    match change.take() {
        Some(mut change) => change.try_on_ignite(alloc, building),
        None => Ok(Ok(())),
    }
}

/// What is called at liftoff under a name, once.
#[derive(Drop)]
pub struct OnLiftoff<C> {
    pub name: &'static str,
    pub key: Key,
    /// None once it was called.
    pub change: Option<C>,
}

impl<C> Attach for OnLiftoff<C> {
    ghost use Rattle.rkt_adhoc.specs.AdHoc.{liftoff_kind};

    ghost key = { λ ad_hoc. ad_hoc.key };

    ghost info = { λ ad_hoc. record { name = ad_hoc.name.now; kind = liftoff_kind } };

    fn key(&self) -> Key {
        self.key
    }

    fn info(&self) -> Info {
        Info {
            name: self.name,
            kind: Kind::Liftoff,
        }
    }
}

impl<A: Parts, C: SeesLiftoff<A> + Drop> SeesLiftoff<A> for OnLiftoff<C> {
    ghost use Rattle.rkt_adhoc.specs.LifeChanges.{once};

    ghost may = { λ ad_hoc view before left after. once (λ change. C.may change view) ad_hoc.change before left.change after };

    fn on_liftoff(
        &mut self,
        alloc: Global,
        view: &View<'_, A>,
        shutdown: &mut Shutdown<A::Reason>,
    ) -> Result<(), NoMemory> {
        see_once(alloc, &mut self.change, view, shutdown)
    }
}

impl<A: Parts, C: SeesLiftoff<A> + Drop> Fairing<A> for OnLiftoff<C> {
    type Ignites = Quiet;

    type Lifts = AtOnce;

    type Requests = Quiet;

    type Responses = Quiet;

    type Shuts = Quiet;
}

impl<C> OnLiftoff<C> {
    /// Makes the call the first time, and answers whether there was memory. A later time it changes nothing.
    pub fn run<A: Parts>(
        &mut self,
        alloc: Global,
        view: &View<'_, A>,
        shutdown: &mut Shutdown<A::Reason>,
    ) -> Step<()>
    where
        C: SeesLiftoff<A> + Drop,
        ensures name { self.new.name.now ≡ self.old.name.now }
        ensures key { self.new.key ≡ self.old.key }
        // For want of memory too it is not made again.
        ensures taken { self.new.change ≡ None }
        ensures changes { StepsTo result
            (λ _. once (λ change. C.may change view.now) self.old.change shutdown.old self.new.change shutdown.new) ⊤ }
        ensures hands_back { HandsBack shutdown.old shutdown.new }
    {
        match see_once(alloc, &mut self.change, view, shutdown) {
            Ok(()) => Step::Done(()),
            Err(_) => Step::Starved,
        }
    }
}

// Makes a call at liftoff, unless it was made before.
fn see_once<A: Parts, C: SeesLiftoff<A> + Drop>(
    alloc: Global,
    change: &mut Option<C>,
    view: &View<'_, A>,
    shutdown: &mut Shutdown<A::Reason>,
) -> Result<(), NoMemory>
    ensures taken { change.new ≡ None }
    ensures changes { OnOk result (once (λ change. C.may change view.now) change.old shutdown.old change.new shutdown.new) }
    ensures hands_back { HandsBack shutdown.old shutdown.new }
{
    match change.take() {
        Some(mut change) => change.on_liftoff(alloc, view, shutdown),
        None => Ok(()),
    }
}

/// What is called at a shutdown under a name.
#[derive(Drop)]
pub struct OnShutdown<C> {
    pub name: &'static str,
    pub key: Key,
    pub change: C,
}

impl<C> Attach for OnShutdown<C> {
    ghost use Rattle.rkt_adhoc.specs.AdHoc.{shutdown_kind};

    ghost key = { λ ad_hoc. ad_hoc.key };

    ghost info = { λ ad_hoc. record { name = ad_hoc.name.now; kind = shutdown_kind } };

    fn key(&self) -> Key {
        self.key
    }

    fn info(&self) -> Info {
        Info {
            name: self.name,
            kind: Kind::Shutdown,
        }
    }
}

impl<A: Parts, C: SeesShutdown<A>> SeesShutdown<A> for OnShutdown<C> {
    ghost may = { λ ad_hoc. C.may ad_hoc.change };

    fn on_shutdown(&self, alloc: Global, view: &View<'_, A>) -> Result<(), NoMemory> {
        self.change.on_shutdown(alloc, view)
    }
}

impl<A: Parts, C: SeesShutdown<A>> Fairing<A> for OnShutdown<C> {
    type Ignites = Quiet;

    type Lifts = Quiet;

    type Requests = Quiet;

    type Responses = Quiet;

    type Shuts = AtOnce;
}

impl<C> OnShutdown<C> {
    /// Makes the call, and answers whether there was memory.
    pub fn run<A: Parts>(&self, alloc: Global, view: &View<'_, A>) -> Step<()>
    where
        C: SeesShutdown<A>,
        ensures { StepsTo result (λ _. C.may self.now.change view.now) ⊤ }
    {
        match self.change.on_shutdown(alloc, view) {
            Ok(()) => Step::Done(()),
            Err(_) => Step::Starved,
        }
    }
}
