//! A rocket that was built, and ignites.
ghost use Rattle.std.specs.Prelude.{◌≡◌, IfOk};
ghost use Rattle.rkt_base.specs.Want.{IfRefused};
ghost use Rattle.rkt_ignition.specs.Ignited.{IsIgnited, IsRefused};
ghost use Rattle.rkt_ignition.specs.Laws.{AtMostOneCatches, RanksDiffer};
ghost use Rattle.rkt_ignition.specs.Valid.{IsValid};
ghost use Rattle.rkt_life.specs.Ignition.{IgnitesTo};
ghost use Rattle.rkt_request.specs.Seen.{Seen};
ghost use Rattle.rkt_turn.specs.Shutdown.{fresh};

use crate::{Ignite, Rocket, RocketOf};
use rkt_base::Want;
use rkt_exchange::TablesOf;
use rkt_fairing::{App, AppBuilding, Fairing};
use rkt_ignition::{Aborts, IgniteError, at_most_one_catches, ignite, ranks_differ};
use std::alloc::Global;

impl<A: App<Sentinel: Aborts<A>>> RocketOf<AppBuilding<A>, A> {
    /// Calls the fairings of ignition, reads the configuration, and asks for collisions and sentinels. For want of memory, and
    /// where it is refused, all of it is dropped.
    pub fn ignite(self, alloc: Global) -> Result<Rocket<Ignite, A>, Want<IgniteError>>
        // It is made of what has ignited.
        ensures ignited { IfOk result (λ rocket.
            IgnitesTo (IsIgnited A.Fairing.Ignites.calling A.Fairing.key A.Fairing.info A.Sentinel.may self) rocket) }
        // Each refusal has its cause, and comes only where those before it did not.
        ensures refused { IfRefused result
            (IsRefused A.Fairing.Ignites.calling A.Fairing.key A.Fairing.info A.Sentinel.may self) }
        // Where none of its ignitions can be refused, it ignites, as long as there is memory.
        ensures complete { IsValid A.Fairing.Ignites.calling A.Fairing.key A.Fairing.info A.Sentinel.may self
            → IfRefused result (λ _. ⊥) }
        ensures fresh { IfOk result (λ rocket. rocket.handle ≡ fresh rocket.handle.wire) }
        // Two different routes that match one request differ in rank.
        ensures ranks_differ { IfOk result (λ rocket. (request : Seen A.Value)
            → RanksDiffer rocket.tables.router.routes request) }
        // At most one catcher is for a code, or for every one, below a base.
        ensures one_catches { IfOk result (λ rocket. AtMostOneCatches rocket.tables.router.catchers) }
    {
        let parts = ignite::<A, A::Fairing, <A::Fairing as Fairing<A>>::Ignites>(
            alloc, self.state,
        )?;
        // No two of its routes and no two of its catchers collide, and this is what follows.
        ranks_differ::<A::Handler, A::Catch, A::Sentinel, A>(&parts.router);
        at_most_one_catches(&parts.router);
        let tables = TablesOf {
            router: parts.router,
            fairings: parts.fairings,
            config: parts.config,
            managed: parts.managed,
        };
        Ok(Rocket::<Ignite, A>::from_tables(alloc, tables, parts.table)?)
    }
}
