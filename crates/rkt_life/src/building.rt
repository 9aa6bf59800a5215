//! A rocket that is being built.
ghost use Rattle.std.specs.Prelude.{◌≡◌, ◌++◌, [], None, IfOk, IfErr, OnOk, IsSome, map};
ghost use Rattle.std.specs.BTreeMap.{insert_entry};
ghost use Rattle.std.specs.Option.{option_copied};
ghost use Rattle.std.specs.Ordering.{nat_cmp};
ghost use Rattle.rkt_config.specs.Managed.{value_at};
ghost use Rattle.rkt_fairing.specs.Below.{catcher_below, route_below};
ghost use Rattle.rkt_fairing.specs.Fairings.{added};
ghost use Rattle.rkt_life.specs.Built.{built};
ghost use Rattle.rkt_life.specs.Handed.{IfHanded};
ghost use Rattle.rkt_uri.specs.Origin.{IsOrigin, target_of};

use crate::{Build, Handed, Rocket, RocketOf};
use rkt_base::{NoMemory, Want};
use rkt_fairing::{App, AppBuilding, BuildingOf, InvalidBase, Slot};
use rkt_http::{Key, Profile};
use rkt_request::{ConfigTable, DuplicateState};
use rkt_route::{Catcher, Route};
use rkt_shield::Shield;
use std::alloc::Global;
use std::marker::PhantomData;

impl<A: App> RocketOf<AppBuilding<A>, A> {
    /// With nothing but the shield, whose policies are those by default.
    pub fn build(alloc: Global) -> Result<Rocket<Build, A>, NoMemory>
        ensures { IfOk result (λ rocket. rocket ≡ built A.Fairing.key A.Fairing.info []) }
    {
        Rocket::<Build, A>::custom(alloc, ConfigTable::new(alloc))
    }

    /// With a table, and the shield, whose policies are those by default.
    pub fn custom(alloc: Global, table: ConfigTable) -> Result<Rocket<Build, A>, NoMemory>
        ensures { IfOk result (λ rocket. rocket ≡ built A.Fairing.key A.Fairing.info table) }
    {
        let shield = Shield::default(alloc)?;
        let mut state = BuildingOf::new(alloc, table);
        match state.attach(Slot::Shield(shield)) {
            Ok(()) => Ok(RocketOf {
                state,
                app: PhantomData,
            }),
            Err(error) => {
                // By a call, in which that is proved once for its type.
                drop(state);
                Err(error)
            }
        }
    }

    /// Takes another table in place of its own.
    pub fn configure(mut self, table: ConfigTable) -> Rocket<Build, A>
        ensures { result ≡ record self { table = table } }
    {
        self.state.configure(table);
        self
    }

    /// Mounts routes behind the others, with a base in front of their own. A query of the base is dropped. Where it fails the
    /// rocket is handed back as it was, and the routes are dropped.
    pub fn mount(
        mut self,
        alloc: Global,
        base: &str,
        routes: Vec<Route<A::Handler, A::Sentinel>>,
    ) -> Result<Rocket<Build, A>, Handed<Rocket<Build, A>, Want<InvalidBase>>>
        ensures ok { IfOk result (λ rocket.
            rocket ≡ record self { routes = self.routes ++ map (route_below (target_of base.now).path) routes.items }) }
        ensures origin { OnOk result (IsOrigin Profile.Request base.now) }
        // It is refused exactly where the base is no origin.
        ensures refused { IfHanded result (λ _. ¬ IsOrigin Profile.Request base.now) }
        ensures handed { IfErr result (λ h. h.rocket ≡ self) }
    {
        match self.state.mount(alloc, base, routes) {
            Ok(()) => Ok(self),
            Err(error) => Err(Handed {
                rocket: self,
                error,
            }),
        }
    }

    /// Registers catchers behind the others, with a base in front of their own. A query of the base is dropped. Where it fails
    /// the rocket is handed back as it was, and the catchers are dropped.
    pub fn register(
        mut self,
        alloc: Global,
        base: &str,
        catchers: Vec<Catcher<A::Catch>>,
    ) -> Result<Rocket<Build, A>, Handed<Rocket<Build, A>, Want<InvalidBase>>>
        ensures ok { IfOk result (λ rocket.
            rocket ≡ record self { catchers = self.catchers ++ map (catcher_below (target_of base.now).path) catchers.items }) }
        ensures origin { OnOk result (IsOrigin Profile.Request base.now) }
        // It is refused exactly where the base is no origin.
        ensures refused { IfHanded result (λ _. ¬ IsOrigin Profile.Request base.now) }
        ensures handed { IfErr result (λ h. h.rocket ≡ self) }
    {
        match self.state.register(alloc, base, catchers) {
            Ok(()) => Ok(self),
            Err(error) => Err(Handed {
                rocket: self,
                error,
            }),
        }
    }

    /// Manages a value under a key that has none. Where it fails the rocket is handed back as it was. A value whose key is not
    /// free comes back with the reason; for want of memory it is dropped.
    pub fn manage(
        mut self,
        key: Key,
        value: A::Value,
    ) -> Result<Rocket<Build, A>, Handed<Rocket<Build, A>, Want<DuplicateState<A::Value>>>>
        ensures ok { IfOk result (λ rocket. rocket ≡ record self { managed = insert_entry nat_cmp self.managed key.0 value }) }
        ensures free { OnOk result (value_at key self.managed ≡ None) }
        ensures duplicate { IfHanded result (λ e.
            (e ≡ record { key = key; value = value }) × IsSome (value_at key self.managed)) }
        ensures handed { IfErr result (λ h. h.rocket ≡ self) }
    {
        match self.state.manage(key, value) {
            Ok(()) => Ok(self),
            Err(error) => Err(Handed {
                rocket: self,
                error,
            }),
        }
    }

    /// Attaches a fairing behind the others. For want of memory the rocket is handed back as it was, and the fairing is
    /// dropped.
    pub fn attach(
        mut self,
        fairing: Slot<A::Fairing>,
    ) -> Result<Rocket<Build, A>, Handed<Rocket<Build, A>, NoMemory>>
        ensures ok { IfOk result (λ rocket.
            rocket ≡ record self { fairings = added A.Fairing.key A.Fairing.info self.fairings fairing }) }
        ensures handed { IfErr result (λ h. h.rocket ≡ self) }
    {
        match self.state.attach(fairing) {
            Ok(()) => Ok(self),
            Err(error) => Err(Handed {
                rocket: self,
                error,
            }),
        }
    }

    /// The routes in mounting order.
    pub fn routes(&self) -> &[Route<A::Handler, A::Sentinel>]
        ensures { result.now ≡ self.now.routes }
    {
        self.state.routes()
    }

    /// The catchers in the order in which they were registered.
    pub fn catchers(&self) -> &[Catcher<A::Catch>]
        ensures { result.now ≡ self.now.catchers }
    {
        self.state.catchers()
    }

    /// The value that is managed under a key.
    pub fn state(&self, key: Key) -> Option<&A::Value>
        ensures { option_copied result ≡ value_at key self.now.managed }
    {
        self.state.managed.get(key)
    }

    /// The table that the configuration is read of.
    pub fn figment(&self) -> &ConfigTable
        ensures { result.now ≡ self.now.table }
    {
        &self.state.table
    }
}
