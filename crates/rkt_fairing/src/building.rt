ghost use Rattle.std.specs.Prelude.{◌≡◌, ◌++◌, None, OnOk, OnErr, IsSome, map};
ghost use Rattle.std.specs.BTreeMap.{insert_entry};
ghost use Rattle.std.specs.Ordering.{nat_cmp};
ghost use Rattle.rkt_base.specs.Want.{IfRefused};
ghost use Rattle.rkt_config.specs.Managed.{value_at};
ghost use Rattle.rkt_uri.specs.Origin.{IsOrigin, target_of};
ghost use Rattle.rkt_fairing.specs.Below.{catcher_below, route_below};
ghost use Rattle.rkt_fairing.specs.Building.{building_of};
ghost use Rattle.rkt_fairing.specs.Fairings.{added};

use crate::below::{catchers_at, routes_at};
use crate::{Attach, BuildingPartsOf, Fairings, Slot};
use rkt_base::{NoMemory, Want};
use rkt_http::{Key, Profile};
use rkt_request::{ConfigTable, DuplicateState, Managed};
use rkt_route::{Catcher, Route};
use std::alloc::Global;
use std::marker::Model;
use thiserror::Error;

/// A base that is no origin.
#[derive(Clone, Copy, Debug, PartialEq, Eq, Drop, Error)]
#[error("the base is no origin")]
pub struct InvalidBase;

/// What is built of a rocket before it ignites.
#[derive(Drop)]
pub struct BuildingOf<H, K, N, V, F> {
    routes: Vec<Route<H, N>>,
    catchers: Vec<Catcher<K>>,
    pub fairings: Fairings<F>,
    pub managed: Managed<V>,
    pub table: ConfigTable,
}

impl<H, K, N, V, F> Model for BuildingOf<H, K, N, V, F> {
    ghost use Rattle.rkt_fairing.specs.Building.{SeenBuilding};

    ghost Value = { SeenBuilding H K N V F };

    ghost view = { λ b. record {
      routes = b.routes.items;
      catchers = b.catchers.items;
      fairings = b.fairings;
      managed = b.managed;
      table = b.table;
    } };
}

impl<H: Drop, K: Drop, N: Drop, V: Drop, F: Drop> BuildingOf<H, K, N, V, F> {
    /// With nothing but a table.
    pub fn new(alloc: Global, table: ConfigTable) -> BuildingOf<H, K, N, V, F>
        ensures { result ≡ building_of table }
    {
        BuildingOf {
            routes: Vec::new(alloc),
            catchers: Vec::new(alloc),
            fairings: Fairings::new(alloc),
            managed: Managed::new(alloc),
            table,
        }
    }

    /// The routes in mounting order.
    pub fn routes(&self) -> &[Route<H, N>]
        ensures { result.now ≡ self.now.routes }
    {
        self.routes.as_slice()
    }

    /// The catchers in the order in which they were registered.
    pub fn catchers(&self) -> &[Catcher<K>]
        ensures { result.now ≡ self.now.catchers }
    {
        self.catchers.as_slice()
    }

    /// Takes another table in place of its own.
    pub fn configure(&mut self, table: ConfigTable)
        ensures { self.new ≡ record self.old { table = table } }
    {
        self.table = table;
    }

    /// Mounts routes behind the others, with a base in front of their own. A query of the base is dropped.
    pub fn mount(
        &mut self,
        alloc: Global,
        base: &str,
        routes: Vec<Route<H, N>>,
    ) -> Result<(), Want<InvalidBase>>
        ensures ok { OnOk result (self.new
            ≡ record self.old { routes = self.old.routes ++ map (route_below (target_of base.now).path) routes.items }) }
        ensures origin { OnOk result (IsOrigin Profile.Request base.now) }
        // It is refused exactly where the base is no origin.
        ensures refused { IfRefused result (λ _. ¬ IsOrigin Profile.Request base.now) }
        ensures err { OnErr result (self.new ≡ self.old) }
    {
        let mut below = routes_at(alloc, base, routes)?;
        self.routes.append(&mut below)?;
        Ok(())
    }

    /// Registers catchers behind the others, with a base in front of their own. A query of the base is dropped.
    pub fn register(
        &mut self,
        alloc: Global,
        base: &str,
        catchers: Vec<Catcher<K>>,
    ) -> Result<(), Want<InvalidBase>>
        ensures ok { OnOk result (self.new ≡ record self.old {
          catchers = self.old.catchers ++ map (catcher_below (target_of base.now).path) catchers.items;
        }) }
        ensures origin { OnOk result (IsOrigin Profile.Request base.now) }
        // It is refused exactly where the base is no origin.
        ensures refused { IfRefused result (λ _. ¬ IsOrigin Profile.Request base.now) }
        ensures err { OnErr result (self.new ≡ self.old) }
    {
        let mut below = catchers_at(alloc, base, catchers)?;
        self.catchers.append(&mut below)?;
        Ok(())
    }

    /// Manages a value under a key that has none.
    pub fn manage(&mut self, key: Key, value: V) -> Result<(), Want<DuplicateState<V>>>
        ensures ok { OnOk result (self.new ≡ record self.old { managed = insert_entry nat_cmp self.old.managed key.0 value }) }
        ensures free { OnOk result (value_at key self.old.managed ≡ None) }
        ensures duplicate { IfRefused result (λ e.
            (e ≡ record { key = key; value = value }) × IsSome (value_at key self.old.managed)) }
        ensures err { OnErr result (self.new ≡ self.old) }
    {
        self.managed.set(key, value)
    }

    /// Takes the builder apart.
    pub fn into_parts(self) -> BuildingPartsOf<H, K, N, V, F>
        ensures routes { result.routes.items ≡ self.routes }
        ensures catchers { result.catchers.items ≡ self.catchers }
        ensures fairings { result.fairings ≡ self.fairings }
        ensures managed { result.managed ≡ self.managed }
        ensures table { result.table ≡ self.table }
    {
        BuildingPartsOf {
            routes: self.routes,
            catchers: self.catchers,
            fairings: self.fairings,
            managed: self.managed,
            table: self.table,
        }
    }
}

impl<H: Drop, K: Drop, N: Drop, V: Drop, F: Attach + Drop> BuildingOf<H, K, N, V, F> {
    /// Attaches a fairing behind the others.
    pub fn attach(&mut self, fairing: Slot<F>) -> Result<(), NoMemory>
        ensures ok { OnOk result (self.new ≡ record self.old { fairings = added F.key F.info self.old.fairings fairing }) }
        ensures err { OnErr result (self.new ≡ self.old) }
    {
        self.fairings.add(fairing)
    }
}
