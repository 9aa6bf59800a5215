//! A rocket, which is what it is made of in its phase, and what it does once it has ignited.
ghost use Rattle.std.specs.Prelude.{◌≡◌, ◌<◌, ◌+◌, IfNone, IfOk, IfSome};
ghost use Rattle.std.specs.Option.{option_copied};
ghost use Rattle.rkt_config.specs.Managed.{value_at};
ghost use Rattle.rkt_turn.specs.Shutdown.{fresh};

use crate::{Ignite, IgnitedOf, Igniting, Orbit, Orbiting, Phase};
use rkt_base::NoMemory;
use rkt_exchange::Tables;
use rkt_fairing::App;
use rkt_http::Key;
use rkt_request::{Config, ConfigTable};
use rkt_route::{Catcher, Route};
use rkt_turn::{Shutdown, TripWire};
use std::alloc::{AllocError, Global};
use std::marker::{Model, PhantomData};

/// An application A, in a phase in which its rocket is made of S.
#[derive(Drop)]
pub struct RocketOf<S, A> {
    pub(crate) state: S,
    pub(crate) app: PhantomData<A>,
}

/// The rocket of an application in a phase.
pub type Rocket<P, A> = RocketOf<<P as Phase<A>>::State, A>;

impl<S, A> Model for RocketOf<S, A> {
    ghost Value = { S };

    ghost view = { λ r. r.state };
}

impl<P, A: App> RocketOf<
    IgnitedOf<P, A::Fairing, A::Handler, A::Catch, A::Sentinel, A::Value, A::Reason>,
    A,
> {
    pub fn tables(&self) -> &Tables<A>
        ensures { result.now ≡ self.now.tables }
    {
        &self.state.tables
    }

    pub fn config(&self) -> &Config
        ensures { result.now ≡ self.now.tables.config }
    {
        &self.state.tables.config
    }

    /// The table that the configuration was read of.
    pub fn figment(&self) -> &ConfigTable
        ensures { result.now ≡ self.now.table }
    {
        &self.state.table
    }

    /// The routes in mounting order.
    pub fn routes(&self) -> &[Route<A::Handler, A::Sentinel>]
        ensures { result.now ≡ self.now.tables.router.routes }
    {
        self.state.tables.router.routes()
    }

    /// The catchers in the order in which they were registered.
    pub fn catchers(&self) -> &[Catcher<A::Catch>]
        ensures { result.now ≡ self.now.tables.router.catchers }
    {
        self.state.tables.router.catchers()
    }

    /// The value that is managed under a key.
    pub fn state(&self, key: Key) -> Option<&A::Value>
        ensures { option_copied result ≡ value_at key self.now.tables.managed }
    {
        self.state.tables.managed.get(key)
    }

    /// The word of the wire, if there is one. It looks with one load, unless a word was seen before.
    pub fn tripped(&mut self) -> Option<u64>
        ensures same { (self.new.tables ≡ self.old.tables) × (self.new.table ≡ self.old.table) }
        ensures wire { self.new.handle.wire ≡ self.old.handle.wire }
        ensures again { 0 < self.old.handle.seen → self.new ≡ self.old }
        ensures load { self.old.handle.seen ≡ 0 → self.new.handle.looked ≡ self.old.handle.looked + 1 }

        ensures found { IfSome result (λ word. (0 < word) × (self.new.handle.seen ≡ word)) }
        ensures none { IfNone result (self.new.handle.seen ≡ 0) }
        ensures allowed { IfSome result A.Reason.allowed }
    {
        self.state.handle.tripped()
    }

    /// Another handle of the wire, which has seen as much.
    pub fn shutdown(&mut self) -> Result<Shutdown<A::Reason>, NoMemory>
        ensures same { self.new ≡ self.old }
        ensures handle { IfOk result (λ s. s ≡ self.old.handle) }
    {
        self.state.handle.split()
    }
}

impl<A: App> RocketOf<Igniting<A>, A> {
    /// A rocket with these tables, whose configuration was read of a table, and a wire of its own.
    pub(crate) fn from_tables(
        alloc: Global,
        tables: Tables<A>,
        table: ConfigTable,
    ) -> Result<Rocket<Ignite, A>, NoMemory>
        ensures tables { IfOk result (λ rocket. rocket.tables ≡ tables) }
        ensures table { IfOk result (λ rocket. rocket.table ≡ table) }
        ensures fresh { IfOk result (λ rocket. rocket.handle ≡ fresh rocket.handle.wire) }
    {
        let Ok((_wire, handle)) = TripWire::new(alloc) else {
            // By calls, in which that is proved once for each type.
            drop(tables);
            drop(table);
            return Err(AllocError);
        };
        Ok(Rocket::<Orbit, A>::from_parts(tables, table, handle).into_ignite())
    }

    /// The same rocket, to serve.
    pub fn into_orbit(self) -> Rocket<Orbit, A>
        ensures { result ≡ self }
    {
        Rocket::<Orbit, A>::from_parts(self.state.tables, self.state.table, self.state.handle)
    }
}

impl<A: App> RocketOf<Orbiting<A>, A> {
    /// A rocket that is put together of what `into_parts` gave.
    pub fn from_parts(
        tables: Tables<A>,
        table: ConfigTable,
        handle: Shutdown<A::Reason>,
    ) -> Rocket<Orbit, A>
        ensures { result ≡ record { tables = tables; table = table; handle = handle } }
    {
        RocketOf {
            state: IgnitedOf {
                phase: PhantomData,
                tables,
                table,
                handle,
            },
            app: PhantomData,
        }
    }

    /// The tables, what their configuration was read of, and the handle of the wire.
    pub fn into_parts(self) -> (Tables<A>, ConfigTable, Shutdown<A::Reason>)
        ensures tables { result.0 ≡ self.tables }
        ensures table { result.1 ≡ self.table }
        ensures handle { result.2 ≡ self.handle }
    {
        (self.state.tables, self.state.table, self.state.handle)
    }

    /// The same rocket, to be launched again.
    pub fn into_ignite(self) -> Rocket<Ignite, A>
        ensures { result ≡ self }
    {
        RocketOf {
            state: IgnitedOf {
                phase: PhantomData,
                tables: self.state.tables,
                table: self.state.table,
                handle: self.state.handle,
            },
            app: PhantomData,
        }
    }
}
