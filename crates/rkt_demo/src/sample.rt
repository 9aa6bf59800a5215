//! The sample application.
ghost use Rattle.std.specs.Prelude.{◌≡◌, ◌++◌, IfOk, OnOk};
ghost use Rattle.rkt_base.specs.Want.{IfRefused};
ghost use Rattle.rkt_demo.specs.Program.{IsAccepted};
ghost use Rattle.rkt_demo.specs.Sample.{IsSample};
ghost use Rattle.rkt_sample.specs.Mounted.{sample_catchers, sample_routes};

use rkt_base::{NoMemory, Want};
use rkt_data::MemorySource;
use rkt_life::{App, Build, Handed, Ignite, IgniteError, NoFairing, Parts, Rocket};
use rkt_request::{ConfigTable, Types};
use rkt_sample::{SampleCatcher, SampleRoute, StopReason, catchers, routes};
use rkt_serve::{EntryOf, HistoryOf, MemoryLink};
use rkt_turn::Reason;
use std::alloc::{AllocError, Global};
use std::marker::PhantomData;

/// The sample's routes and catchers as an application, with the reason Q that `/stop` tells.
pub struct Sample<Q>(PhantomData<Q>);

/// An entry of a launch of the sample over links in memory, whatever its reason is.
pub type SampleEntry = EntryOf<u64, MemorySource, MemoryLink>;

/// The history of such a launch.
pub type SampleHistory = HistoryOf<u64, MemorySource, MemoryLink>;

/// The reason of an application that nothing shuts down. It has no word, and no word is allowed.
#[derive(Clone, Copy, Debug, PartialEq, Eq)]
pub struct NeverStops;

impl Reason for NeverStops {
    ghost use Rattle.std.specs.Prelude.{◌≡◌};

    ghost allowed = { λ word. ⊥ };

    ghost says = { λ reason word. word ≡ 0 };

    ghost stops = { λ reason. ⊥ };

    fn word(self) -> u64 {
        0
    }
}

impl StopReason for NeverStops {
    ghost stop_word = { 0 };

    fn stop() -> NeverStops {
        NeverStops
    }

    ghost alone = { λ word allowed. absurd allowed };
}

/// The reason of an application that a handler shuts down. Its word alone is allowed.
#[derive(Clone, Copy, Debug, PartialEq, Eq)]
pub struct ByHandler;

impl Reason for ByHandler {
    ghost use Rattle.std.specs.Prelude.{◌≡◌, ⊤};

    ghost allowed = { λ word. word ≡ 2 };

    ghost says = { λ reason word. word ≡ 2 };

    ghost stops = { λ reason. ⊤ };

    fn word(self) -> u64 {
        2
    }
}

impl StopReason for ByHandler {
    ghost stop_word = { 2 };

    fn stop() -> ByHandler {
        ByHandler
    }

    ghost alone = { λ word allowed. allowed };
}

impl<Q: StopReason> Types for Sample<Q> {
    type Source = MemorySource;

    type Stream = MemorySource;

    type Cached = u64;

    type Value = u64;

    type Reason = Q;
}

impl<Q: StopReason> Parts for Sample<Q> {
    type Handler = SampleRoute;

    type Catch = SampleCatcher;

    type Sentinel = ();
}

impl<Q: StopReason> App for Sample<Q> {
    type Fairing = NoFairing;
}

// The rocket with the sample's routes behind the others.
fn with_routes<Q: StopReason>(
    alloc: Global,
    rocket: Rocket<Build, Sample<Q>>,
) -> Result<Rocket<Build, Sample<Q>>, NoMemory>
    ensures { IfOk result (λ mounted. mounted ≡ record rocket { routes = rocket.routes ++ sample_routes }) }
{
    let Ok(routes) = routes(alloc) else {
        // By a call, in which that is proved once for its type.
        drop(rocket);
        return Err(AllocError);
    };
    match rocket.mount(alloc, "/", routes) {
        Ok(mounted) => Ok(mounted),
        Err(Handed { rocket, error }) => {
            drop(rocket);
            match error {
                Want::Refused(_) => unreachable!(),
                Want::NoMemory => Err(AllocError),
            }
        }
    }
}

// The rocket with the sample's catchers behind the others.
fn with_catchers<Q: StopReason>(
    alloc: Global,
    rocket: Rocket<Build, Sample<Q>>,
) -> Result<Rocket<Build, Sample<Q>>, NoMemory>
    ensures { IfOk result (λ registered. registered ≡ record rocket { catchers = rocket.catchers ++ sample_catchers }) }
{
    let Ok(catchers) = catchers(alloc) else {
        // By a call, in which that is proved once for its type.
        drop(rocket);
        return Err(AllocError);
    };
    match rocket.register(alloc, "/", catchers) {
        Ok(registered) => Ok(registered),
        Err(Handed { rocket, error }) => {
            drop(rocket);
            match error {
                Want::Refused(_) => unreachable!(),
                Want::NoMemory => Err(AllocError),
            }
        }
    }
}

impl<Q: StopReason> Sample<Q> {
    /// The application with the shield, configured by a table and ready to be launched.
    pub fn rocket(
        alloc: Global,
        table: ConfigTable,
    ) -> Result<Rocket<Ignite, Sample<Q>>, Want<IgniteError>>
        ensures made { IfOk result (λ rocket. IsSample table rocket.tables) }
        ensures table { IfOk result (λ rocket. rocket.table ≡ table) }
        ensures accepted { OnOk result (IsAccepted table) }
        // Nothing of it is refused but its table.
        ensures refused { IfRefused result (λ _. ¬ IsAccepted table) }
    {
        let rocket = Rocket::<Build, Sample<Q>>::custom(alloc, table)?;
        let rocket = with_routes(alloc, rocket)?;
        let rocket = with_catchers(alloc, rocket)?;
        rocket.ignite(alloc)
    }
}
