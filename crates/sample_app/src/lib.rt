//! The application of the programs of cases that ask requests: its bodies lie in memory, and its server has one reason to
//! stop. Beside it, what a request is lent and the contexts that callbacks are handed.
#![tactic(auto)]

ghost use Rattle.std.specs.Prelude.{◌≡◌};

use rkt_base::NoMemory;
use rkt_cookie::CookieJar;
use rkt_data::{Gate, MemorySource};
use rkt_http::{Method, Origin};
use rkt_request::{Config, Ctx, Managed, Request, Types};
use rkt_turn::{Reason, TripWire};
use std::alloc::Global;

/// The application, by its types.
pub struct Sample;

/// The one reason.
#[derive(Clone, Copy)]
pub struct Stopped;

impl Reason for Stopped {
    ghost allowed = { λ word. word ≡ 2 };

    fn word(self) -> u64 {
        2
    }
}

impl Types for Sample {
    type Source = MemorySource;

    type Stream = MemorySource;

    type Cached = u8;

    type Value = u8;

    type Reason = Stopped;
}

/// A Gate without a trip.
pub fn gate_at(moment: u64) -> Gate {
    Gate {
        moment,
        tripped: None,
        grace: 2,
        mercy: 3,
    }
}

/// A context with this jar, at the moment 0.
pub fn context(alloc: Global, jar: CookieJar) -> Result<Ctx<Sample>, NoMemory> {
    let (_wire, shutdown) = TripWire::<Stopped>::new(alloc)?;
    Ok(Ctx::new(alloc, jar, shutdown, gate_at(0)))
}

/// What a server lends to each request.
#[derive(Drop)]
pub struct Server {
    pub config: Config,
    pub managed: Managed<u8>,
}

impl Server {
    /// The default configuration, and nothing managed.
    pub fn new(alloc: Global) -> Result<Server, NoMemory> {
        Ok(Server {
            config: Config::default(alloc)?,
            managed: Managed::new(alloc),
        })
    }

    /// A request without headers.
    pub fn request(&self, alloc: Global, method: Method, uri: Origin) -> Request<'_, Sample> {
        Request::new(alloc, &self.config, &self.managed, method, uri)
    }
}
