//! What stands for fairings where an application has none of its own.
use rkt_fairing::{Attach, Fairing, Info, Kind, Parts, Quiet};
use rkt_http::Key;

/// The fairing of an application without fairings of its own: it is called at no event.
#[derive(Clone, Copy, Debug, PartialEq, Eq)]
pub struct NoFairing;

impl Attach for NoFairing {
    ghost use Rattle.rkt_life.specs.NoFairing.{no_info};

    ghost key = { λ fairing. record { 0 = 1 } };

    ghost info = { λ fairing. no_info };

    fn key(&self) -> Key {
        Key(1)
    }

    fn info(&self) -> Info {
        Info {
            name: "none",
            kind: Kind {
                ignite: false,
                liftoff: false,
                request: false,
                response: false,
                shutdown: false,
                singleton: false,
            },
        }
    }
}

impl<A: Parts> Fairing<A> for NoFairing {
    type Ignites = Quiet;

    type Lifts = Quiet;

    type Requests = Quiet;

    type Responses = Quiet;

    type Shuts = Quiet;
}
