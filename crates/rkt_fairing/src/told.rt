ghost use Rattle.std.specs.Prelude.{◌≡◌};
ghost use Rattle.rkt_fairing.specs.Info.{seen_info};
ghost use Rattle.rkt_fairing.specs.Told.{has_key};

use crate::{Attach, Info};
use rkt_http::Key;
use std::marker::Model;

/// What a fairing told when it was attached.
#[derive(Debug, Drop)]
pub(crate) struct Told {
    key: Key,
    info: Info,
}

impl Model for Told {
    ghost use Rattle.rkt_fairing.specs.Told.{SeenTold};
    ghost use Rattle.rkt_fairing.specs.Info.{seen_info};

    ghost Value = { SeenTold };

    ghost view = { λ told. record { key = told.key; info = seen_info told.info } };
}

impl Told {
    /// What a fairing tells now.
    pub fn by<F: Attach>(fairing: &F) -> Told
        ensures { result ≡ record { key = F.key fairing.now; info = F.info fairing.now } }
    {
        Told {
            key: fairing.key(),
            info: fairing.info(),
        }
    }

    pub fn key(&self) -> Key
        ensures { result ≡ self.now.key }
    {
        self.key
    }

    pub fn info(&self) -> Info
        ensures { seen_info result ≡ self.now.info }
    {
        self.info
    }
}

/// Whether the fairing at a position has a key.
pub(crate) fn has_key(told: &[Told], key: Key, place: usize) -> bool
    ensures { result ≡ has_key told.now key place }
{
    match told.get(place) {
        Some(told) => told.key.0 == key.0,
        None => false,
    }
}
