//! What is attached to a rocket: its own shield, or a fairing of the application.
use crate::{Attach, Info, Kind};
use rkt_http::Key;
use rkt_shield::Shield;

/// A fairing: the shield, or one of the application's.
#[derive(Drop)]
pub enum Slot<F> {
    Shield(Shield),
    App(F),
}

impl<F: Attach> Attach for Slot<F> {
    ghost use Rattle.rkt_fairing.specs.Slot.{slot_key, slot_info};

    ghost key = { slot_key F.key };

    ghost info = { slot_info F.info };

    fn key(&self) -> Key {
        match self {
            Slot::Shield(_) => Key(0),
            Slot::App(fairing) => fairing.key(),
        }
    }

    fn info(&self) -> Info {
        match self {
            Slot::Shield(_) => Info {
                name: "Shield",
                kind: Kind::Liftoff | Kind::Response | Kind::Singleton,
            },
            Slot::App(fairing) => fairing.info(),
        }
    }
}
