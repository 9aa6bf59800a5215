//! A fairing of each kind as an author writes it, as one change: `Stamps` makes them all.
use crate::app::Stamps;
use crate::author::{Site, Stopped};
use cases::{CaseError, written};
use rkt_adhoc::{ChangesBuilding, OnIgnite, SeesLiftoff, SeesShutdown};
use rkt_base::{NoMemory, Want};
use rkt_fairing::{Building, Fairing, View};
use rkt_life::{AdHoc, Key};
use rkt_turn::Shutdown;
use std::alloc::{AllocError, Global};

// It manages a value, unless one is managed already.
impl ChangesBuilding<Site, OnIgnite<Stamps>> for Stamps {
    fn on_ignite(
        &mut self,
        _alloc: Global,
        building: &mut Building<Site, OnIgnite<Stamps>>,
    ) -> Result<(), NoMemory> {
        match building.manage(Key(1), 1) {
            Ok(()) | Err(Want::Refused(_)) => Ok(()),
            Err(Want::NoMemory) => Err(AllocError),
        }
    }
}

// It notifies a shutdown.
impl SeesLiftoff<Site> for Stamps {
    fn on_liftoff(
        &mut self,
        _alloc: Global,
        _view: &View<'_, Site>,
        shutdown: &mut Shutdown<Stopped>,
    ) -> Result<(), NoMemory> {
        shutdown.notify(Stopped);
        Ok(())
    }
}

impl SeesShutdown<Site> for Stamps {
    fn on_shutdown(&self, _alloc: Global, _view: &View<'_, Site>) -> Result<(), NoMemory> {
        Ok(())
    }
}

/// What a fairing of the application tells, by the bound alone.
fn push_told<F: Fairing<Site>>(out: &mut String, fairing: &F) -> Result<(), CaseError> {
    let info = fairing.info();
    written(write!(out, "{} {} {}", info.name, fairing.key().0, info.kind))
}

fn push_ignite(out: &mut String) -> Result<(), CaseError> {
    push_told(out, &AdHoc::on_ignite("stamps", Key(2), Stamps))
}

fn push_liftoff(out: &mut String) -> Result<(), CaseError> {
    push_told(out, &AdHoc::on_liftoff("stamps", Key(3), Stamps))
}

fn push_response(out: &mut String) -> Result<(), CaseError> {
    push_told(out, &AdHoc::on_response("stamps", Key(5), Stamps))
}

fn push_shutdown(out: &mut String) -> Result<(), CaseError> {
    push_told(out, &AdHoc::on_shutdown("stamps", Key(6), Stamps))
}

/// Adds what the fairing of a kind tells that is made of `Stamps`.
pub fn push_fairing(out: &mut String, kind: &str) -> Result<(), CaseError> {
    match kind {
        "ignite" => push_ignite(out),
        "liftoff" => push_liftoff(out),
        "response" => push_response(out),
        "shutdown" => push_shutdown(out),
        _ => Err(CaseError::Line),
    }
}
