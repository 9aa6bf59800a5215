//! Sentinels of a rocket that manages one value, under the key 1.
use cases::{CaseError, written};
use either::Either;
use rkt_base::{NoMemory, Want};
use rkt_http::Key;
use rkt_ignition::{Aborts, Asks, Ignited, Sentinel};
use rkt_request::{Config, Managed, State};
use rkt_response::Debug;
use sample_app::Sample;
use std::alloc::Global;

type Kept = State<'static, u8, 1>;

type Missing = State<'static, u8, 2>;

/// What is asked of the rocket.
fn asked<G: Sentinel<Sample>>(rocket: &Ignited<'_, Sample>) -> bool {
    Asks::<G>::new().abort(rocket)
}

fn abort_of(name: &str, rocket: &Ignited<'_, Sample>) -> Result<bool, CaseError> {
    match name {
        "kept" => Ok(asked::<Kept>(rocket)),
        "missing" => Ok(asked::<Missing>(rocket)),
        "debug" => Ok(asked::<Debug<u8>>(rocket)),
        _ => abort_of_one(name, rocket),
    }
}

fn abort_of_one(name: &str, rocket: &Ignited<'_, Sample>) -> Result<bool, CaseError> {
    match name {
        "option" => Ok(asked::<Option<Missing>>(rocket)),
        "result" => Ok(asked::<Result<Debug<u8>, Missing>>(rocket)),
        "either" => Ok(asked::<Either<Kept, Debug<u8>>>(rocket)),
        _ => Err(CaseError::Line),
    }
}

fn managed(alloc: Global) -> Result<Managed<u8>, CaseError> {
    let mut managed = Managed::new(alloc);
    match managed.set(Key(1), 7) {
        Ok(()) => Ok(managed),
        Err(Want::Refused(_)) => Err(CaseError::Refused),
        Err(Want::NoMemory) => Err(CaseError::NoMemory),
    }
}

fn ask(
    config: &Config,
    managed: &Managed<u8>,
    name: &str,
    out: &mut String,
) -> Result<(), CaseError> {
    let rocket = Ignited { config, managed };
    let abort = abort_of(name, &rocket)?;
    written(write!(out, "{abort}"))
}

/// Adds whether a sentinel has to abort the launch.
pub fn push_abort(
    alloc: Global,
    config: &Config,
    name: &str,
    out: &mut String,
) -> Result<(), CaseError> {
    let managed = managed(alloc)?;
    ask(config, &managed, name, out)
}
