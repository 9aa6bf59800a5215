//! Why a rocket could not be built. All that the calls of a builder answer converts into it, so that its author writes `?`.
ghost use Rattle.std.specs.Prelude.{◌≡◌};
ghost use Rattle.rkt_life.specs.BuildError.{of_duplicate, of_want};
ghost use Rattle.rkt_life.specs.declared.build_error.BuildError.TheVariants.{Base, Code, Config, Ignite, NoMemory as OutOfMemory, Uri};

use crate::Handed;
use rkt_base::{NoMemory, Want};
use rkt_fairing::InvalidBase;
use rkt_http::{InvalidUri, Key};
use rkt_ignition::IgniteError;
use rkt_request::{BadConfig, DuplicateState};
use rkt_route::BadCode;
use std::alloc::{AllocError, AllocFailed};
use thiserror::Error;

/// Why a rocket could not be built.
#[derive(Debug, Drop, Error)]
pub enum BuildError {
    /// The text of a route is no URI.
    #[error("a route: {0}")]
    Uri(InvalidUri),
    /// What routes are to be mounted at, or catchers registered at, is no base.
    #[error("a mount: {0}")]
    Base(InvalidBase),
    /// A catcher was to have a code that is no error's.
    #[error("a catcher: {0}")]
    Code(BadCode),
    /// A value was to be managed under a key that has one.
    #[error("a managed value: the key {} has a value already", .0.0)]
    Managed(Key),
    /// The configuration cannot be read.
    #[error("the configuration: {0}")]
    Config(BadConfig),
    /// What was built does not ignite.
    #[error("ignition: {0}")]
    Ignite(IgniteError),
    #[error("out of memory")]
    NoMemory,
}

impl From<AllocError> for BuildError {
    ghost from_gives = { λ _ error. error ≡ OutOfMemory };

    fn from(_error: NoMemory) -> BuildError {
        BuildError::NoMemory
    }
}

impl<T: Drop> From<AllocFailed<T>> for BuildError {
    ghost from_gives = { λ _ error. error ≡ OutOfMemory };

    fn from(_error: AllocFailed<T>) -> BuildError {
        BuildError::NoMemory
    }
}

impl From<Want<InvalidUri>> for BuildError {
    ghost from_gives = { λ want error. error ≡ of_want Uri want };

    fn from(want: Want<InvalidUri>) -> BuildError {
        match want {
            Want::Refused(error) => BuildError::Uri(error),
            Want::NoMemory => BuildError::NoMemory,
        }
    }
}

impl From<Want<InvalidBase>> for BuildError {
    ghost from_gives = { λ want error. error ≡ of_want Base want };

    fn from(want: Want<InvalidBase>) -> BuildError {
        match want {
            Want::Refused(error) => BuildError::Base(error),
            Want::NoMemory => BuildError::NoMemory,
        }
    }
}

impl From<Want<BadCode>> for BuildError {
    ghost from_gives = { λ want error. error ≡ of_want Code want };

    fn from(want: Want<BadCode>) -> BuildError {
        match want {
            Want::Refused(error) => BuildError::Code(error),
            Want::NoMemory => BuildError::NoMemory,
        }
    }
}

impl From<Want<BadConfig>> for BuildError {
    ghost from_gives = { λ want error. error ≡ of_want Config want };

    fn from(want: Want<BadConfig>) -> BuildError {
        match want {
            Want::Refused(error) => BuildError::Config(error),
            Want::NoMemory => BuildError::NoMemory,
        }
    }
}

impl From<Want<IgniteError>> for BuildError {
    ghost from_gives = { λ want error. error ≡ of_want Ignite want };

    fn from(want: Want<IgniteError>) -> BuildError {
        match want {
            Want::Refused(error) => BuildError::Ignite(error),
            Want::NoMemory => BuildError::NoMemory,
        }
    }
}

// The value that was to be managed is dropped.
impl<V: Drop> From<Want<DuplicateState<V>>> for BuildError {
    ghost from_gives = { λ want error. error ≡ of_duplicate want };

    fn from(want: Want<DuplicateState<V>>) -> BuildError {
        match want {
            Want::Refused(error) => BuildError::Managed(error.key),
            Want::NoMemory => BuildError::NoMemory,
        }
    }
}

// The rocket that was handed back is dropped.
impl<R: Drop> From<Handed<R, Want<InvalidBase>>> for BuildError {
    ghost from_gives = { λ handed error. error ≡ of_want Base handed.error };

    fn from(handed: Handed<R, Want<InvalidBase>>) -> BuildError {
        BuildError::from(handed.error)
    }
}

// The rocket that was handed back is dropped, and so is the value that was to be managed.
impl<R: Drop, V: Drop> From<Handed<R, Want<DuplicateState<V>>>> for BuildError {
    ghost from_gives = { λ handed error. error ≡ of_duplicate handed.error };

    fn from(handed: Handed<R, Want<DuplicateState<V>>>) -> BuildError {
        BuildError::from(handed.error)
    }
}

// The rocket that was handed back is dropped.
impl<R: Drop> From<Handed<R, AllocError>> for BuildError {
    ghost from_gives = { λ _ error. error ≡ OutOfMemory };

    fn from(_handed: Handed<R, AllocError>) -> BuildError {
        BuildError::NoMemory
    }
}
