use std::alloc::{AllocError, AllocFailed};

/// Want of memory: the one answer that may come at any time.
pub type NoMemory = AllocError;

/// Why a call that refuses some input gave no value.
#[derive(Debug, Drop, PartialEq, Eq)]
pub enum Want<E> {
    /// The input was refused, for this reason.
    Refused(E),
    /// There was no memory for the answer.
    NoMemory,
}

impl<E> From<AllocError> for Want<E> {
    ghost use Rattle.std.specs.Prelude.{◌≡◌};
    ghost use Rattle.rkt_base.specs.declared.want.Want.TheVariants.{NoMemory as OutOfMemory};

    ghost from_gives = { λ _ e. e ≡ OutOfMemory };

    fn from(_error: AllocError) -> Want<E> {
        Want::NoMemory
    }
}

impl<E, T: Drop> From<AllocFailed<T>> for Want<E> {
    ghost use Rattle.std.specs.Prelude.{◌≡◌};
    ghost use Rattle.rkt_base.specs.declared.want.Want.TheVariants.{NoMemory as OutOfMemory};

    ghost from_gives = { λ _ e. e ≡ OutOfMemory };

    fn from(_error: AllocFailed<T>) -> Want<E> {
        Want::NoMemory
    }
}
