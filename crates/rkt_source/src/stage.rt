//! How far an object that is cut off has come.
ghost use Rattle.std.specs.Prelude.{◌≡◌};
ghost use Rattle.rkt_source.specs.Cancel.{advanced, late};

use crate::Gate;
use thiserror::Error;

/// The stages of an object that a trip cuts off, with the moments at which the trip was seen and the grace was over.
#[derive(Clone, Copy, Debug, Drop, PartialEq, Eq)]
pub enum Stage {
    /// No trip was seen.
    Active,
    /// A trip was seen, and the object may go on for a while.
    Grace(u64),
    /// The grace is over, and the object may take a while to shut down.
    Mercy(u64, u64),
    /// The object is shut, or was given up.
    Gone(u64, u64),
}

/// Why an object was not called.
#[derive(Clone, Copy, Debug, Drop, PartialEq, Eq, Error)]
pub enum Refused {
    /// It is shut.
    #[error("gone")]
    Gone,
    /// It did not shut down in time.
    #[error("timed out")]
    TimedOut,
}

// Whether the mercy that began at `cut` is over.
pub(crate) fn is_late(gate: Gate, cut: u64) -> bool
    ensures { result ≡ late gate cut }
{
    gate.moment.saturating_sub(cut) >= gate.mercy as u64
}

// The stage in which a call under a Gate is answered.
pub(crate) fn advance(stage: Stage, gate: Gate) -> Stage
    ensures { result ≡ advanced gate stage }
{
    let stage = match stage {
        Stage::Active => match gate.tripped {
            None => Stage::Active,
            Some(_) => Stage::Grace(gate.moment),
        },
        other => other,
    };
    match stage {
        Stage::Grace(saw) => {
            if gate.moment.saturating_sub(saw) >= gate.grace as u64 {
                Stage::Mercy(saw, gate.moment)
            } else {
                Stage::Grace(saw)
            }
        }
        other => other,
    }
}
