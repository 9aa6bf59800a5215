//! What a launch leaves behind.
ghost use Rattle.std.specs.Prelude.{◌≡◌, ℕ, List};
ghost use Rattle.rkt_serve.specs.Said.{aborting, aborting_of, said_of};

use crate::{Clock, History, Listener};
use rkt_life::{App, Ignite, IgniteError, Rocket};
use std::fmt;
use std::marker::Model;

/// A launch that is over.
#[derive(Drop)]
pub struct LaunchedOf<R, L, C, H> {
    pub rocket: R,
    pub listener: L,
    pub clock: C,
    pub history: H,
}

/// A launch of an application that is over.
pub type Launched<A, L, C> = LaunchedOf<Rocket<Ignite, A>, L, C, History<A, <L as Listener>::Link>>;

/// Why a launch failed.
#[derive(Drop)]
pub enum ErrorKindOf<M, L, C> {
    /// What was built does not ignite, and nothing was done with the listener and the clock.
    Ignition {
        fault: IgniteError,
        listener: L,
        clock: C,
    },
    /// The listener failed, or an exchange was abandoned. What was begun is closed and handed back.
    Shutdown(M),
    /// There was no memory. What is kept is closed and handed back.
    NoMemory {
        kept: Option<M>,
    },
}

/// Why a launch of an application failed.
pub type ErrorKind<A, L, C> = ErrorKindOf<Launched<A, L, C>, L, C>;

// What it says of an ignition that failed.
fn said_by(fault: &IgniteError) -> &'static str
    ensures { result.now ≡ said_of fault.now }
{
    match fault {
        IgniteError::IgniteLimit { .. } => "ignite callback limit",
        IgniteError::FailedFairings { .. } => "launch fairing(s) failed",
        IgniteError::Config(_) => "failed to extract configuration",
        IgniteError::Collisions(_) => "collisions detected",
        IgniteError::SentinelAborts(_) => "sentinel(s) aborted",
    }
}

// What to tell whoever launched, of an ignition that failed.
fn aborting_by(fault: &IgniteError) -> &'static str
    ensures { result.now ≡ aborting_of fault.now }
{
    match fault {
        IgniteError::IgniteLimit { .. } => "aborting due to ignite callback limit",
        IgniteError::FailedFairings { .. } => "aborting due to fairing failure(s)",
        IgniteError::Config(_) => "aborting due to invalid configuration",
        IgniteError::Collisions(_) => "aborting due to detected routing collisions",
        IgniteError::SentinelAborts(_) => "aborting due to sentinel-triggered abort(s)",
    }
}

impl<M, L, C> fmt::Display for ErrorKindOf<M, L, C> {
    ghost use Rattle.std.specs.Prelude.{Some};
    ghost use Rattle.rkt_serve.specs.Said.{said};

    ghost output = { λ kind. Some (said kind) };

    fn fmt<W: fmt::Write>(&self, f: &mut fmt::Formatter<W>) -> fmt::Result {
        match self {
            ErrorKindOf::Ignition { fault, .. } => f.write_str(said_by(fault)),
            ErrorKindOf::Shutdown(_) => f.write_str("shutdown failed"),
            ErrorKindOf::NoMemory { .. } => f.write_str("want of memory"),
        }
    }
}

/// A failed launch, which has to be spent by one of its calls.
#[must_use]
pub struct Error<A: App, L: Listener, C: Clock> {
    kind: ErrorKind<A, L, C>,
}

impl<A: App, L: Listener, C: Clock> Model for Error<A, L, C> {
    ghost use Rattle.rkt_life.specs.Rocket.{SeenRocket};
    ghost use Rattle.rkt_serve.specs.declared.error.ErrorKindOf.{ErrorKindOf};
    ghost use Rattle.rkt_serve.specs.declared.error.LaunchedOf.{LaunchedOf};
    ghost use Rattle.rkt_board.specs.declared.history.HistoryOf.{HistoryOf};

    ghost Value = { ErrorKindOf
        (LaunchedOf (SeenRocket A.Fairing A.Handler A.Catch A.Sentinel A.Value) L C (HistoryOf A.Cached A.Stream L.Link)) L C };

    ghost view = { λ e. e.kind };
}

impl<A: App, L: Listener, C: Clock> Error<A, L, C> {
    pub(crate) fn new(kind: ErrorKind<A, L, C>) -> Error<A, L, C>
        ensures { result ≡ kind }
    {
        Error { kind }
    }

    pub fn kind(self) -> ErrorKind<A, L, C>
        ensures { result ≡ self }
    {
        let Error { kind } = self;
        kind
    }

    /// What to tell whoever launched.
    pub fn pretty_print(self) -> &'static str
        ensures { result.now ≡ aborting self }
    {
        let Error { kind } = self;
        let text = match &kind {
            ErrorKindOf::Ignition { fault, .. } => aborting_by(fault),
            ErrorKindOf::Shutdown(_) => "aborting due to failed shutdown",
            ErrorKindOf::NoMemory { .. } => "aborting due to want of memory",
        };
        drop(kind);
        text
    }
}
