ghost use Rattle.std.specs.Prelude.{◌≡◌, Option, Some, None, Result, Ok, Err, MatchOption, MatchResult};

use crate::Status;
use crate::outcome::Outcome;

/// What can be read as an outcome, once it is said what stands where there is no value.
pub trait IntoOutcome<O>: Sized {
    type Error: Drop;

    type Forward: Drop;

    /// What it becomes where a missing value is an Error.
    ghost errs: { Self → Self.Error → O → Type 0 };

    /// What it becomes where a missing value is a Forward.
    ghost forwards: { Self → Self.Forward → O → Type 0 };

    /// A Success, or an Error with this.
    fn or_error(self, error: Self::Error) -> O
        ensures { errs self error result };

    /// A Success, or a Forward with this.
    fn or_forward(self, forward: Self::Forward) -> O
        ensures { forwards self forward result };
}

impl<S, E: Drop, F: Drop> IntoOutcome<Outcome<S, E, F>> for Option<S> {
    ghost use Rattle.rkt_http.specs.IntoOutcome.{option_or_error, option_or_forward};

    type Error = E;

    type Forward = F;

    ghost errs = { λ o e r. r ≡ option_or_error o e };

    ghost forwards = { λ o f r. r ≡ option_or_forward o f };

    fn or_error(self, error: E) -> Outcome<S, E, F> {
        match self {
            Some(value) => Outcome::Success(value),
            None => Outcome::Error(error),
        }
    }

    fn or_forward(self, forward: F) -> Outcome<S, E, F> {
        match self {
            Some(value) => Outcome::Success(value),
            None => Outcome::Forward(forward),
        }
    }
}

/// As the outcome of a request guard.
impl<S, E: Drop> IntoOutcome<Outcome<S, (Status, E), Status>> for Result<S, E> {
    ghost use Rattle.rkt_http.specs.IntoOutcome.{result_or_error, result_or_forward};

    type Error = Status;

    type Forward = Status;

    ghost errs = { λ o e r. r ≡ result_or_error o e };

    ghost forwards = { λ o f r. r ≡ result_or_forward o f };

    fn or_error(self, error: Status) -> Outcome<S, (Status, E), Status> {
        match self {
            Ok(value) => Outcome::Success(value),
            Err(cause) => Outcome::Error((error, cause)),
        }
    }

    fn or_forward(self, forward: Status) -> Outcome<S, (Status, E), Status> {
        match self {
            Ok(value) => Outcome::Success(value),
            Err(_) => Outcome::Forward(forward),
        }
    }
}

/// As the outcome of a data guard, which hands on the body `D`.
impl<S, E: Drop, D: Drop> IntoOutcome<Outcome<S, (Status, E), (D, Status)>> for Result<S, E> {
    ghost use Rattle.rkt_http.specs.IntoOutcome.{result_or_error, result_or_forward};

    type Error = Status;

    type Forward = (D, Status);

    ghost errs = { λ o e r. r ≡ result_or_error o e };

    ghost forwards = { λ o f r. r ≡ result_or_forward o f };

    fn or_error(self, error: Status) -> Outcome<S, (Status, E), (D, Status)> {
        match self {
            Ok(value) => Outcome::Success(value),
            Err(cause) => Outcome::Error((error, cause)),
        }
    }

    fn or_forward(self, forward: (D, Status)) -> Outcome<S, (Status, E), (D, Status)> {
        match self {
            Ok(value) => Outcome::Success(value),
            Err(_) => Outcome::Forward(forward),
        }
    }
}

/// As the outcome of a route, whose Error is the status that the responder answered, and which hands on the body `D`.
impl<S, D: Drop> IntoOutcome<Outcome<S, Status, (D, Status)>> for Result<S, Status> {
    ghost use Rattle.rkt_http.specs.IntoOutcome.{responded_or_error, result_or_forward};

    type Error = ();

    type Forward = (D, Status);

    ghost errs = { λ o _ r. r ≡ responded_or_error o };

    ghost forwards = { λ o f r. r ≡ result_or_forward o f };

    fn or_error(self, _error: ()) -> Outcome<S, Status, (D, Status)> {
        match self {
            Ok(value) => Outcome::Success(value),
            Err(status) => Outcome::Error(status),
        }
    }

    fn or_forward(self, forward: (D, Status)) -> Outcome<S, Status, (D, Status)> {
        match self {
            Ok(value) => Outcome::Success(value),
            Err(_) => Outcome::Forward(forward),
        }
    }
}
