//! What a handler or a guard answers: Success, Error, or Forward to whatever may answer next.
ghost use Rattle.std.specs.Prelude.{◌≡◌, ◌↔◌, IsTrue, Option, Some, None, Result, Ok, Err, codes};
ghost use Rattle.rkt_http.specs.Outcome.{MatchOutcome, IsSuccess, IsError, IsForward, ForSuccess, ForError, ForForward, IsErrorAnd, IsForwardAnd, Maps, MapsError, MapsForward, GoesOn, GoesOnFromError, GoesOnFromForward, succeeded, failed, forwarded, success_or, map_outcome};

mod into_outcome;
mod laws;

pub use into_outcome::IntoOutcome;
pub use laws::outcome_laws;
use std::fmt;

/// An answer of a handler or a guard.
///
/// Two types of the answer are free: what an Error carries, mostly a status, and what a Forward hands on, mostly a
/// request's body with a status.
#[derive(Clone, Copy, PartialEq, Eq, PartialOrd, Ord, Hash, Drop)]
pub enum Outcome<S, E, F> {
    /// The value that was asked for.
    Success(S),
    /// A failure that a catcher answers.
    Error(E),
    /// Left to the next that may answer.
    Forward(F),
}

impl<S, E, F> Outcome<S, E, F> {
    /// The value of a Success.
    pub fn unwrap(self) -> S
        requires { IsSuccess self }
        ensures { self ≡ Outcome.Success result }
    {
        match self {
            Outcome::Success(value) => value,
            Outcome::Error(_error) => unreachable!(),
            Outcome::Forward(_forward) => unreachable!(),
        }
    }

    /// The value of a Success; the message says why it has to be one.
    pub fn expect(self, _message: &str) -> S
        requires { IsSuccess self }
        ensures { self ≡ Outcome.Success result }
    {
        self.unwrap()
    }

    pub fn is_success(&self) -> bool
        ensures { IsTrue result ↔ IsSuccess self.now }
    {
        matches!(self, Outcome::Success(_))
    }

    pub fn is_error(&self) -> bool
        ensures { IsTrue result ↔ IsError self.now }
    {
        matches!(self, Outcome::Error(_))
    }

    pub fn is_forward(&self) -> bool
        ensures { IsTrue result ↔ IsForward self.now }
    {
        matches!(self, Outcome::Forward(_))
    }

    pub fn as_ref(&self) -> Outcome<&S, &E, &F>
        ensures { map_outcome (λ s. s.now) (λ e. e.now) (λ f. f.now) result ≡ self.now }
    {
        match self {
            Outcome::Success(value) => Outcome::Success(value),
            Outcome::Error(error) => Outcome::Error(error),
            Outcome::Forward(forward) => Outcome::Forward(forward),
        }
    }

    pub fn as_mut(&mut self) -> Outcome<&mut S, &mut E, &mut F>
        ensures { map_outcome (λ s. s.now) (λ e. e.now) (λ f. f.now) result ≡ self.old }
    {
        match self {
            Outcome::Success(value) => Outcome::Success(value),
            Outcome::Error(error) => Outcome::Error(error),
            Outcome::Forward(forward) => Outcome::Forward(forward),
        }
    }

    /// Changes the value of a Success.
    pub fn map<T, M: FnOnce(S) -> T>(self, f: M) -> Outcome<T, E, F>
        requires { ForSuccess self (M.pre f) }
        ensures { Maps (M.post f) self result }
    {
        match self {
            Outcome::Success(value) => Outcome::Success(f(value)),
            Outcome::Error(error) => Outcome::Error(error),
            Outcome::Forward(forward) => Outcome::Forward(forward),
        }
    }

    /// Changes what an Error carries.
    pub fn map_error<T, M: FnOnce(E) -> T>(self, f: M) -> Outcome<S, T, F>
        requires { ForError self (M.pre f) }
        ensures { MapsError (M.post f) self result }
    {
        match self {
            Outcome::Success(value) => Outcome::Success(value),
            Outcome::Error(error) => Outcome::Error(f(error)),
            Outcome::Forward(forward) => Outcome::Forward(forward),
        }
    }

    /// Changes what a Forward hands on.
    pub fn map_forward<T, M: FnOnce(F) -> T>(self, f: M) -> Outcome<S, E, T>
        requires { ForForward self (M.pre f) }
        ensures { MapsForward (M.post f) self result }
    {
        match self {
            Outcome::Success(value) => Outcome::Success(value),
            Outcome::Error(error) => Outcome::Error(error),
            Outcome::Forward(forward) => Outcome::Forward(f(forward)),
        }
    }

    /// Goes on from a Success with another outcome.
    pub fn and_then<T, M: FnOnce(S) -> Outcome<T, E, F>>(self, f: M) -> Outcome<T, E, F>
        requires { ForSuccess self (M.pre f) }
        ensures { GoesOn (M.post f) self result }
    {
        match self {
            Outcome::Success(value) => f(value),
            Outcome::Error(error) => Outcome::Error(error),
            Outcome::Forward(forward) => Outcome::Forward(forward),
        }
    }

    /// Goes on from an Error with another outcome.
    pub fn error_then<T, M: FnOnce(E) -> Outcome<S, T, F>>(self, f: M) -> Outcome<S, T, F>
        requires { ForError self (M.pre f) }
        ensures { GoesOnFromError (M.post f) self result }
    {
        match self {
            Outcome::Success(value) => Outcome::Success(value),
            Outcome::Error(error) => f(error),
            Outcome::Forward(forward) => Outcome::Forward(forward),
        }
    }

    /// Goes on from a Forward with another outcome.
    pub fn forward_then<T, M: FnOnce(F) -> Outcome<S, E, T>>(self, f: M) -> Outcome<S, E, T>
        requires { ForForward self (M.pre f) }
        ensures { GoesOnFromForward (M.post f) self result }
    {
        match self {
            Outcome::Success(value) => Outcome::Success(value),
            Outcome::Error(error) => Outcome::Error(error),
            Outcome::Forward(forward) => f(forward),
        }
    }

    /// A Success as Ok, an Error as Err, and for a Forward what `f` answers.
    pub fn ok_map_forward<M: FnOnce(F) -> Result<S, E>>(self, f: M) -> Result<S, E>
        requires { ForForward self (M.pre f) }
        ensures { MatchOutcome self (λ s. result ≡ Ok s) (λ e. result ≡ Err e) (λ v. M.post f v result) }
    {
        match self {
            Outcome::Success(value) => Ok(value),
            Outcome::Error(error) => Err(error),
            Outcome::Forward(forward) => f(forward),
        }
    }

    /// A Success as Ok, a Forward as Err, and for an Error what `f` answers.
    pub fn ok_map_error<M: FnOnce(E) -> Result<S, F>>(self, f: M) -> Result<S, F>
        requires { ForError self (M.pre f) }
        ensures { MatchOutcome self (λ s. result ≡ Ok s) (λ e. M.post f e result) (λ v. result ≡ Err v) }
    {
        match self {
            Outcome::Success(value) => Ok(value),
            Outcome::Error(error) => f(error),
            Outcome::Forward(forward) => Err(forward),
        }
    }

    fn variant(&self) -> &'static str
        ensures { MatchOutcome self.now (λ s. result.now ≡ codes "Success") (λ e. result.now ≡ codes "Error")
            (λ v. result.now ≡ codes "Forward") }
    {
        match self {
            Outcome::Success(_) => "Success",
            Outcome::Error(_) => "Error",
            Outcome::Forward(_) => "Forward",
        }
    }
}

impl<S: Drop, E: Drop, F: Drop> Outcome<S, E, F> {
    /// The value of a Success.
    pub fn succeeded(self) -> Option<S>
        ensures { result ≡ succeeded self }
    {
        match self {
            Outcome::Success(value) => Some(value),
            Outcome::Error(_) | Outcome::Forward(_) => None,
        }
    }

    /// What an Error carries.
    pub fn failed(self) -> Option<E>
        ensures { result ≡ failed self }
    {
        match self {
            Outcome::Error(error) => Some(error),
            Outcome::Success(_) | Outcome::Forward(_) => None,
        }
    }

    /// What a Forward hands on.
    pub fn forwarded(self) -> Option<F>
        ensures { result ≡ forwarded self }
    {
        match self {
            Outcome::Forward(forward) => Some(forward),
            Outcome::Success(_) | Outcome::Error(_) => None,
        }
    }

    /// A Success as Ok, and for anything else this value as Err.
    pub fn success_or<T: Drop>(self, value: T) -> Result<S, T>
        ensures { result ≡ success_or self value }
    {
        match self {
            Outcome::Success(success) => Ok(success),
            Outcome::Error(_) | Outcome::Forward(_) => Err(value),
        }
    }

    /// A Success as Ok, and for anything else what `f` answers as Err.
    pub fn success_or_else<T, V: FnOnce() -> T + Drop>(self, f: V) -> Result<S, T>
        requires { V.IsAlwaysCallable f }
        ensures success { (s : S) → self ≡ Outcome.Success s → result ≡ Ok s }
        ensures otherwise { succeeded self ≡ None → (t : T) × V.post f t × (result ≡ Err t) }
    {
        match self {
            Outcome::Success(success) => Ok(success),
            Outcome::Error(_) | Outcome::Forward(_) => Err(f()),
        }
    }
}

impl<S, E, F> fmt::Debug for Outcome<S, E, F> {
    ghost use Rattle.std.specs.Prelude.{◌++◌, Some, codes};
    ghost use Rattle.rkt_http.specs.Outcome.{variant_name};

    ghost debug_output = { λ outcome. Some (codes "Outcome::" ++ variant_name outcome) };

    fn fmt<W: fmt::Write>(&self, f: &mut fmt::Formatter<W>) -> fmt::Result {
        f.write_str("Outcome::")?;
        f.write_str(self.variant())
    }
}

impl<S, E, F> fmt::Display for Outcome<S, E, F> {
    ghost use Rattle.std.specs.Prelude.{Some};
    ghost use Rattle.rkt_http.specs.Outcome.{variant_name};

    ghost output = { λ outcome. Some (variant_name outcome) };

    fn fmt<W: fmt::Write>(&self, f: &mut fmt::Formatter<W>) -> fmt::Result {
        f.write_str(self.variant())
    }
}

/// The value of a Success; any other variant is returned from the function at hand, its value passed through `From`.
#[macro_export]
macro_rules! try_outcome {
    ($outcome:expr $(,)?) => {
        match $outcome {
            $crate::outcome::Outcome::Success(value) => value,
            $crate::outcome::Outcome::Error(error) => {
                return $crate::outcome::Outcome::Error(From::from(error))
            }
            $crate::outcome::Outcome::Forward(forward) => {
                return $crate::outcome::Outcome::Forward(From::from(forward))
            }
        }
    };
}

/// A law of `try_outcome!`: it goes on with the value of a Success, and returns an Error as an Error and a Forward as a
/// Forward. Both carry the same type here, so that only this clause tells them apart.
pub fn try_outcome_returns<S, E, R: From<E>>(outcome: Outcome<S, E, E>) -> Outcome<S, R, R>
    ensures { MatchOutcome outcome (λ s. result ≡ Outcome.Success s) (λ e. IsErrorAnd result (R.from_gives e))
        (λ v. IsForwardAnd result (R.from_gives v)) }
{
    let value = try_outcome!(outcome);
    Outcome::Success(value)
}
