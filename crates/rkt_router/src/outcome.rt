//! What a handler answers.
ghost use Rattle.std.specs.Prelude.{◌≡◌};

use rkt_http::{Outcome, Status};
use rkt_message::Response;
use rkt_request::{Body0, Types};

/// What a handler answers: a response, a status whose catcher is to answer, or the body, left to another route.
pub type RouteOutcome<T> = Outcome<Response<<T as Types>::Stream>, Status, (Body0<T>, Status)>;

/// An Error with this status.
pub fn error<T: Types>(status: Status) -> RouteOutcome<T>
    ensures { result ≡ Outcome.Error status }
{
    Outcome::Error(status)
}

/// A Forward of this body, with this status.
pub fn forward<T: Types>(body: Body0<T>, status: Status) -> RouteOutcome<T>
    ensures { result ≡ Outcome.Forward (body, status) }
{
    Outcome::Forward((body, status))
}
