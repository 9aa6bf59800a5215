//! What is recorded of the calls that are made for a request.
use rkt_http::Status;

/// A callback of the application, by its position.
#[derive(Clone, Copy, Debug, PartialEq, Eq)]
pub enum Which {
    /// A fairing, by its place among those that are called for requests.
    Request(usize),
    Route(usize),
    Catcher(usize),
    /// A fairing, by its place among those that are called for responses.
    Response(usize),
}

/// What a callback answered.
#[derive(Clone, Copy, Debug, PartialEq, Eq)]
pub enum Answer {
    /// A fairing is done.
    Done,
    Success,
    Error(Status),
    Forward(Status),
    Caught,
    Refused(Status),
    /// It answered Fault, or was Pending at its last turn.
    FailedTurn,
}

/// One call of a callback.
#[derive(Clone, Copy, Debug, PartialEq, Eq)]
pub struct Call {
    pub which: Which,
    pub answer: Answer,
    /// How many changes the jar's log has afterwards.
    pub changes: usize,
    /// How many values are cached afterwards.
    pub cached: usize,
    /// The word that the wire's handle has seen afterwards, or 0.
    pub word: u64,
}
