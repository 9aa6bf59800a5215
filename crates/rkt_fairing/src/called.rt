//! How a call at liftoff or at a shutdown ended.

/// How the call of a liftoff or a shutdown callback ended.
#[derive(Clone, Copy, Debug, PartialEq, Eq)]
pub enum Called {
    /// It was done.
    Done,
    /// It answered Fault, or was still Pending at its last turn.
    FailedTurn,
    /// There was no memory.
    Starved,
}
