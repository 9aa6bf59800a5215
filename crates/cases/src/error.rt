use rkt_base::{NoMemory, Want};
use std::alloc::{AllocError, AllocFailed};

/// Why a case has no other answer.
#[derive(Clone, Copy, Drop)]
pub enum CaseError {
    /// The line is not of the line language.
    Line,
    /// A text of the line is refused.
    Refused,
    NoMemory,
}

impl CaseError {
    /// What is answered in place of an answer.
    pub fn text(self) -> &'static str {
        match self {
            CaseError::Line => "? line",
            CaseError::Refused => "refused",
            CaseError::NoMemory => "out of memory",
        }
    }
}

impl From<AllocError> for CaseError {
    fn from(_error: AllocError) -> CaseError {
        CaseError::NoMemory
    }
}

impl<T: Drop> From<AllocFailed<T>> for CaseError {
    fn from(_failed: AllocFailed<T>) -> CaseError {
        CaseError::NoMemory
    }
}

/// A part of a line that does not read makes it no case.
impl<E: Drop> From<Want<E>> for CaseError {
    fn from(want: Want<E>) -> CaseError {
        match want {
            Want::Refused(_) => CaseError::Line,
            Want::NoMemory => CaseError::NoMemory,
        }
    }
}

/// What a case answers that has no answer but for want of memory.
pub fn written(answer: Result<(), NoMemory>) -> Result<(), CaseError> {
    match answer {
        Ok(()) => Ok(()),
        Err(_) => Err(CaseError::NoMemory),
    }
}

/// Adds `done` where a change was made.
pub fn done(change: Result<(), CaseError>, out: &mut String) -> Result<(), CaseError> {
    match change {
        Ok(()) => written(out.push_str("done")),
        Err(error) => Err(error),
    }
}
