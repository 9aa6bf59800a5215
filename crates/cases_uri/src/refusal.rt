use cases::CaseError;
use rkt_base::Want;
use rkt_uri::{InvalidUri, PathError};
use std::alloc::AllocError;

/// Why a line has no answer.
#[derive(Clone, Copy, Drop)]
pub enum Refusal {
    /// The text is not of its grammar.
    Uri(InvalidUri),
    /// The segments are no path of the file system.
    Path(PathError),
    /// The line is no case, or there is no memory.
    Case(CaseError),
}

impl From<AllocError> for Refusal {
    fn from(_error: AllocError) -> Refusal {
        Refusal::Case(CaseError::NoMemory)
    }
}

impl From<CaseError> for Refusal {
    fn from(error: CaseError) -> Refusal {
        Refusal::Case(error)
    }
}

impl From<Want<InvalidUri>> for Refusal {
    fn from(want: Want<InvalidUri>) -> Refusal {
        match want {
            Want::Refused(fault) => Refusal::Uri(fault),
            Want::NoMemory => Refusal::Case(CaseError::NoMemory),
        }
    }
}

impl From<Want<PathError>> for Refusal {
    fn from(want: Want<PathError>) -> Refusal {
        match want {
            Want::Refused(fault) => Refusal::Path(fault),
            Want::NoMemory => Refusal::Case(CaseError::NoMemory),
        }
    }
}
