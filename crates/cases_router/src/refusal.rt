//! What is answered in place of what is refused.
use cases::{CaseError, written};
use rkt_base::Want;
use rkt_http::InvalidUri;
use rkt_router::BadCode;

/// Adds the place where a text leaves the grammar.
pub fn push_misplaced(error: Want<InvalidUri>, out: &mut String) -> Result<(), CaseError> {
    match error {
        Want::Refused(InvalidUri { at }) => written(write!(out, "refused at {at}")),
        Want::NoMemory => Err(CaseError::NoMemory),
    }
}

/// Adds the code that no catcher may have.
pub fn push_bad_code(error: Want<BadCode>, out: &mut String) -> Result<(), CaseError> {
    match error {
        Want::Refused(BadCode { code }) => written(write!(out, "bad code {code}")),
        Want::NoMemory => Err(CaseError::NoMemory),
    }
}
