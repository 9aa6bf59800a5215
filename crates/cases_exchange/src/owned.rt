//! What becomes of a value where a step fails beside it. It is let go by a call, so that how that goes is proved once.
use cases::CaseError;

/// Lets a value go for which there is no memory.
pub fn no_memory<T: Drop>(value: T) -> Result<(), CaseError> {
    drop(value);
    Err(CaseError::NoMemory)
}

/// The value, if what was to be done to it was done.
pub fn kept<T: Drop, D: Drop, E: Drop>(value: T, done: Result<D, E>) -> Result<T, E> {
    match done {
        Ok(_) => Ok(value),
        Err(error) => {
            drop(value);
            Err(error)
        }
    }
}
