//! What a type reads of a text or of segments.
use crate::shown::Shown;
use cases::CaseError;
use rkt_base::Want;
use rkt_param::{FromParam, FromSegments};
use rkt_uri::Segments;
use std::alloc::Global;
use std::fmt::{Debug, Display};

/// Adds a value, or the error in its place.
fn push_shown<P: Shown + Drop, E: Debug + Drop>(
    read: Result<P, Want<E>>,
    out: &mut String,
) -> Result<(), CaseError> {
    match read {
        Ok(value) => Ok(value.show(out)?),
        Err(Want::Refused(error)) => Ok(write!(out, "refused {error:?}")?),
        Err(Want::NoMemory) => Err(CaseError::NoMemory),
    }
}

/// The same of a value that prints.
fn push_printed<P: Display + Drop, E: Debug + Drop>(
    read: Result<P, Want<E>>,
    out: &mut String,
) -> Result<(), CaseError> {
    match read {
        Ok(value) => Ok(write!(out, "{value}")?),
        Err(Want::Refused(error)) => Ok(write!(out, "refused {error:?}")?),
        Err(Want::NoMemory) => Err(CaseError::NoMemory),
    }
}

/// Adds what a text gives, through the bound, where the value prints.
pub fn read<P: FromParam<Error = String> + Display + Drop>(
    alloc: Global,
    text: &str,
    out: &mut String,
) -> Result<(), CaseError> {
    push_printed(P::from_param(alloc, text), out)
}

/// Adds what a text gives, through the bound.
pub fn read_shown<P: FromParam + Shown + Drop>(
    alloc: Global,
    text: &str,
    out: &mut String,
) -> Result<(), CaseError>
where
    P::Error: Debug,
{
    push_shown(P::from_param(alloc, text), out)
}

/// Adds what segments give, through the bound.
pub fn read_segments<P: FromSegments + Shown + Drop>(
    alloc: Global,
    segments: Segments<'_>,
    out: &mut String,
) -> Result<(), CaseError>
where
    P::Error: Debug,
{
    push_shown(P::from_segments(alloc, segments), out)
}
