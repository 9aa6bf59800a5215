//! Parameters: all decoded segments of a path from one on, as a value.
ghost use Rattle.std.specs.Prelude.{◌≡◌, ℕ, List, Result};
ghost use Rattle.rkt_uri.specs.PathBuf.{path_of_names};
ghost use Rattle.rkt_param.specs.Reads.{UnlessNoMemory, TakesTexts, KeepsAnswer, KeepsValue};

use rkt_base::Want;
use rkt_uri::{PathBuf, PathError, Segments};
use std::alloc::Global;
use std::convert::Infallible;

/// A value that several decoded segments of a path may spell.
pub trait FromSegments: Sized {
    /// Why segments spell none.
    type Error: Drop;

    /// What segments may give: any value and any error, where nothing is said.
    ghost reads: { List (List ℕ) → Result Self Self.Error → Type 0 } = { λ _ _. Unit {0} };

    fn from_segments(alloc: Global, segments: Segments<'_>) -> Result<Self, Want<Self::Error>>
        ensures { UnlessNoMemory (reads segments.entry) result };
}

/// The path that the segments walk to, which may name no hidden file.
impl FromSegments for PathBuf {
    ghost use Rattle.std.specs.Prelude.{false};

    type Error = PathError;

    ghost reads = { λ segments r. r ≡ path_of_names false segments };

    fn from_segments(alloc: Global, segments: Segments<'_>) -> Result<PathBuf, Want<PathError>> {
        segments.to_path_buf(alloc, false)
    }
}

impl FromSegments for Vec<String> {
    type Error = Infallible;

    ghost reads = { TakesTexts };

    fn from_segments(
        alloc: Global,
        segments: Segments<'_>,
    ) -> Result<Vec<String>, Want<Infallible>> {
        let mut texts = Vec::with_capacity(alloc, segments.len())?;
        while let Some(segment) = segments.get(texts.len()) {
            texts.push(String::from_str(alloc, segment)?)?;
        }
        Ok(texts)
    }
}

impl<P: FromSegments> FromSegments for Result<P, P::Error> {
    type Error = Infallible;

    ghost reads = { KeepsAnswer P.reads };

    fn from_segments(
        alloc: Global,
        segments: Segments<'_>,
    ) -> Result<Result<P, P::Error>, Want<Infallible>> {
        match P::from_segments(alloc, segments) {
            Ok(value) => Ok(Ok(value)),
            Err(Want::Refused(error)) => Ok(Err(error)),
            Err(Want::NoMemory) => Err(Want::NoMemory),
        }
    }
}

impl<P: FromSegments> FromSegments for Option<P> {
    type Error = Infallible;

    ghost reads = { KeepsValue P.reads };

    fn from_segments(alloc: Global, segments: Segments<'_>) -> Result<Option<P>, Want<Infallible>> {
        match P::from_segments(alloc, segments) {
            Ok(value) => Ok(Some(value)),
            Err(Want::Refused(_)) => Ok(None),
            Err(Want::NoMemory) => Err(Want::NoMemory),
        }
    }
}
