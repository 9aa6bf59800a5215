//! Parameters: one decoded segment of a path as a value.
ghost use Rattle.std.specs.Prelude.{◌≡◌, ℕ, List, Result};
ghost use Rattle.rkt_uri.specs.PathBuf.{path_of_names};
ghost use Rattle.rkt_param.specs.Reads.{UnlessNoMemory, StdReads, TakesText, KeepsAnswer, KeepsValue};

mod addresses;
mod numbers;

use rkt_base::{Text, Want};
use rkt_uri::{PathBuf, PathError, Segments};
use std::alloc::Global;
use std::convert::Infallible;
use std::str::FromStr;

/// A value that one decoded segment of a path may spell.
pub trait FromParam: Sized {
    /// Why a text spells none.
    type Error: Drop;

    /// What a text may give: any value and any error, where nothing is said.
    ghost reads: { List ℕ → Result Self Self.Error → Type 0 } = { λ _ _. Unit {0} };

    fn from_param(alloc: Global, param: &str) -> Result<Self, Want<Self::Error>>
        ensures { UnlessNoMemory (reads param.now) result };
}

/// What std reads, or else the text itself.
fn read<P: FromStr>(alloc: Global, param: &str) -> Result<P, Want<String>>
where
    P::Err: Drop,
    ensures { UnlessNoMemory (StdReads P.from_str_gives param.now) result }
{
    match param.parse::<P>() {
        Ok(value) => Ok(value),
        Err(_) => Err(Want::Refused(String::from_str(alloc, param)?)),
    }
}

impl FromParam for String {
    type Error = Infallible;

    ghost reads = { TakesText };

    fn from_param(alloc: Global, param: &str) -> Result<String, Want<Infallible>> {
        Ok(String::from_str(alloc, param)?)
    }
}

/// The segment as a path of its own, which may name no hidden file.
impl FromParam for PathBuf {
    ghost use Rattle.std.specs.Prelude.{◌∷◌, [], false};

    type Error = PathError;

    ghost reads = { λ text r. r ≡ path_of_names false (text ∷ []) };

    fn from_param(alloc: Global, param: &str) -> Result<PathBuf, Want<PathError>> {
        let segments = [Text::new(alloc, param)?];
        Segments::new(&segments).to_path_buf(alloc, false)
    }
}

impl<P: FromParam> FromParam for Result<P, P::Error> {
    type Error = Infallible;

    ghost reads = { KeepsAnswer P.reads };

    fn from_param(alloc: Global, param: &str) -> Result<Result<P, P::Error>, Want<Infallible>> {
        match P::from_param(alloc, param) {
            Ok(value) => Ok(Ok(value)),
            Err(Want::Refused(error)) => Ok(Err(error)),
            Err(Want::NoMemory) => Err(Want::NoMemory),
        }
    }
}

impl<P: FromParam> FromParam for Option<P> {
    type Error = Infallible;

    ghost reads = { KeepsValue P.reads };

    fn from_param(alloc: Global, param: &str) -> Result<Option<P>, Want<Infallible>> {
        match P::from_param(alloc, param) {
            Ok(value) => Ok(Some(value)),
            Err(Want::Refused(_)) => Ok(None),
            Err(Want::NoMemory) => Err(Want::NoMemory),
        }
    }
}
