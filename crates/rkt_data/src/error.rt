//! Why a call that reads a body gave no value.
use rkt_source::SourceError;
use thiserror::Error;

/// Why a body was not read to its end or to its limit.
#[derive(Clone, Copy, Debug, Drop, PartialEq, Eq, Error)]
pub enum DataError {
    /// The source has failed.
    #[error("the source failed")]
    SourceFault,
    /// The bytes are no UTF-8, but for the first `valid_up_to`.
    #[error("not UTF-8 past the first {valid_up_to} bytes")]
    NotUtf8 { valid_up_to: usize },
    /// The sink has failed.
    #[error("the sink failed")]
    SinkFault,
    /// The source was shut.
    #[error("the source is gone")]
    Gone,
    /// The source was cut off before it was shut.
    #[error("the source timed out")]
    TimedOut,
    /// There was no memory.
    #[error("out of memory")]
    NoMemory,
}

impl From<SourceError> for DataError {
    ghost use Rattle.std.specs.Prelude.{◌≡◌};
    ghost use Rattle.rkt_data.specs.Gathering.{data_error_of};

    ghost from_gives = { λ e error. error ≡ data_error_of e };

    fn from(e: SourceError) -> DataError {
        match e {
            SourceError::SourceFault => DataError::SourceFault,
            SourceError::Gone => DataError::Gone,
            SourceError::TimedOut => DataError::TimedOut,
        }
    }
}
