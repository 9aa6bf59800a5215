//! What a response is sent as.
ghost use Rattle.std.specs.Prelude.{◌≡◌, IfOk};

use rkt_base::{Bytes, NoMemory, Seq, Text, copy_all};
use std::alloc::{AllocError, Global};
use thiserror::Error;

/// A piece of a response on its way out.
#[derive(Debug, Drop)]
pub enum Piece {
    Head {
        status: u16,
        headers: Seq<(Text, Text)>,
    },
    Chunk(Bytes),
    End,
}

/// Why there is no next piece.
#[derive(Clone, Copy, Debug, Drop, PartialEq, Eq, Error)]
pub enum PieceError {
    /// The status or a header cannot be sent.
    #[error("no head can be formed")]
    BadHead,
    /// The source of the body has refused, or was Pending too often in a row.
    #[error("the body failed")]
    BodyFault,
    /// There was no memory.
    #[error("out of memory")]
    NoMemory,
}

impl From<AllocError> for PieceError {
    ghost use Rattle.std.specs.Prelude.{◌≡◌};
    ghost use Rattle.rkt_message.specs.declared.piece.PieceError.TheVariants.{NoMemory as OutOfMemory};

    ghost from_gives = { λ _ e. e ≡ OutOfMemory };

    fn from(_error: AllocError) -> PieceError {
        PieceError::NoMemory
    }
}

impl Piece {
    /// A copy, by an allocator that is handed in.
    pub fn try_clone(&self, alloc: Global) -> Result<Piece, NoMemory>
        ensures { IfOk result (λ p. p ≡ self.now) }
    {
        match self {
            Piece::Head { status, headers } => Ok(Piece::Head {
                status: *status,
                headers: Seq::from_vec(copy_all(alloc, headers.as_slice())?),
            }),
            Piece::Chunk(bytes) => Ok(Piece::Chunk(bytes.try_clone(alloc)?)),
            Piece::End => Ok(Piece::End),
        }
    }
}
