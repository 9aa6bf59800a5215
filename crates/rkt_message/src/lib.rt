//! Responses: a status, headers and a body, and the pieces that these are sent as.
#![tactic(auto)]

mod body;
mod builder;
mod chunk;
mod content;
mod drain;
mod head;
mod lends;
mod piece;
mod pieces;
mod response;
mod stage;
mod to_bytes;
mod to_string;
mod whole;

pub use body::Body;
pub use builder::Builder;
pub use piece::{Piece, PieceError};
pub use pieces::Pieces;
pub use response::Response;
pub use to_bytes::ToBytes;
pub use to_string::ToString;
