//! What a handler answers with: responders and flash messages, over responses and their bodies.
#![tactic(auto)]

mod flash;
mod flash_message;
pub mod responder;

pub use flash::Flash;
pub use flash_message::FlashMessage;
pub use responder::{Debug, Redirect, Responder, ResponseResult};
pub use rkt_message::{Body, Builder, Piece, PieceError, Pieces, Response, ToBytes, ToString};
