//! The worker of a launch: it serves the links that a listener gives, each with one exchange, under the Gates of a
//! board, until the listener ends or the wire is tripped, and brings the board to its Close.
#![tactic(auto)]

mod caller;
mod causes;
mod exchanging;
mod gates;
mod lending;
mod looking;
mod sending;
mod serves;
mod taking;
mod working;

pub use caller::serve_to_close;
pub use gates::Gates;
pub use sending::send;
pub use serves::{Exchanges, Serves};
