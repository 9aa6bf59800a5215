//! The seat of a worker at a board that several share: each event of its is one turn behind the lock of the board.
#![tactic(auto)]

mod seat;

pub use seat::{Delays, Looked, end, look, return_handle, step};
