//! Streams of items, which are polled, and the sources that are made of streams and of other sources.
#![tactic(auto)]

mod chain;
mod piece;
pub mod stream;
mod stream_reader;
mod tally;

pub use chain::Chain;
pub use stream::{Join, One, ReaderStream, Stream, StreamExt};
pub use stream_reader::StreamReader;
