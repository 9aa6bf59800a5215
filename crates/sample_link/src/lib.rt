//! The example of a real link: one over a source and a sink, as a server over sockets writes it. Beside it stand the two ends
//! of a pipe in memory, which may be Pending, may fail, and may be closed by the other side.
#![tactic(auto)]

mod calls;
mod encoding;
mod outbox;
mod pipe_sink;
mod pipe_source;
mod stream_link;

pub use calls::{Calls, Turn};
pub use pipe_sink::PipeSink;
pub use pipe_source::PipeSource;
pub use stream_link::StreamLink;
