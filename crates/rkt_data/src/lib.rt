//! Bodies of requests: what is read of a source under a limit. What bodies are made of is offered beside them: sources and
//! sinks, objects that are cut off, and streams.
#![tactic(auto)]

mod capped;
mod copy;
mod counted_source;
mod data;
mod data_stream;
mod drain;
mod error;
pub mod ext;
mod into_bytes;
mod into_string;
mod limited_reader;
mod peek;
mod sender;
mod stream_to;

pub use capped::{Capped, N};
pub use data::{Data, PEEK_BYTES, peeked_pulls};
pub use data_stream::{ByteUnit, DataStream};
pub use error::DataError;
pub use ext::{AsyncReadExt, PollExt};
pub use into_bytes::IntoBytes;
pub use into_string::IntoString;
pub use rkt_source::{
    CancellableIo, Gate, MemorySink, MemorySource, Refused, Shut, Sink, SinkError, Source,
    SourceError, Stage, cuts_after_grace, resume_buffer,
};
pub use rkt_stream::{Chain, Join, One, Stream, StreamExt, StreamReader, stream};
pub use stream_to::{StreamPrecise, StreamTo};
