//! Sources and sinks of bytes, which are polled, those in memory, and objects that a trip cuts off.
#![tactic(auto)]

mod buffer;
mod cancel;
mod memory;
mod sink;
mod source;
mod stage;

pub use buffer::resume_buffer;
pub use cancel::{CancellableIo, cuts_after_grace};
pub use memory::{MemorySink, MemorySource};
pub use sink::{Sink, SinkError};
pub use source::{Gate, Shut, Source, SourceError};
pub use stage::{Refused, Stage};
