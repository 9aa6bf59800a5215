//! Standard streams as a source and a sink. They tell no content.
mod reader_source;
mod writer_sink;

pub use reader_source::ReaderSource;
pub use writer_sink::WriterSink;
