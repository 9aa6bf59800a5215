//! What the program reads and writes: the words of its command line, its script of requests, and whole streams.
#![tactic(auto)]

mod laws;
mod script;
mod stopping;
mod stream;
mod words;

pub use laws::{offers_once, sets_once};
pub use script::{BadLine, SCRIPT_LIMIT, ScriptRequest, parse_script};
pub use stopping::before_stop;
pub use stream::{GATE, StreamError, read_all, write_all};
pub use words::{NoCommand, USAGE, read_command};
