//! The program's work: a script of requests is read, served by the sample application, and printed.
#![tactic(auto)]

mod laws;
mod output;
mod program;
mod sample;
mod serving;

pub use laws::{printed_alone, printed_once, shown_once};
pub use program::{CONFIG_REFUSAL, run};
pub use rkt_script::{
    BadLine, SCRIPT_LIMIT, ScriptRequest, USAGE, offers_once, parse_script, sets_once,
};
pub use sample::{ByHandler, NeverStops, Sample, SampleHistory};
pub use serving::launch_sample;
