//! The sample application: its routes and catchers, each with just what it answers.
#![tactic(auto)]

mod catcher;
mod cookies;
mod greeting;
mod laws;
mod mounted;
mod replies;
mod route;
mod source;
mod stop;
mod text;

pub use catcher::SampleCatcher;
pub use laws::{catchers_answer, param_reads_age, routes_reply};
pub use mounted::{catchers, routes};
pub use route::SampleRoute;
pub use source::ToldSource;
pub use stop::StopReason;
