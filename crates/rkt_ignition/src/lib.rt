//! Ignition: what was built of a rocket becomes what it may be launched with, or is refused; and what may keep a rocket
//! from being launched.
#![tactic(auto)]

mod accepting;
mod answer;
mod asking;
mod calling;
mod error;
mod igniting;
mod laws;
mod node;
mod parts;
mod reach;
mod rounds;
mod routed;
mod sentinel;
mod sentries;

pub use answer::{IgniteAnswer, IgniteCall};
pub use asking::query;
pub use error::{Aborted, IgniteError};
pub use igniting::{IgnitedParts, ignite};
pub use laws::{at_most_one_catches, ranks_differ, reached_is_closed};
pub use parts::IgnitedPartsOf;
pub use sentinel::{Aborts, Asks, Ignited, Sentinel};
