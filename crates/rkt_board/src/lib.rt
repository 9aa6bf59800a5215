//! The board of a launch: what has happened, what is looked at, and one call for each event.
#![tactic(auto)]

mod board;
mod booked;
mod closing;
mod history;
mod log_record;
mod opening;
mod served;
mod turns;

pub use board::{Board, BoardOf, Initial, InitialOf, Log, Outside, Stepped};
pub use closing::{Closed, ClosedOf, finish};
pub use history::{End, Entry, EntryOf, Event, EventOf, Failure, History, HistoryOf, Kept, kept};
pub use log_record::{Record, RecordOf, recorded_trip};
pub use opening::lift;
pub use served::Served;
pub use turns::{close, down, end, entered_trip, look, moment, return_handle, settle, turn};
