//! One exchange, poll by poll: its request gets its method, fairings are called for it, it is routed to its response,
//! and fairings are called for that.
#![tactic(auto)]

mod calls;
mod ended;
mod exchange;
mod finalizing;
mod peeking;
mod phase;
mod preprocessing;
mod tables;

pub use calls::{Arrival, ArrivalOf, Departure, DepartureOf, FinalizedOf, PreprocessedOf};
pub use ended::{Ended, EndedOf, Run, RunOf};
pub use exchange::{Exchange, ExchangeOf, PhaseOf};
pub use finalizing::{Finalized, ResponseFairings};
pub use peeking::{Peeking, PeekingOf};
pub use phase::Phase;
pub use preprocessing::{Preprocessed, RequestFairings};
pub use tables::{Tables, TablesOf};
