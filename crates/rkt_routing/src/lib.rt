//! How a request is routed to its response: routes are tried, forwards reach the next one, errors reach their catcher, poll by
//! poll.
#![tactic(auto)]

mod catching;
mod laws;
mod progress;
mod recording;
mod routing;
mod run;
mod stage;
mod table;
mod trying;

pub use laws::walks_are_in_order;
pub use progress::Progress;
pub use recording::recorded;
pub use routing::{Routed, RoutingOf};
pub use run::{Answer, Call, Which};
pub use stage::{Live, LiveOf, RoutedOf};
pub use table::TableOf;
