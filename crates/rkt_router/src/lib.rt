//! Ranked routes and catchers, and which of them a request is answered by.
#![tactic(auto)]

pub mod catcher;
mod chosen;
mod dummy;
mod handler;
mod matches;
mod order;
mod outcome;
mod page;
pub mod route;
mod router;
mod step;
mod tries;
mod turn;

pub use dummy::Dummy;
pub use handler::{CatchHandler, Handler};
pub use outcome::RouteOutcome;
pub use page::default_handler;
pub use rkt_route::{
    BadCode, Base, Catcher, Catching, Collide, Collisions, Color, Route, RouteUri, Segment, Sentry,
};
pub use router::Router;
pub use step::Step;
pub use tries::{Tries, next_tries_are_tries, tries_are_alike, tries_are_one_list};
pub use turn::{Final, Polled, turn_catch, turn_handler};
