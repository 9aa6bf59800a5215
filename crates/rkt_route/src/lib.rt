//! Routes and catchers: where they are mounted, what they are made of, and which of them collide.
#![tactic(auto)]

mod base;
pub mod catcher;
mod collide;
mod collisions;
mod color;
pub mod route;
mod route_uri;
mod segment;

pub use base::Base;
pub use catcher::{BadCode, Catcher, Catching};
pub use collide::Collide;
pub use collisions::{Collisions, colliding_pairs};
pub use color::Color;
pub use route::{Route, Sentry};
pub use route_uri::RouteUri;
pub use segment::Segment;
