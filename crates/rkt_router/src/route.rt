//! Routes, and what their handlers answer.
pub use crate::outcome::{error, forward};
pub use rkt_route::route::{Route, Sentry, StaticInfo};
