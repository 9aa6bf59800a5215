//! Catchers.
pub use crate::page::default_handler;
pub use rkt_route::catcher::{BadCode, Catcher, Catching, StaticInfo};
