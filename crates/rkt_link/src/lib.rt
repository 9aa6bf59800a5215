//! The outside of a launch: listeners, their links, clocks, and what stands for each in memory.
#![tactic(auto)]

mod cancellable_listener;
mod clock;
mod link;
mod links;
mod list_clock;
mod list_listener;
mod listener;
mod memory_link;
mod system_clock;

pub use cancellable_listener::CancellableListener;
pub use clock::Clock;
pub use link::{Delivery, Link, SendError};
pub use links::Links;
pub use list_clock::ListClock;
pub use list_listener::ListListener;
pub use listener::{Accepted, Listener};
pub use memory_link::MemoryLink;
pub use system_clock::SystemClock;
