//! What the threads of a launch share: the wire by which a shutdown is told, and a turn lock, behind which a state stands
//! that one pass has at a time.
#![tactic(auto)]

mod booked;
mod glance;
mod known;
mod lends;
mod pass;
mod reason;
mod steps;
mod turn;
mod turnstile;
mod wire;

pub use booked::Booked;
pub use glance::{Glance, WireRule};
pub use known::{Known, Returned, TurnRule};
pub use pass::{Pass, PassOf};
pub use reason::Reason;
pub use turn::Turn;
pub use turnstile::Turnstile;
pub use wire::{Shutdown, TripWire, Wire};
