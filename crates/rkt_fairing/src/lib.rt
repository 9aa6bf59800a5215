//! Fairings: what an application attaches to a rocket's life, the lists of them by kind, the builder, and what is
//! called of them at liftoff and at a shutdown.
#![tactic(auto)]

mod active;
mod at_liftoff;
mod at_shutdown;
mod below;
mod building;
mod building_parts;
mod callback;
mod called;
mod fairing;
mod fairings;
mod in_slot;
mod info;
mod kind;
mod lends;
mod life;
mod lifting;
mod lists;
mod parts;
mod places;
mod quiet;
mod shielded;
mod shutting;
mod slot;
mod told;
mod turn;

pub use active::Active;
pub use building::{BuildingOf, InvalidBase};
pub use building_parts::BuildingPartsOf;
pub use callback::Callback;
pub use called::Called;
pub use fairing::{Fairing, RequestCallback, ResponseCallback};
pub use fairings::Fairings;
pub use in_slot::InSlot;
pub use info::{Attach, Info};
pub use kind::Kind;
pub use life::{IgniteCallback, LiftoffCallback, ShutdownCallback};
pub use lifting::liftoff;
pub use parts::{App, AppBuilding, Building, Parts, View, ViewOf};
pub use quiet::Quiet;
pub use shutting::{down_room, shut_down};
pub use slot::Slot;
pub use turn::{turn_request, turn_response};
