//! Fairings of one callback, each of which its author writes as one change that is made at once.
#![tactic(auto)]

mod ad_hoc;
mod ad_hoc_life;
mod at_once;
mod life_changes;

pub use ad_hoc::{AdHoc, OnRequest, OnResponse};
pub use ad_hoc_life::{OnIgnite, OnLiftoff, OnShutdown, TryOnIgnite};
pub use at_once::{AtOnce, ChangesRequest, ChangesResponse};
pub use life_changes::{ChangesBuilding, SeesLiftoff, SeesShutdown, TriesBuilding};
