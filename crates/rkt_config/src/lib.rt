//! What a server is set to: its configuration, the limits of what it reads, and the values that it manages.
#![tactic(auto)]

mod config;
mod config_table;
mod joined;
mod limit_law;
mod limits;
mod managed;
mod numbers;
mod setting;
mod state;

pub use config::{BadConfig, Config};
pub use config_table::ConfigTable;
pub use limit_law::has_one_limit;
pub use limits::Limits;
pub use managed::{DuplicateState, Managed};
pub use state::State;
