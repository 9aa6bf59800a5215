//! The request, what is lent beside it, and what it is asked by.
#![tactic(auto)]

mod asked;
mod bad;
mod ctx;
mod data_guards;
mod format_law;
mod from_data;
mod from_request;
mod from_text;
mod guards;
mod head;
mod incoming;
mod lends;
mod params;
mod request;
mod request_headers;
mod types;

pub use bad::Bad;
pub use ctx::Ctx;
pub use format_law::has_one_format;
pub use from_data::{DataOutcome, FromData, GuardError};
pub use from_request::{Context, FromRequest, GuardOutcome};
pub use from_text::{FromText, Parsed, TextError};
pub use head::{Head, Mounted};
pub use incoming::Incoming;
pub use request::Request;
pub use rkt_config::{BadConfig, Config, ConfigTable, DuplicateState, Limits, Managed, State};
pub use rkt_param::{FromParam, FromSegments};
pub use types::{Body0, HasBody, Types};
