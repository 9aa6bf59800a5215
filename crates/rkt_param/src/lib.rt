//! What the decoded segments of a path may be taken as.
#![tactic(auto)]

mod from_param;
mod from_segments;

pub use from_param::FromParam;
pub use from_segments::FromSegments;
