//! What is done to a request before it is routed, and to a response before it is sent: the first field of a form may set the
//! method of a POST, the pending cookies and the server's name are added, and the rule on bodies is kept.
#![tactic(auto)]

mod overriding;
mod response;

pub use overriding::{has_one_override, method_in, override_method};
pub use response::{finalize, keep_body_rule};
