//! Cookies: what a cookie is, the text that it is sent as, and how such a text is read.
#![tactic(auto)]

mod attribute;
mod builder;
mod change;
mod cookie;
mod encode;
mod jar;
mod parse;
mod same_site;
mod shared_jar;

pub use builder::CookieBuilder;
pub use change::Change;
pub use cookie::Cookie;
pub use jar::{CookieIter, CookieJar};
pub use parse::InvalidCookie;
pub use same_site::SameSite;
pub use shared_jar::SharedJar;
