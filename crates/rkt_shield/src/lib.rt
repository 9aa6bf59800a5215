//! Headers of security by default: policies, each with its header, and the shield that adds those of the enabled ones.
#![tactic(auto)]

mod age;
mod allow;
mod allow_list;
mod by_name;
mod expect_ct;
mod feature;
mod frame;
mod hsts;
mod no_sniff;
mod origin_law;
mod permission;
mod permission_law;
mod permission_text;
mod policy;
mod prefetch;
mod referrer;
mod shield;
mod xss_filter;

pub use allow::{Allow, OriginWithoutHost};
pub use expect_ct::ExpectCt;
pub use feature::Feature;
pub use frame::Frame;
pub use hsts::Hsts;
pub use no_sniff::NoSniff;
pub use origin_law::prints_what_it_spells;
pub use permission::{Permission, PermissionIter};
pub use permission_law::says_what_was_said;
pub use policy::Policy;
pub use prefetch::Prefetch;
pub use referrer::Referrer;
pub use shield::Shield;
pub use xss_filter::XssFilter;
