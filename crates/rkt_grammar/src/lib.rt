//! What the readers of texts share: how a grammar is walked place by place, where a text leaves it, where a text is cut, and
//! which bytes a token and a field's value have.
#![tactic(auto)]

mod cuts;
mod field_value;
mod grammar;
mod token;

pub use cuts::{before_first, behind_first, cut};
pub use field_value::{has_field_value_bytes, is_field_value_byte};
pub use grammar::{Place, first_fault};
pub use token::{has_token_bytes, is_token_byte};
