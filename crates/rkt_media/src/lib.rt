//! Media types as values, those with a name of their own, and the lists of them that are accepted.
#![tactic(auto)]

mod accept;
mod accept_entry;
mod accept_place;
mod accept_read;
mod byte_run;
mod known;
mod media_law;
mod media_place;
mod media_read;
mod media_type;

pub use accept::Accept;
pub use known::Known;
pub use media_law::spells_one_media_type;
pub use media_type::{InvalidMedia, MediaType};
