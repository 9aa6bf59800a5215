//! The texts of HTTP as values: methods, statuses, headers, origins, and the pages that a server sends by itself.
//! What `rkt_uri` and `rkt_media` have is offered under this crate's name too.
#![tactic(auto)]

mod content_type;
pub mod default_page;
mod header;
mod header_entry;
mod header_groups;
mod header_iter;
mod header_map;
mod key;
mod method;
pub mod outcome;
mod reasons;
mod status;
mod status_law;
mod table;
mod uncased;

pub use content_type::ContentType;
pub use header::Header;
pub use header_iter::{HeaderIter, HeaderValues};
pub use header_map::HeaderMap;
pub use key::Key;
pub use method::Method;
pub use outcome::{IntoOutcome, Outcome};
pub use rkt_media::{Accept, InvalidMedia, Known, MediaType, spells_one_media_type};
pub use rkt_uri::{
    Absolute, Host, InvalidUri, Origin, PathBuf, PathError, Profile, QueryFields, RawSegments,
    Reference, Segments, says_what_it_spells, spells_one_absolute, spells_one_host,
};
pub use status::{Status, StatusClass};
pub use status_law::constants_have_codes;
pub use uncased::Uncased;
