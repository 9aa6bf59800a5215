//! URIs as values: origins, hosts, absolute URIs and references, and the segments of a path.
#![tactic(auto)]

mod absolute;
mod absolute_law;
mod absolute_place;
mod host;
mod host_law;
mod host_place;
mod origin;
mod origin_bytes;
mod origin_iter;
mod origin_law;
mod origin_place;
mod path_buf;
mod reference;
mod segments;

pub use absolute::Absolute;
pub use absolute_law::spells_one_absolute;
pub use host::Host;
pub use host_law::spells_one_host;
pub use origin::{InvalidUri, Origin};
pub use origin_iter::{QueryFields, RawSegments};
pub use origin_law::says_what_it_spells;
pub use origin_place::Profile;
pub use path_buf::{PathBuf, PathError};
pub use reference::Reference;
pub use segments::Segments;
