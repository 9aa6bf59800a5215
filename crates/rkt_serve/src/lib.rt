//! Serving: the links of a listener, one exchange with each, and the history of it all.
#![tactic(auto)]

mod error;
mod launch;

pub use error::{Error, ErrorKind, ErrorKindOf, Launched, LaunchedOf};
pub use launch::Launch;
pub use rkt_base::Boxed;
pub use rkt_board::{End, Entry, EntryOf, Event, EventOf, Failure, History, HistoryOf};
pub use rkt_fairing::Called;
pub use rkt_link::{
    Accepted, CancellableListener, Clock, Delivery, Link, Links, ListClock, ListListener, Listener,
    MemoryLink, SendError, SystemClock,
};
pub use rkt_worker::{Gates, send};
