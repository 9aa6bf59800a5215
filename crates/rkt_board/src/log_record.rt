//! What a board keeps of an event.
ghost use Rattle.std.specs.Prelude.{◌≡◌};
ghost use Rattle.rkt_board.specs.Events.{trip_of};
ghost use Rattle.rkt_board.specs.Records.{events};

use crate::EventOf;
use rkt_request::Types;
use std::snapshot::Snapshot;

/// An event, with the number of the worker that entered it and, of an Admit, the link as it was given.
#[derive(Drop)]
pub struct RecordOf<C, S, K> {
    pub by: u64,
    pub event: EventOf<C, S, K>,
    pub link: Option<Snapshot<K>>,
}

/// What a board keeps of an event of an application's launch.
pub type Record<A, K> = RecordOf<<A as Types>::Cached, <A as Types>::Stream, K>;

/// The word and the moment of the first Trip among these records, if there is one.
pub fn recorded_trip<C, S, K>(records: &[RecordOf<C, S, K>]) -> Option<(u64, u64)>
    ensures { result ≡ trip_of (events records.now) }
{
    for logged in records {
        if let EventOf::Trip { word, moment } = &logged.event {
            return Some((*word, *moment));
        }
    }
    None
}
