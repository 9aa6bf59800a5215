//! The application whose rocket ad hoc changes are made of.
use rkt_answers::{Answering, Catches};
use rkt_base::NoMemory;
use rkt_data::MemorySource;
use rkt_fairing::Parts;
use rkt_http::Status;
use rkt_request::{Request, Types};
use rkt_router::Dummy;
use rkt_turn::Reason;
use std::alloc::Global;

/// The application, by its types.
pub struct Site;

/// The one reason for which it may be shut down.
#[derive(Clone, Copy)]
pub struct Stopped;

impl Reason for Stopped {
    fn word(self) -> u64 {
        7
    }
}

impl Types for Site {
    type Source = MemorySource;

    type Stream = MemorySource;

    type Cached = u32;

    type Value = u32;

    type Reason = Stopped;
}

/// Answers each status with one text.
#[derive(Drop)]
pub struct Sorry;

impl Catches<Site> for Sorry {
    type Value = &'static str;

    fn catch(
        &self,
        _alloc: Global,
        _status: Status,
        _request: &Request<'_, Site>,
    ) -> Result<&'static str, NoMemory> {
        Ok("sorry")
    }
}

impl Parts for Site {
    type Handler = Dummy;

    type Catch = Answering<Sorry>;

    type Sentinel = ();
}
