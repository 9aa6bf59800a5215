ghost use Rattle.std.specs.Prelude.{◌≡◌, ◌<◌, ◌↔◌, ℕ, IsTrue, IfOk, Some, length, slice_get};
ghost use Rattle.rkt_media.specs.Accept.{Weighed, Outranks, IsPreferred};

use crate::media_type::MediaType;
use rkt_base::{NoMemory, TryClone};
use std::alloc::Global;
use std::marker::Model;

/// A media type with its weight in thousandths.
#[derive(Debug, Drop)]
pub(crate) struct Entry {
    pub(crate) media_type: MediaType,
    pub(crate) weight: u16,
}

impl Model for Entry {
    ghost use Rattle.rkt_media.specs.Accept.{Weighed};

    ghost Value = { Weighed };

    ghost view = { λ e. record { media = e.media_type; weight = e.weight } };
}

impl TryClone for Entry {
    fn try_clone(&self, alloc: Global) -> Result<Entry, NoMemory> {
        Ok(Entry {
            media_type: self.media_type.try_clone(alloc)?,
            weight: self.weight,
        })
    }
}

impl Entry {
    fn outranks(&self, other: &Entry) -> bool
        ensures { IsTrue result ↔ Outranks self.now other.now }
    {
        let (mine, theirs) = (
            self.media_type.specificity(),
            other.media_type.specificity(),
        );
        if self.weight != other.weight {
            self.weight > other.weight
        } else if mine != theirs {
            mine > theirs
        } else {
            self.media_type.parameter_count() > other.media_type.parameter_count()
        }
    }
}

/// The place of the preferred entry.
pub(crate) fn preferred_place(entries: &[Entry]) -> usize
    requires { 0 < length entries.now }
    ensures within { result < length entries.now }
    ensures best { (entry : Weighed) → slice_get entries.now result ≡ Some entry → IsPreferred entries.now result entry }
{
    let mut best = 0;
    for at in 1..entries.len() {
        if entries[at].outranks(&entries[best]) {
            best = at;
        }
    }
    best
}
