//! Lists of the positions of fairings, one for each event.
ghost use Rattle.std.specs.Prelude.{◌≡◌, ◌+◌, ◌≤◌, ◌<◌, ℕ, OnOk, filter, vec_len, vec_capacity};
ghost use Rattle.rkt_fairing.specs.Places.{HaveRoom, join_if, joined, no_places, places_of, places_where, seen_places};
ghost use Rattle.rkt_fairing.specs.Told.{is_other};

use crate::told::{Told, has_key};
use crate::{Callback, Kind};
use rkt_base::NoMemory;
use rkt_http::Key;
use std::alloc::Global;

/// For each event the positions of those that are called at it, in the order in which they were attached.
#[derive(Debug, Drop)]
pub(crate) struct Places {
    ignite: Vec<usize>,
    liftoff: Vec<usize>,
    request: Vec<usize>,
    response: Vec<usize>,
    shutdown: Vec<usize>,
}

/// Adds a position where it joins, to a list that has room.
fn join_if(list: &mut Vec<usize>, joins: bool, place: usize)
    requires { vec_len list.old + 1 ≤ vec_capacity list.old }
    ensures items { list.new.items ≡ join_if joins list.old.items place }
    ensures room { (more : ℕ)
        → vec_len list.old + (more + 1) ≤ vec_capacity list.old
        → vec_len list.new + more ≤ vec_capacity list.new }
{
    if joins {
        list.push_reserved(place);
    }
}

/// Takes those out that have a key.
fn take_out(list: &mut Vec<usize>, told: &[Told], key: Key)
    ensures items { list.new.items ≡ filter (is_other told.now key) list.old.items }
    ensures room { (more : ℕ)
        → vec_len list.old + more ≤ vec_capacity list.old
        → vec_len list.new + more ≤ vec_capacity list.new }
{
    list.retain(|place| !has_key(told, key, *place));
}

impl Places {
    pub fn new(alloc: Global) -> Places
        ensures { seen_places result ≡ no_places }
    {
        Places {
            ignite: Vec::new(alloc),
            liftoff: Vec::new(alloc),
            request: Vec::new(alloc),
            response: Vec::new(alloc),
            shutdown: Vec::new(alloc),
        }
    }

    /// The list of an event.
    pub fn of(&self, callback: Callback) -> &[usize]
        ensures { result.now ≡ places_of callback (seen_places self.now) }
    {
        match callback {
            Callback::Ignite => self.ignite.as_slice(),
            Callback::Liftoff => self.liftoff.as_slice(),
            Callback::Request => self.request.as_slice(),
            Callback::Response => self.response.as_slice(),
            Callback::Shutdown => self.shutdown.as_slice(),
        }
    }

    /// Makes room for so many more in each list.
    pub fn make_room(&mut self, more: usize) -> Result<(), NoMemory>
        ensures same { seen_places self.new ≡ seen_places self.old }
        ensures ok { OnOk result (HaveRoom self.new more) }
    {
        self.ignite.reserve(more)?;
        self.liftoff.reserve(more)?;
        self.request.reserve(more)?;
        self.response.reserve(more)?;
        self.shutdown.reserve(more)?;
        Ok(())
    }

    /// Adds a position to the list of each of its kinds.
    pub fn join(&mut self, kind: Kind, place: usize)
        requires { HaveRoom self.old 1 }
        ensures joined { seen_places self.new ≡ joined kind place (seen_places self.old) }
        ensures room { (more : ℕ) → HaveRoom self.old (more + 1) → HaveRoom self.new more }
    {
        join_if(&mut self.ignite, kind.ignite, place);
        join_if(&mut self.liftoff, kind.liftoff, place);
        join_if(&mut self.request, kind.request, place);
        join_if(&mut self.response, kind.response, place);
        join_if(&mut self.shutdown, kind.shutdown, place);
    }

    /// Takes those out of all lists that have a key.
    pub fn take_out(&mut self, told: &[Told], key: Key)
        ensures others { seen_places self.new ≡ places_where (is_other told.now key) (seen_places self.old) }
        ensures room { (more : ℕ) → HaveRoom self.old more → HaveRoom self.new more }
    {
        take_out(&mut self.ignite, told, key);
        take_out(&mut self.liftoff, told, key);
        take_out(&mut self.request, told, key);
        take_out(&mut self.response, told, key);
        take_out(&mut self.shutdown, told, key);
    }
}
