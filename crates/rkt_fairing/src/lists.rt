//! The lists that fairings stand in, as they stand in memory: what is done to them where there is room.
ghost use Rattle.std.specs.Prelude.{◌≡◌, ◌+◌, ℕ, OnOk, fold, take, vec_len};
ghost use Rattle.std.specs.List.{list_any};
ghost use Rattle.rkt_fairing.specs.Fairings.{HasRoom, added, admitted, has_ignited, no_fairings, seen_lists, with_slot, without_key};
ghost use Rattle.rkt_fairing.specs.Told.{has_key};

use crate::places::Places;
use crate::told::{Told, has_key};
use crate::{Attach, Callback, Info, Slot};
use rkt_base::NoMemory;
use rkt_http::Key;
use std::alloc::Global;
use std::mem::replace;

/// All fairings that were attached, and which of them are called at each event.
#[derive(Drop)]
pub(crate) struct Lists<F> {
    pub slots: Vec<Slot<F>>,
    pub told: Vec<Told>,
    pub places: Places,
    pub ignited: usize,
    pub failures: Vec<Info>,
}

/// Whether one of the first of these positions has a key.
fn any_has_key(told: &[Told], places: &[usize], first: usize, key: Key) -> bool
    ensures { result ≡ list_any (has_key told.now key) (take first places.now) }
{
    places
        .iter()
        .take(first)
        .any(|place| has_key(told, key, *place))
}

impl<F> Lists<F> {
    pub fn new(alloc: Global) -> Lists<F>
        ensures { seen_lists result ≡ no_fairings }
    {
        Lists {
            slots: Vec::new(alloc),
            told: Vec::new(alloc),
            places: Places::new(alloc),
            ignited: 0,
            failures: Vec::new(alloc),
        }
    }

    /// Makes room for so many more.
    pub fn make_room(&mut self, more: usize) -> Result<(), NoMemory>
        ensures same { seen_lists self.new ≡ seen_lists self.old }
        ensures ok { OnOk result (HasRoom self.new more) }
    {
        self.slots.reserve(more)?;
        self.told.reserve(more)?;
        self.failures.reserve(more)?;
        self.places.make_room(more)
    }

    /// Takes all of them out. The failures stay.
    pub fn take(&mut self) -> Vec<Slot<F>>
        ensures taken { result.items ≡ self.old.slots.items }
        ensures empty { seen_lists self.new ≡ record no_fairings { failures = (seen_lists self.old).failures } }
    {
        let alloc = *self.slots.allocator();
        self.told.clear();
        self.places = Places::new(alloc);
        self.ignited = 0;
        replace(&mut self.slots, Vec::new(alloc))
    }

    fn has_ignited(&self, key: Key) -> bool
        ensures { result ≡ has_ignited key (seen_lists self.now) }
    {
        any_has_key(
            self.told.as_slice(),
            self.places.of(Callback::Ignite),
            self.ignited,
            key,
        )
    }

    // Those of a key are called no more.
    fn supersede(&mut self, key: Key)
        ensures others { seen_lists self.new ≡ without_key key (seen_lists self.old) }
        ensures room { (more : ℕ) → HasRoom self.old more → HasRoom self.new more }
    {
        self.places.take_out(self.told.as_slice(), key);
    }

    // One more, which is called at the events of its kinds.
    fn push(&mut self, slot: Slot<F>, told: Told)
        requires { HasRoom self.old 1 }
        ensures pushed { seen_lists self.new ≡ with_slot slot told (seen_lists self.old) }
        ensures room { (more : ℕ) → HasRoom self.old (more + 1) → HasRoom self.new more }
    {
        let place = self.slots.len();
        self.places.join(told.info().kind, place);
        self.slots.push_reserved(slot);
        self.told.push_reserved(told);
    }
}

impl<F: Drop> Lists<F> {
    /// One more, unless it is a singleton of a key that has ignited.
    pub fn admit(&mut self, slot: Slot<F>, told: Told)
        requires { HasRoom self.old 1 }
        ensures admitted { seen_lists self.new ≡ admitted slot told (seen_lists self.old) }
        ensures room { (more : ℕ) → HasRoom self.old (more + 1) → HasRoom self.new more }
    {
        if !told.info().kind.singleton {
            return self.push(slot, told);
        }
        if self.has_ignited(told.key()) {
            self.failures.push_reserved(told.info());
            return;
        }
        self.supersede(told.key());
        self.push(slot, told)
    }
}

impl<F: Attach + Drop> Lists<F> {
    /// All of these, one by one.
    pub fn admit_all(&mut self, slots: Vec<Slot<F>>)
        requires { HasRoom self.old (vec_len slots) }
        ensures { seen_lists self.new ≡ fold (added F.key F.info) (seen_lists self.old) slots.items }
    {
        for slot in slots {
            let told = Told::by(&slot);
            self.admit(slot, told);
        }
    }
}
