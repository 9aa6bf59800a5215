ghost use Rattle.std.specs.Prelude.{◌≡◌, ◌≢◌, ◌↔◌, ◌<◌, [], IfErr, IsSome, IsTrue, OnOk, OnErr, fold, length, map};
ghost use Rattle.std.specs.Option.{option_copied};
ghost use Rattle.rkt_fairing.specs.Fairings.{added, fairing_at, no_fairings, with_failure};
ghost use Rattle.rkt_fairing.specs.Info.{seen_info};
ghost use Rattle.rkt_fairing.specs.Places.{active_places, places_of};

use crate::lists::Lists;
use crate::told::Told;
use crate::{Active, Attach, Callback, Info, Slot};
use rkt_base::NoMemory;
use std::alloc::Global;
use std::marker::Model;

/// What was attached to a rocket, in order, and which of it is called at each event.
#[derive(Drop)]
pub struct Fairings<F> {
    pub(crate) lists: Lists<F>,
}

impl<F> Model for Fairings<F> {
    ghost use Rattle.rkt_fairing.specs.Fairings.{SeenFairings, AreSound, seen_lists};

    ghost Value = { SeenFairings F };

    ghost view = { λ f. seen_lists f.lists };

    ghost invariant = { λ f. AreSound (seen_lists f.lists) };
}

impl<F> Fairings<F> {
    /// None, which takes no memory.
    pub fn new(alloc: Global) -> Fairings<F>
        ensures { result ≡ no_fairings }
    {
        Fairings {
            lists: Lists::new(alloc),
        }
    }

    /// How many are called at an event.
    pub fn count(&self, callback: Callback) -> usize
        ensures { result ≡ length (places_of callback self.now.places) }
    {
        self.lists.places.of(callback).len()
    }

    /// The positions of those that are called, event by event in the order of a rocket's life.
    pub fn active(&self) -> Active<'_>
        ensures { result ≡ active_places self.now.places }
    {
        Active::of(&self.lists.places)
    }

    /// The one at a place of an event's list, which counts from 0 in the order in which they were attached.
    pub fn get(&self, callback: Callback, n: usize) -> Option<&Slot<F>>
        ensures found { option_copied result ≡ fairing_at callback self.now n }
        ensures some { IsSome result ↔ (n < length (places_of callback self.now.places)) }
    {
        let place = *self.lists.places.of(callback).get(n)?;
        self.lists.slots.get(place)
    }

    /// Whether one of those that are called at ignition still waits.
    pub fn waits(&self) -> bool
        ensures { IsTrue result ↔ (self.now.ignited < length self.now.places.ignite) }
    {
        self.lists.ignited < self.lists.places.of(Callback::Ignite).len()
    }

    /// Puts one more behind the failures that `audit` gives, once one was called at ignition.
    pub fn push_failure(&mut self, info: Info) -> Result<(), NoMemory>
        requires called { 0 < self.old.ignited }
        ensures ok { OnOk result (self.new ≡ with_failure (seen_info info) self.old) }
        ensures err { OnErr result (self.new ≡ self.old) }
    {
        self.lists.failures.push(info)?;
        Ok(())
    }

    /// Refuses where something has failed, with all that did, in the order in which it came there.
    pub fn audit(&self) -> Result<(), &[Info]>
        ensures ok { OnOk result (self.now.failures ≡ []) }
        ensures some { IfErr result (λ infos. infos.now ≢ []) }
        ensures failures { IfErr result (λ infos. map seen_info infos.now ≡ self.now.failures) }
    {
        if self.lists.failures.is_empty() {
            return Ok(());
        }
        Err(self.lists.failures.as_slice())
    }
}

impl<F: Attach + Drop> Fairings<F> {
    /// Adds one, which is called at the events of its kinds, behind the others. A singleton takes the place of those of its
    /// key; where one of them counts as ignited, it is a failure and is not added.
    pub fn add(&mut self, fairing: Slot<F>) -> Result<(), NoMemory>
        ensures ok { OnOk result (self.new ≡ added F.key F.info self.old fairing) }
        ensures err { OnErr result (self.new ≡ self.old) }
    {
        let told = Told::by(&fairing);
        self.lists.make_room(1)?;
        self.lists.admit(fairing, told);
        Ok(())
    }

    /// Adds the others one by one, in the order in which they were attached, and leaves their list empty.
    pub fn append(&mut self, others: &mut Fairings<F>) -> Result<(), NoMemory>
        ensures ok { OnOk result (self.new ≡ fold (added F.key F.info) self.old others.old.slots) }
        // What came too late to them is still told by them.
        ensures empty { OnOk result (others.new ≡ record no_fairings { failures = others.old.failures }) }
        ensures err { OnErr result ((self.new ≡ self.old) × (others.new ≡ others.old)) }
    {
        self.lists.make_room(others.lists.slots.len())?;
        let slots = others.lists.take();
        self.lists.admit_all(slots);
        Ok(())
    }
}
