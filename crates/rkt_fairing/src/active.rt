use crate::Callback;
use crate::places::Places;
use std::marker::Model;

/// The positions of those that are called, event by event, each as often as it is called.
#[derive(Drop)]
pub struct Active<'a> {
    ignite: &'a [usize],
    liftoff: &'a [usize],
    request: &'a [usize],
    response: &'a [usize],
    shutdown: &'a [usize],
}

impl<'a> Model for Active<'a> {
    ghost use Rattle.std.specs.Prelude.{ℕ, List, ◌++◌};

    ghost Value = { List ℕ };

    ghost view = { λ a. a.ignite.now ++ (a.liftoff.now ++ (a.request.now ++ (a.response.now ++ a.shutdown.now))) };
}

impl<'a> Active<'a> {
    ghost use Rattle.std.specs.Prelude.{◌≡◌};
    ghost use Rattle.rkt_fairing.specs.Places.{active_places, seen_places};

    // Those of all lists.
    pub(crate) fn of(places: &'a Places) -> Active<'a>
        ensures { result ≡ active_places (seen_places places.now) }
    {
        Active {
            ignite: places.of(Callback::Ignite),
            liftoff: places.of(Callback::Liftoff),
            request: places.of(Callback::Request),
            response: places.of(Callback::Response),
            shutdown: places.of(Callback::Shutdown),
        }
    }
}

impl<'a> Iterator for Active<'a> {
    ghost use Rattle.std.specs.Iterator.{YieldsFirst, item_count};

    type Item = usize;

    ghost next_gives = { YieldsFirst (λ s. s) };

    ghost remaining = { item_count (λ s. s) };

    fn next(&mut self) -> Option<usize> {
        if let Some((first, others)) = self.ignite.split_first() {
            self.ignite = others;
            return Some(*first);
        }
        if let Some((first, others)) = self.liftoff.split_first() {
            self.liftoff = others;
            return Some(*first);
        }
        if let Some((first, others)) = self.request.split_first() {
            self.request = others;
            return Some(*first);
        }
        if let Some((first, others)) = self.response.split_first() {
            self.response = others;
            return Some(*first);
        }
        let (first, others) = self.shutdown.split_first()?;
        self.shutdown = others;
        Some(*first)
    }
}
