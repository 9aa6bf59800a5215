ghost use Rattle.std.specs.Prelude.{◌≡◌, ◌↔◌, List, Option, None, ℕ};
ghost use Rattle.rkt_grammar.specs.Grammar.{IsFrontOf};
ghost use Rattle.rkt_request.specs.Seen.{Seen};
ghost use Rattle.rkt_router.specs.Tries.{AllNextTries, IsNextTry, IsTries, NextTries, TriedAlike};

use crate::Route;
use crate::order::{first_match, route_at};
use rkt_request::{Request, Types};
use std::marker::Model;

/// The routes that a request is tried on, in order, each with its position.
#[derive(Drop)]
pub struct Tries<'a, H, S, T: Types> {
    routes: &'a [Route<H, S>],
    order: &'a [usize],
    request: &'a Request<'a, T>,
    // How many positions of the order have been looked at.
    place: usize,
}

impl<'a, H, S, T: Types> Model for Tries<'a, H, S, T> {
    ghost use Rattle.rkt_router.specs.Walk.{SeenTries};

    ghost Value = { SeenTries H S T.Value };

    ghost view = { λ t. record { routes = t.routes.now; order = t.order.now; request = t.request.now; place = t.place } };
}

impl<'a, H, S, T: Types> Tries<'a, H, S, T> {
    pub(crate) fn new(
        routes: &'a [Route<H, S>],
        order: &'a [usize],
        request: &'a Request<'a, T>,
    ) -> Tries<'a, H, S, T>
        ensures { result
            ≡ record { routes = routes.entry.now; order = order.entry.now; request = request.entry.now; place = 0 } }
    {
        Tries {
            routes,
            order,
            request,
            place: 0,
        }
    }
}

impl<'a, H, S, T: Types> Iterator for Tries<'a, H, S, T> {
    ghost use Rattle.rkt_router.specs.Walk.{TriesOn, most_left};

    type Item = (usize, &'a Route<H, S>);

    ghost next_gives = { TriesOn };

    ghost remaining = { most_left };

    fn next(&mut self) -> Option<(usize, &'a Route<H, S>)> {
        let place = first_match(self.routes, self.order, self.request, self.place)?;
        self.place = place + 1;
        let position = self.order[place];
        Some((position, route_at(self.routes, position)))
    }
}

/// A law of tries: those of a request are one list.
pub fn tries_are_one_list<H, S, T: Types>(routes: &[Route<H, S>], request: &Request<'_, T>)
    ensures { (a b : List ℕ) → IsTries routes.now request.now a → IsTries routes.now request.now b → a ≡ b }
{}

/// A law of tries: what is tried one after another, until nothing is, are the tries of a request, and what is tried so far
/// is a front of them.
pub fn next_tries_are_tries<H, S, T: Types>(routes: &[Route<H, S>], request: &Request<'_, T>)
    ensures all { (tries : List ℕ) → AllNextTries routes.now request.now None tries ↔ IsTries routes.now request.now tries }
    ensures front { (front tries : List ℕ)
        → NextTries routes.now request.now None front
        → IsTries routes.now request.now tries
        → IsFrontOf front tries }
{}

/// A law of tries: requests that differ in nothing that a route asks for are tried alike.
pub fn tries_are_alike<H, S, T: Types>(routes: &[Route<H, S>])
    ensures next { (one other : Seen T.Value)
        → TriedAlike one other
        → (after found : Option ℕ)
        → IsNextTry routes.now one after found
        → IsNextTry routes.now other after found }
    ensures tries { (one other : Seen T.Value)
        → TriedAlike one other
        → (tries : List ℕ)
        → IsTries routes.now one tries
        → IsTries routes.now other tries }
{}
