//! A listener over links whose bodies may fail.
ghost use Rattle.std.specs.List.{AllByRecursion};
ghost use Rattle.rkt_link.specs.Listener.{IsFresh};
ghost use Rattle.cases_demo.specs.Sourced.{IsUnused, listening_meaning};

use crate::sourced_link::SourcedLink;
use rkt_base::Poll;
use rkt_serve::{Accepted, Listener};
use std::collections::VecDeque;
use std::marker::Model;

/// A listener that gives its links one after another, and then ends. The polls whose numbers, from 0, stand in `fails` are
/// faults, until it has ended.
#[derive(Drop)]
pub struct SourcedListener {
    links: VecDeque<SourcedLink>,
    ended: bool,
    fails: Vec<u64>,
    polls: u64,
    faults: u64,
}

impl Model for SourcedListener {
    ghost use Rattle.std.specs.List.{AllByRecursion};
    ghost use Rattle.cases_demo.specs.Sourced.{IsUnused, Listening};

    ghost Value = { Listening };

    ghost view = { λ l. record { ended = l.ended; faults = l.faults } };

    ghost invariant = { λ l. AllByRecursion IsUnused l.links.items };
}

impl SourcedListener {
    /// A listener that has given none of these links yet.
    pub fn new(links: Vec<SourcedLink>, fails: Vec<u64>) -> SourcedListener
        requires unused { AllByRecursion IsUnused links.items }
        ensures { IsFresh (listening_meaning result) }
    {
        SourcedListener {
            links: VecDeque::from(links),
            ended: false,
            fails,
            polls: 0,
            faults: 0,
        }
    }
}

impl Listener for SourcedListener {
    ghost use Rattle.cases_demo.specs.Sourced.{listening_meaning};

    type Link = SourcedLink;

    ghost meaning = { listening_meaning };

    fn poll_accept(&mut self) -> Poll<Accepted<SourcedLink>> {
        if self.ended {
            return Poll::Ready(Accepted::End);
        }
        let poll = self.polls;
        self.polls = poll.saturating_add(1);
        if self.fails.contains(&poll) {
            self.faults = self.faults.saturating_add(1);
            return Poll::Ready(Accepted::Fault);
        }
        match self.links.pop_front() {
            Some(link) => Poll::Ready(Accepted::Given(link)),
            None => {
                self.ended = true;
                Poll::Ready(Accepted::End)
            }
        }
    }
}
