//! A listener over a list.
ghost use Rattle.std.specs.Prelude.{◌≡◌, [], false, List, IfOk, vec_len};
ghost use Rattle.std.specs.List.{AllByRecursion};
ghost use Rattle.rkt_link.specs.Listener.{IsFresh};
ghost use Rattle.rkt_link.specs.Memory.{IsUnused, listener_meaning};

use crate::{Accepted, Listener, MemoryLink};
use rkt_base::{NoMemory, Poll};
use std::alloc::Global;
use std::collections::VecDeque;
use std::marker::Model;
use std::snapshot::Snapshot;

/// A listener that gives its links one after another, and then ends. The polls whose numbers, from 0, stand in `pends`
/// are Pending, and those in `fails` are faults, until it has ended; each poll looks through these lists.
#[derive(Drop)]
pub struct ListListener {
    links: VecDeque<MemoryLink>,
    offered: Snapshot<Vec<MemoryLink>>,
    given: usize,
    ended: bool,
    pends: Vec<u64>,
    fails: Vec<u64>,
    polls: u64,
    faults: u64,
}

impl Model for ListListener {
    ghost use Rattle.rkt_link.specs.Memory.{ListenerInMemory, IsListenerInMemory};

    ghost Value = { ListenerInMemory };

    ghost view = { λ l. record {
      offered = l.offered.value.items;
      given = l.given;
      ended = l.ended;
      pends = l.pends.items;
      fails = l.fails.items;
      polls = l.polls;
      faults = l.faults;
    } };

    ghost invariant = { λ l. IsListenerInMemory l.links.items l.offered.value.items l.given l.ended };
}

impl ListListener {
    /// A listener that has given none of these links yet.
    pub fn new(
        _alloc: Global,
        links: Vec<MemoryLink>,
        pends: Vec<u64>,
        fails: Vec<u64>,
    ) -> Result<ListListener, NoMemory>
        requires fresh { AllByRecursion IsUnused links.items }
        ensures fresh { IfOk result (λ l. IsFresh (listener_meaning l)) }
        ensures made { IfOk result (λ l. l ≡ record {
          offered = links.items;
          given = 0;
          ended = false;
          pends = pends.items;
          fails = fails.items;
          polls = 0;
          faults = 0;
        }) }
    {
        let offered = Snapshot::of(&links);
        Ok(ListListener {
            links: VecDeque::from(links),
            offered,
            given: 0,
            ended: false,
            pends,
            fails,
            polls: 0,
            faults: 0,
        })
    }
}

impl Listener for ListListener {
    ghost use Rattle.rkt_link.specs.Memory.{listener_meaning};

    type Link = MemoryLink;

    ghost meaning = { listener_meaning };

    fn poll_accept(&mut self) -> Poll<Accepted<MemoryLink>> {
        if self.ended {
            return Poll::Ready(Accepted::End);
        }
        let poll = self.polls;
        self.polls = poll.saturating_add(1);
        if self.pends.contains(&poll) {
            return Poll::Pending;
        }
        if self.fails.contains(&poll) {
            self.faults = self.faults.saturating_add(1);
            return Poll::Ready(Accepted::Fault);
        }
        match self.links.pop_front() {
            Some(link) => {
                self.given += 1;
                Poll::Ready(Accepted::Given(link))
            }
            None => {
                self.ended = true;
                Poll::Ready(Accepted::End)
            }
        }
    }
}
