//! A state behind its lock, with the first pass to it, as a struct of generic code owns them.
ghost use Rattle.std.specs.Prelude.{◌≡◌, [], Some, IfOk, IfErr};
ghost use Rattle.rkt_turn.specs.Booked.{AreOf};
ghost use Rattle.rkt_turn.specs.Pass.{known, IsFirst, IsIdle, IsPassOf};

use crate::diary::{Diary, Plan};
use cases::{CaseError, parsed};
use rkt_base::NoMemory;
use rkt_turn::{Booked, Pass, Turnstile};
use std::alloc::{AllocError, Global};
use std::sync::Wait;

/// A lock and its first pass.
pub struct Desk<S: Booked> {
    lock: Turnstile<S>,
    first: Pass<S>,
    ghost own: { IsPassOf lock first × IsFirst first × IsIdle first × ((known first).out ≡ []) },
}

impl<S: Booked> Desk<S> {
    /// A desk over this state. For want of memory the state comes back.
    pub fn new(alloc: Global, name: S::Name, state: S) -> Result<Desk<S>, S>
        requires name { S.name state ≡ name }
        requires legal { S.legal name (S.entries state) }
        requires keeps { S.keeps state }
        requires first { AreOf S.number 0 (S.entries state) }
        ensures name { IfOk result (λ desk. (known desk.first).name ≡ Some name) }
        ensures err { IfErr result (λ s. s ≡ state) }
    {
        let (lock, first) = Turnstile::new(alloc, name, state)?;
        Ok(Desk { lock, first })
    }

    /// Takes the turn, and gives it as it found it.
    pub fn look<R: Wait>(&mut self, rt: &R)
        ensures { (known self.new.first).name ≡ (known self.old.first).name }
    {
        let turn = self.lock.enter(rt, &mut self.first);
        self.lock.leave(&mut self.first, turn);
    }

    /// The state, which is legal and kept.
    pub fn close(self) -> S
        ensures legal { S.legal (S.name result) (S.entries result) }
        ensures keeps { S.keeps result }
    {
        let Desk { lock, first } = self;
        lock.close(first)
    }
}

/// How many entries a diary has whose desk was looked at so many times.
fn closed<R: Wait>(rt: &R, mut desk: Desk<Diary>, looks: u64) -> usize {
    for _ in 0..looks {
        desk.look(rt);
    }
    let Diary {
        plan: _,
        entries: _,
        count,
    } = desk.close();
    count
}

/// The same of an empty diary.
fn count_behind<R: Wait>(rt: &R, alloc: Global, looks: u64) -> Result<usize, NoMemory> {
    let plan = Plan {
        others: 0,
        turns: 0,
    };
    match Desk::new(alloc, plan, Diary::new(alloc, plan)?) {
        Ok(desk) => Ok(closed(rt, desk, looks)),
        Err(
            Diary {
                plan: _,
                entries: _,
                count: _,
            },
        ) => Err(AllocError),
    }
}

/// Adds how many entries are in an empty diary whose desk was looked at so many times.
pub fn push_desk<R: Wait>(
    rt: &R,
    alloc: Global,
    looks: &str,
    out: &mut String,
) -> Result<(), CaseError> {
    let looks = parsed::<u64>(looks)?;
    let count = count_behind(rt, alloc, looks)?;
    Ok(write!(out, "entries={count}")?)
}
