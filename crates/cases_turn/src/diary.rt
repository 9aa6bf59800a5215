//! What the passes write.
ghost use Rattle.std.specs.Prelude.{◌≡◌, ◌<◌, [], ◌∷◌, ◌++◌, vec_len, IfSome, IfOk};
ghost use Rattle.cases_turn.specs.Diary.{entries_of, IsDiary, IsWhole};

use rkt_base::NoMemory;
use rkt_turn::Booked;
use std::alloc::{AllocError, Global};

/// The first pass and so many others write, each in so many turns.
#[derive(Clone, Copy, PartialEq, Eq)]
pub struct Plan {
    pub others: usize,
    pub turns: usize,
}

impl Plan {
    /// How many entries there are in the end, if a number says it.
    fn entries(self) -> Option<usize>
        ensures { IfSome result (λ n. n ≡ entries_of self) }
    {
        self.others.checked_mul(self.turns)?.checked_add(self.turns)
    }
}

/// A pass has begun something, or has ended what it began.
#[derive(Clone, Copy, PartialEq, Eq)]
pub struct Entry {
    pub by: u64,
    pub ends: bool,
}

/// The entries, and how many they are. There is room for all that are planned. It has no `Drop`.
pub struct Diary {
    pub plan: Plan,
    pub entries: Vec<Entry>,
    pub count: usize,
}

impl Diary {
    pub fn new(alloc: Global, plan: Plan) -> Result<Diary, NoMemory>
        ensures plan { IfOk result (λ d. d.plan ≡ plan) }
        ensures empty { IfOk result (λ d. d.entries.items ≡ []) }
        ensures legal { IfOk result (λ d. IsDiary plan d.entries.items) }
        ensures whole { IfOk result IsWhole }
    {
        let Some(room) = plan.entries() else {
            return Err(AllocError);
        };
        Ok(Diary {
            plan,
            entries: Vec::with_capacity(alloc, room)?,
            count: 0,
        })
    }

    pub fn add(&mut self, entry: Entry)
        requires whole { IsWhole self.old }
        requires room { vec_len self.old.entries < entries_of self.old.plan }
        ensures plan { self.new.plan ≡ self.old.plan }
        ensures whole { IsWhole self.new }
        ensures added { self.new.entries.items ≡ self.old.entries.items ++ entry ∷ [] }
    {
        self.entries.push_reserved(entry);
        self.count = self.entries.len();
    }
}

impl Booked for Diary {
    type Name = Plan;

    type Entry = Entry;

    ghost use Rattle.cases_turn.specs.Diary.{IsDiary, IsWhole, writer};

    ghost name = { λ d. d.plan };

    ghost entries = { λ d. d.entries.items };

    ghost number = { writer };

    ghost legal = { IsDiary };

    ghost keeps = { IsWhole };
}
