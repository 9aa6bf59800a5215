//! Threads that write into one diary, a turn at a time.
ghost use Rattle.std.specs.Prelude.{◌≡◌, ◌+◌, [], ◌∷◌, ◌++◌, false, not, All, Some, IfOk, map, vec_len, length};
ghost use Rattle.std.specs.Thread.{IsSync};
ghost use Rattle.rkt_turn.specs.Known.{SamePlace, HasAll};
ghost use Rattle.rkt_turn.specs.Pass.{known, returned, IsPassOf, IsIdle, IsFirst, IsNew};
ghost use Rattle.rkt_turn.specs.Turn.{state_of};
ghost use Rattle.cases_turn.specs.Diary.{open_after, writer, IsDiary, HasOfEach, HaveNumbersOf, IsPlanned, MayWrite, HasWritten};

use crate::crossing::lock_crosses;
use crate::diary::{Diary, Entry, Plan};
use cases::{CaseError, first_word, parsed};
use rkt_base::NoMemory;
use rkt_turn::{Pass, Turn, Turnstile};
use std::alloc::{AllocError, Global};
use std::sync::Wait;
use std::thread;
use std::thread::{Threads, join};

// A turn that writes one entry: an end where something is open, and else a beginning.
fn write<R: Wait>(rt: &R, lock: &Turnstile<Diary>, pass: &mut Pass<Diary>, ends: bool)
    requires own { IsPassOf lock.now pass.old }
    requires idle { IsIdle pass.old }
    requires may { MayWrite (known pass.old) }
    requires next { open_after false (known pass.old).mine ≡ ends }
    ensures own { IsPassOf lock.now pass.new }
    ensures idle { IsIdle pass.new }
    ensures place { SamePlace (known pass.old) (known pass.new) }
    ensures open { open_after false (known pass.new).mine ≡ not ends }
    ensures one { length (known pass.new).mine ≡ length (known pass.old).mine + 1 }
{
    let by = pass.number();
    let mut turn = lock.enter(rt, pass);
    turn.state().add(Entry { by, ends });
    lock.leave(pass, turn);
}

// All turns of a pass, in each of which it writes.
fn write_all<R: Wait>(rt: &R, lock: &Turnstile<Diary>, pass: &mut Pass<Diary>, plan: Plan)
    requires new { IsNew lock.now pass.old }
    requires planned { IsPlanned plan (known pass.old) }
    ensures own { IsPassOf lock.now pass.new }
    ensures idle { IsIdle pass.new }
    ensures place { SamePlace (known pass.old) (known pass.new) }
    ensures written { HasWritten plan (known pass.new) }
{
    let mut open = false;
    let mut entries = 0;
    while entries < plan.turns {
        write(rt, lock, pass, open);
        open = !open;
        entries += 1;
    }
}

// A turn that writes nothing and copies the diary.
fn look<R: Wait>(
    rt: &R,
    alloc: Global,
    lock: &Turnstile<Diary>,
    pass: &mut Pass<Diary>,
) -> Result<Vec<Entry>, NoMemory>
    requires own { IsPassOf lock.now pass.old }
    requires idle { IsIdle pass.old }
    ensures own { IsPassOf lock.now pass.new }
    ensures idle { IsIdle pass.new }
    ensures place { SamePlace (known pass.old) (known pass.new) }
    ensures mine { (known pass.new).mine ≡ (known pass.old).mine }
{
    let turn = lock.enter(rt, pass);
    lock_crosses(lock, pass, &turn);
    let (turn, copy) = copy_of(alloc, turn);
    lock.leave(pass, turn);
    copy
}

fn copy_of(alloc: Global, turn: Turn<Diary>) -> (Turn<Diary>, Result<Vec<Entry>, NoMemory>)
    ensures { state_of result.0 ≡ state_of turn }
{
    let mut turn = turn;
    let copy = turn.state().entries.as_slice().to_vec(alloc);
    (turn, copy)
}

// Each other pass writes in a thread of its own.
fn in_threads<R: Threads + Wait + Sync>(
    rt: &R,
    lock: &Turnstile<Diary>,
    mut others: Vec<Pass<Diary>>,
    plan: Plan,
) -> Vec<Pass<Diary>>
    requires { All (λ p. IsNew lock.now p × IsPlanned plan (known p)) others.items }
    ensures ready { All (λ p. IsPassOf lock.now p × IsIdle p) result.items }
    ensures len { vec_len result ≡ vec_len others }
    ensures numbers { HaveNumbersOf result.items others.items }
    ensures written { All (λ p. HasWritten plan (known p)) result.items }
{
    thread::for_each_mut(
        rt,
        others.as_mut_slice(),
        8,
        &|_, pass| { write_all(rt, lock, pass, plan) },
    );
    others
}

// The first pass writes in one thread and looks then, and each other one writes in one of its own.
fn all_write<R: Threads + Wait + Sync>(
    rt: &R,
    alloc: Global,
    lock: &Turnstile<Diary>,
    mut first: Pass<Diary>,
    others: Vec<Pass<Diary>>,
    plan: Plan,
) -> (
    (Pass<Diary>, Result<Vec<Entry>, NoMemory>),
    Vec<Pass<Diary>>,
)
    requires first { IsFirst first × IsNew lock.now first × IsPlanned plan (known first) }
    requires ready { All (λ p. IsNew lock.now p × IsPlanned plan (known p)) others.items }
    ensures first { IsPassOf lock.now result.0.0 × IsFirst result.0.0 × IsIdle result.0.0 }
    ensures name { (known result.0.0).name ≡ (known first).name }
    ensures out { (known result.0.0).out ≡ (known first).out }
    ensures first_written { HasWritten plan (known result.0.0) }
    ensures ready { All (λ p. IsPassOf lock.now p × IsIdle p) result.1.items }
    ensures len { vec_len result.1 ≡ vec_len others }
    ensures numbers { HaveNumbersOf result.1.items others.items }
    ensures written { All (λ p. HasWritten plan (known p)) result.1.items }
{
    join(
        rt,
        || {
            write_all(rt, lock, &mut first, plan);
            let seen = look(rt, alloc, lock, &mut first);
            (first, seen)
        },
        || -> Vec<Pass<Diary>>
            requires { IsSync R.row × All (λ p. IsNew lock.now p × IsPlanned plan (known p)) others.items }
            ensures ready { All (λ p. IsPassOf lock.entry.now p × IsIdle p) result.items }
            ensures len { vec_len result ≡ vec_len others }
            ensures numbers { HaveNumbersOf result.items others.items }
            ensures written { All (λ p. HasWritten plan (known p)) result.items }
        { in_threads(rt, lock, others, plan) },
    )
}

// Takes every pass back, and closes the lock: the diary is one, with what each pass has written.
fn closed(lock: Turnstile<Diary>, mut first: Pass<Diary>, others: Vec<Pass<Diary>>) -> Vec<Entry>
    requires first { IsPassOf lock first × IsFirst first × IsIdle first }
    requires ready { All (λ p. IsPassOf lock p × IsIdle p) others.items }
    requires out { length (known first).out ≡ vec_len others }
    ensures diary { (plan : Plan) → (known first).name ≡ Some plan → IsDiary plan result.items }
    ensures all { HasAll writer (map returned (first ∷ others.items) ++ (known first).back) result.items }
{
    first.join_all(&lock, others);
    let Diary {
        plan: _,
        entries,
        count: _,
    } = lock.close(first);
    entries
}

// What the first pass found last, and the diary at the end, where each pass has had its turns.
fn written<R: Threads + Wait + Sync>(
    rt: &R,
    alloc: Global,
    lock: Turnstile<Diary>,
    mut first: Pass<Diary>,
    plan: Plan,
) -> Result<(Vec<Entry>, Vec<Entry>), NoMemory>
    requires first { IsFirst first × IsNew lock first }
    requires name { (known first).name ≡ Some plan }
    requires alone { ((known first).out ≡ []) × ((known first).next ≡ 1) }
    ensures diary { IfOk result (λ t. IsDiary plan t.1.items) }
    ensures of_each { IfOk result (λ t. HasOfEach plan t.1.items) }
{
    match first.split_all(alloc, &lock, plan.others) {
        Err(error) => {
            let _ = closed(lock, first, Vec::new(alloc));
            Err(error)
        }
        Ok(others) => {
            let ((first, seen), others) = all_write(rt, alloc, &lock, first, others, plan);
            let entries = closed(lock, first, others);
            Ok((seen?, entries))
        }
    }
}

/// The diary that a first pass and so many others write, with so many entries of each, and what the first one saw of it.
fn diary_of<R: Threads + Wait + Sync>(
    rt: &R,
    alloc: Global,
    plan: Plan,
) -> Result<(Vec<Entry>, Vec<Entry>), NoMemory>
    ensures diary { IfOk result (λ t. IsDiary plan t.1.items) }
    ensures of_each { IfOk result (λ t. HasOfEach plan t.1.items) }
{
    match Turnstile::new(alloc, plan, Diary::new(alloc, plan)?) {
        Err(
            Diary {
                plan: _,
                entries: _,
                count: _,
            },
        ) => Err(AllocError),
        Ok((lock, first)) => written(rt, alloc, lock, first, plan),
    }
}

/// How many of the entries are of this pass.
fn count_of(entries: &[Entry], number: u64) -> usize {
    entries.iter().filter(|e| e.by == number).count()
}

/// How many entries each pass has.
fn counts(alloc: Global, entries: &[Entry], passes: u64) -> Result<Vec<usize>, NoMemory> {
    let mut list = Vec::new(alloc);
    for number in 0..passes {
        list.push(count_of(entries, number))?;
    }
    Ok(list)
}

/// Whether the first pass has seen a front of the diary that has its own entries.
fn saw_a_front(entries: &[Entry], seen: &[Entry]) -> bool {
    count_of(seen, 0) == count_of(entries, 0) && entries.starts_with(seen)
}

/// Adds how many entries there are, how many of each pass, and whether the first pass saw a front of them.
fn push_entries(
    alloc: Global,
    entries: &[Entry],
    seen: &[Entry],
    others: u64,
    out: &mut String,
) -> Result<(), NoMemory> {
    let counts = counts(alloc, entries, others.saturating_add(1))?;
    let front = saw_a_front(entries, seen);
    let entries = entries.len();
    write!(
        out,
        "entries={entries} of_each={counts:?} saw_a_front={front}"
    )
}

/// Adds what is told of the diary that a first pass and so many others write, each in so many turns.
pub fn push_turns<R: Threads + Wait + Sync>(
    rt: &R,
    alloc: Global,
    words: &str,
    out: &mut String,
) -> Result<(), CaseError> {
    let (others, turns) = first_word(words);
    let (others, turns) = (parsed::<u64>(others)?, parsed::<u64>(turns)?);
    let plan = Plan {
        others: others as usize,
        turns: turns as usize,
    };
    let (seen, entries) = diary_of(rt, alloc, plan)?;
    Ok(push_entries(alloc, entries.as_slice(), seen.as_slice(), others, out)?)
}
