//! What a thread enters with.
ghost use Rattle.std.specs.Prelude.{◌≡◌, ◌+◌, ◌-◌, ◌≤◌, ◌<◌, true, false, [], ◌∷◌, ◌++◌, if◌then◌else◌, None, length, map, All, vec_len, IfOk, IfErr};
ghost use Rattle.std.specs.List.{range_with_len};
ghost use Rattle.rkt_turn.specs.Booked.{InOneOrder, StartsWith};
ghost use Rattle.rkt_turn.specs.Known.{last_number, view, drew, drawn, another, split_off, joined, joined_all, HasRoom, HaveSeen};
ghost use Rattle.rkt_turn.specs.TurnRule.{Tied};

use crate::booked::Booked;
use crate::known::Known;
use crate::steps;
use crate::turnstile::Turnstile;
use atomic_table::Seat;
use rkt_base::NoMemory;
use std::alloc::Global;

/// A pass of a turnstile.
pub type Pass<S> = PassOf<S, <S as Booked>::Name, <S as Booked>::Entry>;

/// A pass has no bound, so that a struct of generic code can hold one.
pub struct PassOf<S, N, E> {
    pub(crate) seat: Seat<Option<S>, Known<N, E>>,
    pub(crate) number: u64,
    pub(crate) next: u64,
    pub(crate) ghost tied: { Tied seat number next },
}

// The number that is given again and again.
const LAST_NUMBER: u64 = u64::MAX - 1;

impl<S, N, E> PassOf<S, N, E> {
    ghost use Rattle.rkt_turn.specs.Pass.{known};

    pub(crate) fn over(
        seat: Seat<Option<S>, Known<N, E>>,
        number: u64,
        next: u64,
    ) -> PassOf<S, N, E>
        requires numbers { ((view seat).number ≡ number)
            × ((view seat).next ≡ next)
            × (number ≤ last_number)
            × (next ≤ last_number) }
        requires seat { ((view seat).spent ≡ false) × ((view seat).turn ≡ false) × (seat.me.1 ≡ []) }
        ensures { result.seat ≡ seat }
    {
        PassOf { seat, number, next }
    }

    pub(crate) fn into_seat(self) -> Seat<Option<S>, Known<N, E>>
        ensures { (result ≡ self.seat)
            × ((view result).spent ≡ false)
            × (result.me.1 ≡ (if (view result).turn then (0, None) ∷ [] else [])) }
    {
        let Self {
            seat,
            number: _,
            next: _,
        } = self;
        seat
    }

    /// The first pass has the number 0.
    pub fn number(&self) -> u64
        ensures number { result ≡ (known self.now).number }
        ensures last { result ≤ last_number }
    {
        self.number
    }
}

impl<S: Booked> PassOf<S, S::Name, S::Entry> {
    ghost use Rattle.rkt_turn.specs.Pass.{known, number_of, returned, IsPassOf, IsSameLock, IsIdle, IsFirst, IsNew};

    /// A pass with the next number. At the last one, 2^64 - 2, that is given each time.
    pub fn split(&mut self, turnstile: &Turnstile<S>) -> Pass<S>
        requires own { IsPassOf turnstile.now self.old }
        requires first { IsFirst self.old }
        requires idle { IsIdle self.old }
        ensures own { IsSameLock self.old self.new × IsSameLock self.old result }
        ensures view { known self.new ≡ drew (known self.old) }
        ensures another { known result ≡ another (known self.old) }
        ensures next { (known self.old).next < last_number → (known self.new).next ≡ (known self.old).next + 1 }
    {
        let number = self.next;
        let seat = steps::draw(&turnstile.table.shared, &mut self.seat);
        self.next = if number == LAST_NUMBER {
            number
        } else {
            number + 1
        };
        PassOf::over(seat, number, 0)
    }

    /// Takes another pass back.
    pub fn join(&mut self, turnstile: &Turnstile<S>, other: Pass<S>)
        requires own { IsPassOf turnstile.now self.old × IsPassOf turnstile.now other }
        requires first { IsFirst self.old }
        requires idle { IsIdle self.old × IsIdle other }
        ensures own { IsSameLock self.old self.new }
        ensures view { known self.new ≡ joined (known self.old) (known other) }
        ensures out { length (known self.new).out ≡ length (known self.old).out - 1 }
        // What the two have seen begins one list, and this pass has then seen all of it.
        ensures one_order { InOneOrder (known self.old).seen (known other).seen }
        ensures seen { StartsWith (known self.new).seen (known self.old).seen }
        ensures other_seen { StartsWith (known self.new).seen (known other).seen }
    {
        steps::rejoin(&turnstile.table.shared, &mut self.seat, other.into_seat());
    }

    /// So many passes, with the next numbers in order. For want of memory none is split off.
    pub fn split_all(
        &mut self,
        alloc: Global,
        turnstile: &Turnstile<S>,
        count: usize,
    ) -> Result<Vec<Pass<S>>, NoMemory>
        requires own { IsPassOf turnstile.now self.old }
        requires first { IsFirst self.old }
        requires idle { IsIdle self.old }
        ensures own { IsSameLock self.old self.new }
        ensures first { IsFirst self.new × IsIdle self.new }
        ensures view { IfOk result (λ _. known self.new ≡ drawn count (known self.old)) }
        ensures mine { (known self.new).mine ≡ (known self.old).mine }
        ensures others { IfOk result (λ ps. map known ps.items ≡ split_off count (known self.old)) }
        // No two of them have one number, and none the last one, as long as there are so many numbers.
        ensures numbers { IfOk result (λ ps. HasRoom count (known self.old)
            → map number_of ps.items ≡ range_with_len (known self.old).next count) }
        ensures next { IfOk result (λ ps. HasRoom count (known self.old)
            → (known self.new).next ≡ (known self.old).next + count) }
        ensures names { IfOk result (λ ps. All (λ p. (known p).name ≡ (known self.old).name) ps.items) }
        ensures new { IfOk result (λ ps. All (λ p. IsNew turnstile.now p) ps.items) }
        ensures len { IfOk result (λ ps. vec_len ps ≡ count) }
        ensures out { IfOk result (λ _. length (known self.new).out ≡ length (known self.old).out + count) }
        ensures err { IfErr result (λ _. self.new ≡ self.old) }
    {
        let mut passes = Vec::with_capacity(alloc, count)?;
        while passes.len() < count {
            passes.push_reserved(self.split(turnstile));
        }
        Ok(passes)
    }

    /// Takes such passes back, the last one first.
    pub fn join_all(&mut self, turnstile: &Turnstile<S>, mut passes: Vec<Pass<S>>)
        requires own { IsPassOf turnstile.now self.old }
        requires first { IsFirst self.old }
        requires idle { IsIdle self.old }
        requires ready { All (λ p. IsPassOf turnstile.now p × IsIdle p) passes.items }
        ensures own { IsSameLock self.old self.new }
        ensures first { IsFirst self.new × IsIdle self.new }
        ensures view { known self.new ≡ joined_all (known self.old) (map known passes.items) }
        // What came back by then is what each of them entered under its number, and what had come back before.
        ensures back { (known self.new).back ≡ map returned passes.items ++ (known self.old).back }
        ensures mine { (known self.new).mine ≡ (known self.old).mine }
        ensures out { length (known self.new).out ≡ length (known self.old).out - vec_len passes }
        ensures none_out { length (known self.old).out ≡ vec_len passes → (known self.new).out ≡ [] }
        // This pass has then seen all that each of them has.
        ensures seen { StartsWith (known self.new).seen (known self.old).seen }
        ensures others_seen { HaveSeen (known self.new).seen (map known passes.items) }
    {
        while let Some(pass) = passes.pop() {
            self.join(turnstile, pass);
        }
    }
}

// A pass that is dropped cannot be joined, so its turnstile cannot be closed.
impl<S, N, E> Drop for PassOf<S, N, E> {
    fn drop(self) {
        let Self {
            seat: _,
            number: _,
            next: _,
        } = self;
    }
}
