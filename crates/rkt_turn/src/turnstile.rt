//! The lock.
ghost use Rattle.std.specs.Prelude.{◌≡◌, true, [], Some, IfOk, IfErr};
ghost use Rattle.rkt_turn.specs.Booked.{StartsWith, AreOf, Adds};
ghost use Rattle.rkt_turn.specs.Known.{newcomer, entered, gave, OwnsAdded, SamePlace, HasMine, AddsOne, HasAll, all_passes};

use crate::booked::Booked;
use crate::known::{Begin, Known, TurnRule};
use crate::pass::{Pass, PassOf};
use crate::steps;
use crate::turn::Turn;
use atomic_table::Table;
use std::alloc::Global;
use std::sync::Wait;
use std::sync::atomic::AtomicBool;

/// A turn lock: a state that one of several passes has at a time.
pub struct Turnstile<S: Booked> {
    pub(crate) table: Table<Option<S>, Known<S::Name, S::Entry>, S::Name, TurnRule, Global>,
    // Whether a thread may sleep until the turn is given.
    waited: AtomicBool,
    ghost sized: { (table.shared.table_id.words ≡ 1) × (table.shared.table_id.slots ≡ 1) },
}

impl<S: Booked> Turnstile<S> {
    ghost use Rattle.rkt_turn.specs.Pass.{known, IsPassOf, IsSameLock, IsIdle, IsFirst};
    ghost use Rattle.rkt_turn.specs.Turn.{state_of};

    fn over(
        table: Table<Option<S>, Known<S::Name, S::Entry>, S::Name, TurnRule, Global>,
    ) -> Turnstile<S>
        requires { (table.shared.table_id.words ≡ 1) × (table.shared.table_id.slots ≡ 1) }
        ensures { result.table ≡ table }
    {
        Turnstile {
            table,
            waited: AtomicBool::new(false),
        }
    }

    fn into_table(self) -> Table<Option<S>, Known<S::Name, S::Entry>, S::Name, TurnRule, Global>
        ensures { (result ≡ self.table) × (result.shared.table_id.words ≡ 1) × (result.shared.table_id.slots ≡ 1) }
    {
        let Turnstile { table, waited: _ } = self;
        table
    }

    /// The lock and its first pass, whose number is 0. For want of memory the state comes back.
    pub fn new(alloc: Global, name: S::Name, state: S) -> Result<(Turnstile<S>, Pass<S>), S>
        requires name { S.name state ≡ name }
        requires legal { S.legal name (S.entries state) }
        requires keeps { S.keeps state }
        requires first { AreOf S.number 0 (S.entries state) }
        ensures own { IfOk result (λ t. IsPassOf t.0 t.1) }
        ensures view { IfOk result (λ t. known t.1 ≡ gave (newcomer name) (S.entries state)) }
        ensures err { IfErr result (λ s. s ≡ state) }
    {
        let Ok((table, mut seat)) = Table::vacant(alloc, &[0], 1, &name) else {
            return Err(state);
        };
        table.shared.compare_exchange::<Begin>(&mut seat, 0, 0, 1);
        let turnstile = Turnstile::over(table);
        steps::give(&turnstile.table.shared, &turnstile.waited, &mut seat, state);
        Ok((turnstile, PassOf::over(seat, 0, 1)))
    }

    /// Waits for the turn.
    pub fn enter<R: Wait>(&self, rt: &R, pass: &mut Pass<S>) -> Turn<S>
        requires own { IsPassOf self.now pass.old }
        requires idle { IsIdle pass.old }
        ensures own { IsSameLock pass.old pass.new }
        ensures view { known pass.new ≡ entered (known pass.old) (S.entries (state_of result)) }

        ensures name { (known pass.old).name ≡ Some (S.name (state_of result)) }
        ensures legal { S.legal (S.name (state_of result)) (S.entries (state_of result)) }
        ensures keeps { S.keeps (state_of result) }
        ensures seen { StartsWith (S.entries (state_of result)) (known pass.old).seen }
        ensures mine { HasMine S.number (known pass.old) (S.entries (state_of result)) }
        // The first pass, with none out, finds what it and the joined ones entered: nobody else adds any more.
        ensures alone { IsFirst pass.old → (known pass.old).out ≡ []
            → HasAll S.number (all_passes (known pass.old)) (S.entries (state_of result)) }
    {
        let state = steps::take(
            rt,
            &self.table.shared,
            &self.waited,
            &mut pass.seat,
            pass.number,
        );
        Turn { state }
    }

    /// Gives the turn. The list is the one that was found, or that with one more entry of this pass.
    pub fn leave(&self, pass: &mut Pass<S>, turn: Turn<S>)
        requires own { IsPassOf self.now pass.old }
        requires has { (known pass.old).turn ≡ true }
        requires name { (known pass.old).name ≡ Some (S.name (state_of turn)) }
        requires legal { S.legal (S.name (state_of turn)) (S.entries (state_of turn)) }
        requires keeps { S.keeps (state_of turn) }
        requires adds { AddsOne S.number (known pass.old) (S.entries (state_of turn)) }
        ensures own { IsSameLock pass.old pass.new }
        ensures view { known pass.new ≡ gave (known pass.old) (S.entries (state_of turn)) }
        ensures place { SamePlace (known pass.old) (known pass.new) }
        ensures mine { Adds S.number (known pass.old).number (known pass.old).mine (known pass.new).mine }
        ensures added { OwnsAdded (known pass.old) (S.entries (state_of turn)) (known pass.new) }
    {
        let Turn { state } = turn;
        steps::give(&self.table.shared, &self.waited, &mut pass.seat, state);
    }

    /// Gives the state back, once every other pass has been joined.
    pub fn close(self, pass: Pass<S>) -> S
        requires own { IsPassOf self pass }
        requires first { IsFirst pass }
        requires idle { IsIdle pass }
        requires joined { (known pass).out ≡ [] }

        ensures name { (known pass).name ≡ Some (S.name result) }
        ensures legal { S.legal (S.name result) (S.entries result) }
        ensures keeps { S.keeps result }
        ensures seen { StartsWith (S.entries result) (known pass).seen }
        // The list has what each pass entered, as often and in that order.
        ensures all { HasAll S.number (all_passes (known pass)) (S.entries result) }
    {
        steps::finish(self.into_table(), pass.into_seat())
    }
}

// A turnstile may be let go where its state may, and its passes are of no use then.
impl<S: Booked + Drop> Drop for Turnstile<S> {
    fn drop(self) {
        drop(self.into_table());
    }
}
