//! What a pass knows, the rule of the lock, and what each step on it tells.
ghost use Rattle.rkt_turn.specs.Known.{drew, another, took_in, gone};
ghost use Rattle.rkt_turn.specs.TurnRule.{begun, taken, given, settled};

use crate::booked::Booked;
use atomic_table::{Join, Play, Split, TableRule};
use std::collections::LinkedList;

/// What a pass knows. It is for proofs alone: no value of it is made.
pub struct Known<N, E> {
    /// The name that the state stands for; `None` once the pass is spent.
    pub name: Option<N>,
    pub number: u64,
    /// The number that the next pass gets.
    pub next: u64,
    /// Whether the pass has the turn.
    pub turn: bool,
    /// Whether the lock has its state.
    pub opened: bool,
    /// Whether the pass was joined to the first one.
    pub spent: bool,
    /// In a turn, the list that was found.
    pub base: LinkedList<E>,
    /// The list as the pass left or found it last.
    pub seen: LinkedList<E>,
    /// What a pass has seen that was just joined to this one. The next load compares the two.
    pub other: LinkedList<E>,
    /// The entries of this pass.
    pub mine: LinkedList<E>,
    /// The numbers of the passes that are out.
    pub out: LinkedList<u64>,
    /// The passes that were joined to this one.
    pub back: LinkedList<Returned<E>>,
}

/// What a pass had entered that was joined to the first one.
pub struct Returned<E> {
    pub number: u64,
    pub mine: LinkedList<E>,
}

/// The rule of a turn lock: at most one pass has the turn and the state, and what each pass knows fits the one list.
pub struct TurnRule;

impl<S: Booked> TableRule<Option<S>, Known<S::Name, S::Entry>, S::Name> for TurnRule {
    ghost use Rattle.rkt_turn.specs.Known.{newcomer};
    ghost use Rattle.rkt_turn.specs.TurnRule.{Kept};

    ghost holds = { λ name. Kept S.name S.entries S.legal S.keeps S.number name };

    ghost first = { newcomer };
}

// The first turn of all, which puts the state in.
pub(crate) struct Begin;

impl<S: Booked> Play<Option<S>, Known<S::Name, S::Entry>> for Begin {
    ghost then = { begun };
}

// A compare and exchange of 0 for the number plus 1, with which the slot goes out.
pub(crate) struct Take;

impl<S: Booked> Play<Option<S>, Known<S::Name, S::Entry>> for Take {
    ghost then = { taken S.name S.entries S.legal S.keeps S.number };
}

// A store of 0, with which the slot comes home.
pub(crate) struct Give;

impl<S: Booked> Play<Option<S>, Known<S::Name, S::Entry>> for Give {
    ghost then = { given S.entries };
}

// A load that compares what two joined passes have seen.
pub(crate) struct Settle;

impl<S: Booked> Play<Option<S>, Known<S::Name, S::Entry>> for Settle {
    ghost then = { settled };
}

// The first pass gives its next number away.
pub(crate) struct Draw;

impl<N, E> Split<Known<N, E>> for Draw {
    ghost left = { drew };

    ghost right = { another };
}

// The first pass takes another one in.
pub(crate) struct TakeIn;

impl<N, E> Join<Known<N, E>> for TakeIn {
    ghost both = { took_in };

    ghost spent = { gone };
}
