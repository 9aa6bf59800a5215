//! Streams of items.
ghost use Rattle.rkt_base.specs.declared.poll.Poll.{Poll};
ghost use Rattle.rkt_source.specs.declared.source.Gate.{Gate};
ghost use Rattle.rkt_stream.specs.Flow.{Flow, Flows, GivesOf, Asks, AsksBoth, AsksOf};
ghost use Rattle.std.specs.Prelude.{Option};

mod reader_stream;

pub use reader_stream::ReaderStream;
use rkt_base::Poll;
use rkt_source::Gate;
use std::marker::Model;

/// Gives items, one after another.
pub trait Stream: Drop {
    type Item;

    /// What contracts see of a stream.
    ghost flow: { Self → Flow Self.Item };

    /// Whether it might still give an item.
    ghost may_give: { Self → Self.Item → Type 0 } = { λ _ _. Unit {0} };

    /// Of the stream before a poll, the Gate that it was shown, the answer, and the stream after it.
    ghost polled: { Self → Gate → Poll (Option Self.Item) → Self → Type 0 } = { λ _ _ _ _. Unit {0} };

    /// The next item. Once it has answered None it answers None again.
    fn poll_next(&mut self, gate: Gate) -> Poll<Option<Self::Item>>
        ensures polled { polled self.old gate result self.new }
        ensures flows { Flows (flow self.old) result (flow self.new) }
        ensures gives { GivesOf (may_give self.old) (may_give self.new) result };
}

/// One item.
#[derive(Drop)]
pub struct One<T> {
    value: Option<T>,
    ended: bool,
}

impl<T> Model for One<T> {
    ghost use Rattle.std.specs.Prelude.{◌≡◌, IsTrue, None};
    ghost use Rattle.rkt_stream.specs.Flow.{OneLeft};

    ghost Value = { OneLeft T };

    ghost view = { λ s. record { value = s.value; ended = s.ended } };

    ghost invariant = { λ s. IsTrue s.ended → s.value ≡ None };
}

impl<T: Drop> One<T> {
    ghost use Rattle.std.specs.Prelude.{◌≡◌, Some, false};

    pub fn from(value: T) -> One<T>
        ensures { result ≡ record { value = Some value; ended = false } }
    {
        One {
            value: Some(value),
            ended: false,
        }
    }
}

impl<T: Drop> Stream for One<T> {
    type Item = T;

    ghost use Rattle.std.specs.Prelude.{◌≡◌, None, Some};
    ghost use Rattle.rkt_base.specs.declared.poll.Poll.TheVariants.{Ready};
    ghost use Rattle.rkt_stream.specs.Flow.{one_flow};

    ghost flow = { one_flow };

    ghost may_give = { λ s x. s.value ≡ Some x };

    ghost polled = { λ s _ answer t. (answer ≡ Ready s.value) × (t.value ≡ None) };

    fn poll_next(&mut self, _gate: Gate) -> Poll<Option<T>> {
        let item = self.value.take();
        self.ended = item.is_none();
        Poll::Ready(item)
    }
}

/// What any stream can do besides.
pub trait StreamExt: Stream + Sized {
    ghost use Rattle.std.specs.Prelude.{◌≡◌, false, true};

    ghost side: { Self → Self };

    /// The items of both, in turn.
    fn join<U: Stream<Item = Self::Item>>(self, other: U) -> Join<Self, U>
        ensures { result ≡ record { first = side self; second = other; turn = true; ended = false } };
}

impl<S: Stream> StreamExt for S {
    ghost side = { λ s. s };

    fn join<U: Stream<Item = S::Item>>(self, other: U) -> Join<S, U> {
        Join {
            first: self,
            second: other,
            turn: true,
            ended: false,
        }
    }
}

/// Asks two streams in turn: first the one whose turn it is, and where that is Pending the other. It ends where one that
/// was asked has ended.
#[derive(Drop)]
pub struct Join<A, B> {
    first: A,
    second: B,
    turn: bool,
    ended: bool,
}

impl<A, B> Model for Join<A, B> {
    ghost use Rattle.rkt_stream.specs.Flow.{Joined};

    ghost Value = { Joined A B };

    ghost view = { λ j. record { first = j.first; second = j.second; turn = j.turn; ended = j.ended } };
}

impl<A: Stream, B: Stream<Item = A::Item>> Stream for Join<A, B> {
    type Item = A::Item;

    ghost use Rattle.std.specs.Prelude.{◌⊎◌};
    ghost use Rattle.rkt_stream.specs.Flow.{AsksJoined, join_flow};

    ghost flow = { λ j. join_flow j.turn j.ended (A.flow j.first) (B.flow j.second) };

    ghost may_give = { λ j x. A.may_give j.first x ⊎ B.may_give j.second x };

    ghost polled = { λ j gate answer k. AsksJoined A.polled B.polled j.ended j gate answer k };

    fn poll_next(&mut self, gate: Gate) -> Poll<Option<A::Item>> {
        if self.ended {
            return Poll::Ready(None);
        }
        let turn = self.turn;
        self.turn = !turn;
        if turn {
            match ask(&mut self.first, &mut self.second, gate) {
                Poll::Ready(None) => {
                    self.ended = true;
                    Poll::Ready(None)
                }
                Poll::Ready(Some(item)) => Poll::Ready(Some(item)),
                Poll::Pending => Poll::Pending,
            }
        } else {
            match ask(&mut self.second, &mut self.first, gate) {
                Poll::Ready(None) => {
                    self.ended = true;
                    Poll::Ready(None)
                }
                Poll::Ready(Some(item)) => Poll::Ready(Some(item)),
                Poll::Pending => Poll::Pending,
            }
        }
    }
}

// Asks one stream, and where that is Pending another.
fn ask<A: Stream, B: Stream<Item = A::Item>>(
    one: &mut A,
    other: &mut B,
    gate: Gate,
) -> Poll<Option<A::Item>>
    ensures polled { AsksBoth A.polled B.polled gate one.old other.old result one.new other.new }
    ensures asks { Asks (A.flow one.old) (A.flow one.new) (B.flow other.old) (B.flow other.new) result }
    ensures gives { AsksOf (A.may_give one.old) (A.may_give one.new) (B.may_give other.old) (B.may_give other.new) result }
{
    match one.poll_next(gate) {
        Poll::Pending => other.poll_next(gate),
        Poll::Ready(answer) => Poll::Ready(answer),
    }
}
