//! An object that is cut off: a trip gives it a grace, then its shutdown a mercy, and then it is gone.
ghost use Rattle.std.specs.Fn.{FnOnceReturnsAtMut, FnOnceTakesAtMut};
ghost use Rattle.std.specs.Prelude.{◌≡◌, ◌-◌, ◌<◌, ◌∷◌, ◌++◌, [], List, MatchOption, ℕ, false, true};
ghost use Rattle.rkt_source.specs.declared.source.Gate.{Gate};
ghost use Rattle.rkt_source.specs.Cancel.{CutsAfterGrace, Runs, cut_of, granted, is_gone, saw_of, withheld};

use crate::stage::{Refused, Stage, advance, is_late};
use crate::{Gate, Shut, Source, SourceError};
use rkt_base::Poll;
use std::marker::Model;

/// An object that may be called until a trip's grace is over.
#[derive(Drop)]
pub struct CancellableIo<I> {
    stage: Stage,
    io: I,
}

impl<I> Model for CancellableIo<I> {
    ghost use Rattle.rkt_source.specs.Cancel.{Cancellable};

    ghost Value = { Cancellable I };

    ghost view = { λ c. record { stage = c.stage; io = c.io } };
}

impl<I: Shut> CancellableIo<I> {
    ghost use Rattle.rkt_source.specs.Cancel.{Arrives, Cancels};

    pub fn new(io: I) -> CancellableIo<I>
        ensures { result ≡ record { stage = Stage.Active; io = io } }
    {
        CancellableIo {
            stage: Stage::Active,
            io,
        }
    }

    /// The object, which is kept in every stage.
    pub fn kept(&self) -> &I
        ensures { result.now ≡ self.now.io }
    {
        &self.io
    }

    /// The object, until it is gone.
    pub fn io(&self) -> Option<&I>
        ensures { MatchOption result (is_gone self.now.stage ≡ true) (λ r.
            (is_gone self.now.stage ≡ false) × (r.now ≡ self.now.io)) }
    {
        match self.stage {
            Stage::Gone(_, _) => None,
            _ => Some(&self.io),
        }
    }

    /// The moment at which a trip was seen.
    pub fn saw(&self) -> Option<u64>
        ensures { result ≡ saw_of self.now.stage }
    {
        match self.stage {
            Stage::Active => None,
            Stage::Grace(saw) => Some(saw),
            Stage::Mercy(saw, _) => Some(saw),
            Stage::Gone(saw, _) => Some(saw),
        }
    }

    /// The moment at which the grace was over.
    pub fn cut_at(&self) -> Option<u64>
        ensures { result ≡ cut_of self.now.stage }
    {
        match self.stage {
            Stage::Active => None,
            Stage::Grace(_) => None,
            Stage::Mercy(_, cut) => Some(cut),
            Stage::Gone(_, cut) => Some(cut),
        }
    }

    /// Calls `f` on the object, unless its grace is over: then the object is shut down, and is gone.
    pub fn poll_with<T, F: FnOnce(&mut I) -> Poll<T>>(
        &mut self,
        gate: Gate,
        f: F,
    ) -> Poll<Result<T, Refused>>
        requires { FnOnceTakesAtMut F.FnOnce f self.old.io }
        // The closure is called in Active and in Grace alone, by the next clause.
        ensures grace { (saw : ℕ) → self.new.stage ≡ Stage.Grace saw → gate.moment - saw < gate.grace }
        ensures machine { Cancels I.shuts (FnOnceReturnsAtMut F.FnOnce f) gate self.old self.new result }
        // Whatever calls came before, this is the machine's next.
        ensures runs { (gates : List Gate)
            → Runs gates Stage.Active self.old.stage
            → Runs (gates ++ gate ∷ []) Stage.Active self.new.stage }
    {
        match self.arrive(gate) {
            None => within(f(&mut self.io)),
            Some(refusal) => withheld(refusal),
        }
    }

    // What a call under this Gate is answered where the object may not be called.
    fn arrive(&mut self, gate: Gate) -> Option<Poll<Refused>>
        ensures { Arrives I.shuts gate self.old self.new result }
    {
        self.stage = advance(self.stage, gate);
        match self.stage {
            Stage::Active => None,
            Stage::Grace(_) => None,
            Stage::Mercy(saw, cut) => {
                if is_late(gate, cut) {
                    self.stage = Stage::Gone(saw, cut);
                    return Some(Poll::Ready(Refused::TimedOut));
                }
                match self.io.poll_shutdown() {
                    Poll::Pending => Some(Poll::Pending),
                    Poll::Ready(()) => {
                        self.stage = Stage::Gone(saw, cut);
                        Some(Poll::Ready(Refused::Gone))
                    }
                }
            }
            Stage::Gone(_, _) => Some(Poll::Ready(Refused::Gone)),
        }
    }
}

impl<I: Shut> Shut for CancellableIo<I> {
    ghost use Rattle.rkt_source.specs.Cancel.{ShutsCut};

    ghost shuts = { λ c answer d. ShutsCut I.shuts (is_gone c.stage) c answer d };

    fn poll_shutdown(&mut self) -> Poll<()> {
        match self.stage {
            Stage::Gone(_, _) => Poll::Ready(()),
            _ => self.io.poll_shutdown(),
        }
    }
}

impl<I: Source> Source for CancellableIo<I> {
    ghost use Rattle.rkt_source.specs.Cancel.{ReadsCut, cut_meaning};
    ghost use Rattle.rkt_source.specs.CancelLaws.{cut_shut_is_warned, cut_shuts};

    ghost meaning = { λ c. cut_meaning c.stage (I.meaning c.io) };

    ghost polled = { ReadsCut I.shuts I.polled };

    // A closure tells nothing of the buffer that it fills, so this does not go through `poll_with`.
    fn poll_read(&mut self, gate: Gate, buf: &mut [u8]) -> Poll<Result<usize, SourceError>> {
        if buf.is_empty() {
            return Poll::Ready(Ok(0));
        }
        match self.arrive(gate) {
            None => self.io.poll_read(gate, buf),
            Some(Poll::Pending) => Poll::Pending,
            Some(Poll::Ready(Refused::Gone)) => Poll::Ready(Err(SourceError::Gone)),
            Some(Poll::Ready(Refused::TimedOut)) => Poll::Ready(Err(SourceError::TimedOut)),
        }
    }

    ghost shut_is_warned = { λ c. cut_shut_is_warned c.stage (I.meaning c.io) (I.shut_is_warned c.io) };

    ghost shutdown_keeps = { cut_shuts I.shuts I.meaning I.shutdown_keeps };

    ghost waits_within = { λ c. I.waits_within c.io };
}

fn within<T>(answer: Poll<T>) -> Poll<Result<T, Refused>>
    ensures { result ≡ granted answer }
{
    match answer {
        Poll::Ready(x) => Poll::Ready(Ok(x)),
        Poll::Pending => Poll::Pending,
    }
}

fn withheld<T>(refusal: Poll<Refused>) -> Poll<Result<T, Refused>>
    ensures { result ≡ withheld refusal }
{
    match refusal {
        Poll::Ready(refusal) => Poll::Ready(Err(refusal)),
        Poll::Pending => Poll::Pending,
    }
}

/// A law of the machine: an object is cut off only after the grace, counted from when the trip was seen.
pub fn cuts_after_grace()
    ensures { CutsAfterGrace }
{}
