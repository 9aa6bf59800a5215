//! What a crew does.
ghost use Rattle.std.specs.Prelude.{◌≡◌, ◌<◌, ℕ, List, Option, IsSomeAnd, None};
ghost use Rattle.rkt_crew.specs.Crew.{HandsOver, IsReady};
ghost use Rattle.rkt_turn.specs.Known.{last_number, SamePlace};
ghost use Rattle.rkt_turn.specs.Pass.{known, IsIdle, IsNew, IsSameLock};
ghost use Rattle.rkt_turn.specs.Shutdown.{Handle};

use crate::post::Post;
use rkt_turn::{Booked, Reason};
use std::alloc::Global;
use std::sync::Wait;

/// What is done from each post of a crew.
pub trait Job<S: Booked, W: Reason, R: Wait> {
    // What it needs of the name that the state stands for, of the list at the beginning, and of the handle of a post.
    ghost ready: { Self → S.Name → List S.Entry → Handle → Type 0 };

    // What it has made of a post: its number, what was entered from it, and its handle, if it has that still.
    ghost done: { Self → ℕ → List S.Entry → Option Handle → Type 0 };

    /// Works from a post that is new, until nothing more is to be done there. Where no thread can be made for a post, it
    /// works before or after others, so it must not wait for them.
    fn work(&self, alloc: Global, post: &mut Post<'_, S, W, R>)
        requires pass { IsNew post.old.lock.now post.old.pass }
        requires number { (known post.old.pass).number < last_number }
        requires ready { IsSomeAnd post.old.handle (IsReady (ready self.now) (known post.old.pass)) }
        // Nothing is noted there yet.
        requires moment { post.old.moment ≡ 0 }
        requires trip { post.old.trip ≡ None }
        ensures pass { IsSameLock post.old.pass post.new.pass × IsIdle post.new.pass }
        ensures place { SamePlace (known post.old.pass) (known post.new.pass) }
        ensures done { done self.now (known post.new.pass).number (known post.new.pass).mine post.new.handle }
        ensures handle { HandsOver post.old.handle post.new.handle };
}
