//! One job from any number of posts over one lock.
ghost use Rattle.std.specs.Prelude.{◌≡◌, ◌<◌, ◌≤◌, ◌+◌, ◌-◌, ◌++◌, ◌∷◌, [], length, map, vec_len, All, IfOk, IfErr, IfSome, Some};
ghost use Rattle.rkt_turn.specs.Booked.{AreOf, StartsWith};
ghost use Rattle.rkt_crew.specs.Crew.{from_post, HandsOver, HasSeenOf, IsCrew, IsFresh, IsMade, IsOver, IsReady, IsWorked};
ghost use Rattle.rkt_turn.specs.HandsBack.{HandsBack};
ghost use Rattle.rkt_turn.specs.Known.{last_number};
ghost use Rattle.rkt_turn.specs.Pass.{known, IsFirst, IsIdle, IsPassOf};

use crate::each::for_each_in;
use crate::job::Job;
use crate::post::Post;
use rkt_turn::{Booked, Pass, Reason, Shutdown, Turnstile};
use std::alloc::Global;
use std::sync::Wait;
use std::thread::Threads;

// So many posts, or as many as there is memory for.
fn hire<'b, S: Booked, W: Reason, R>(
    rt: &'b R,
    alloc: Global,
    lock: &'b Turnstile<S>,
    first: &mut Pass<S>,
    handle: &mut Shutdown<W>,
    count: usize,
) -> Vec<Post<'b, S, W, R>>
    requires first { IsPassOf lock.now first.old × IsFirst first.old × IsIdle first.old }
    requires alone { ((known first.old).out ≡ []) × ((known first.old).next ≡ 1) }
    requires few { count < last_number }
    ensures first { IsPassOf lock.entry.now first.new × IsFirst first.new × IsIdle first.new }
    ensures name { (known first.new).name ≡ (known first.old).name }
    ensures entries { ((known first.new).mine ≡ (known first.old).mine) × ((known first.new).seen ≡ (known first.old).seen) }
    ensures back { (known first.new).back ≡ (known first.old).back }
    ensures out { length (known first.new).out ≡ vec_len result }
    ensures next { (0 < (known first.new).next) × ((known first.new).next ≤ 1 + vec_len result) }
    ensures handle { handle.new ≡ handle.old }
    ensures made { All (IsMade lock.entry.now handle.old count (known first.old)) result.items }
{
    let mut posts: Vec<Post<'b, S, W, R>> = Vec::new(alloc);
    while posts.len() < count {
        if posts.reserve(1).is_err() {
            break;
        }
        let Ok(handle) = handle.split() else { break };
        let pass = first.split(lock);
        posts.push_reserved(Post {
            rt,
            lock,
            pass,
            handle: Some(handle),
            moment: 0,
            trip: None,
        });
    }
    posts
}

// The first pass takes the pass of a post in, and the handle its handle.
fn take_back<'b, S: Booked, W: Reason, R>(
    lock: &'b Turnstile<S>,
    first: &mut Pass<S>,
    handle: &mut Shutdown<W>,
    post: Post<'b, S, W, R>,
)
    requires first { IsPassOf lock.now first.old × IsFirst first.old × IsIdle first.old }
    requires pass { IsPassOf lock.now post.pass × IsIdle post.pass }
    requires wire { IfSome post.handle (λ theirs. theirs.wire ≡ handle.old.wire) }
    ensures first { IsPassOf lock.entry.now first.new × IsFirst first.new × IsIdle first.new }
    ensures name { (known first.new).name ≡ (known first.old).name }
    ensures mine { (known first.new).mine ≡ (known first.old).mine }
    ensures seen { StartsWith (known first.new).seen (known first.old).seen }
    ensures back { (known first.new).back ≡ from_post post.entry ∷ (known first.old).back }
    ensures out { length (known first.new).out ≡ length (known first.old).out - 1 }
    ensures handle { HandsBack handle.old handle.new }
    ensures word { HasSeenOf (Some handle.new) post.entry }
{
    let (pass, theirs) = post.into_parts();
    first.join(lock, pass);
    if let Some(theirs) = theirs {
        handle.rejoin(theirs);
    }
}

// Takes all posts back.
fn gather<'b, S: Booked, W: Reason, R>(
    lock: &'b Turnstile<S>,
    first: &mut Pass<S>,
    handle: &mut Shutdown<W>,
    mut posts: Vec<Post<'b, S, W, R>>,
)
    requires first { IsPassOf lock.now first.old × IsFirst first.old × IsIdle first.old }
    requires passes { All (λ post. IsPassOf lock.now post.pass × IsIdle post.pass) posts.items }
    requires wires { All (λ post. IfSome post.handle (λ theirs. theirs.wire ≡ handle.old.wire)) posts.items }
    requires out { length (known first.old).out ≡ vec_len posts }
    ensures first { IsPassOf lock.entry.now first.new × IsFirst first.new × IsIdle first.new }
    ensures name { (known first.new).name ≡ (known first.old).name }
    ensures mine { (known first.new).mine ≡ (known first.old).mine }
    ensures seen { StartsWith (known first.new).seen (known first.old).seen }
    ensures back { (known first.new).back ≡ map from_post posts.entry.items ++ (known first.old).back }
    ensures out { (known first.new).out ≡ [] }
    ensures handle { HandsBack handle.old handle.new }
    ensures words { All (HasSeenOf (Some handle.new)) posts.entry.items }
{
    while let Some(post) = posts.pop() {
        take_back(lock, first, handle, post);
    }
}

// The work of each post, on a thread of its own where one can be made.
fn work_all<
    'b,
    S: Booked<Name: Send, Entry: Send> + Send,
    W: Reason + Send,
    R: Threads + Wait + Sync,
    J: Job<S, W, R> + Sync,
>(
    rt: &R,
    alloc: Global,
    lock: &'b Turnstile<S>,
    handle: &Shutdown<W>,
    posts: &mut Vec<Post<'b, S, W, R>>,
    job: &J,
    count: usize,
)
    requires some { 0 < vec_len posts.old }
    requires fresh { All (IsFresh lock.now handle.now count (J.ready job.now)) posts.old.items }
    ensures over { All (IsOver lock.entry.now handle.now count (J.done job.now)) posts.new.items }
    ensures len { vec_len posts.new ≡ vec_len posts.old }
{
    let threads = posts.len();
    for_each_in(rt, posts, threads, &|_, post| job.work(alloc, post));
}

// The work of one post, on the caller.
fn work_alone<'b, S: Booked, W: Reason, R: Wait, J: Job<S, W, R>>(
    rt: &'b R,
    alloc: Global,
    lock: &'b Turnstile<S>,
    first: &mut Pass<S>,
    handle: Shutdown<W>,
    job: &J,
    count: usize,
) -> Option<Shutdown<W>>
    requires first { IsPassOf lock.now first.old × IsFirst first.old × IsIdle first.old }
    requires alone { ((known first.old).out ≡ []) × ((known first.old).back ≡ []) × ((known first.old).next ≡ 1) }
    requires ready { IsReady (J.ready job.now) (known first.old) handle }
    ensures first { IsPassOf lock.entry.now first.new × IsFirst first.new × IsIdle first.new }
    ensures name { (known first.new).name ≡ (known first.old).name }
    ensures mine { (known first.new).mine ≡ (known first.old).mine }
    ensures seen { StartsWith (known first.new).seen (known first.old).seen }
    ensures out { (known first.new).out ≡ [] }
    ensures handle { HandsOver (Some handle) result }
    ensures crew { IsCrew (J.done job.now) count result (known first.new).back }
{
    let pass = first.split(lock);
    let mut post = Post {
        rt,
        lock,
        pass,
        handle: Some(handle),
        moment: 0,
        trip: None,
    };
    job.work(alloc, &mut post);
    let (pass, handle) = post.into_parts();
    first.join(lock, pass);
    handle
}

// The work of so many posts, or of one on the caller.
fn work<
    'b,
    S: Booked<Name: Send, Entry: Send> + Send,
    W: Reason + Send,
    R: Threads + Wait + Sync,
    J: Job<S, W, R> + Sync,
>(
    rt: &'b R,
    alloc: Global,
    lock: &'b Turnstile<S>,
    first: &mut Pass<S>,
    mut handle: Shutdown<W>,
    job: &J,
    count: usize,
) -> Option<Shutdown<W>>
    requires first { IsPassOf lock.now first.old × IsFirst first.old × IsIdle first.old }
    requires alone { ((known first.old).out ≡ []) × ((known first.old).back ≡ []) × ((known first.old).next ≡ 1) }
    requires few { count < last_number }
    requires ready { IsReady (J.ready job.now) (known first.old) handle }
    ensures first { IsPassOf lock.entry.now first.new × IsFirst first.new × IsIdle first.new }
    ensures name { (known first.new).name ≡ (known first.old).name }
    ensures mine { (known first.new).mine ≡ (known first.old).mine }
    ensures seen { StartsWith (known first.new).seen (known first.old).seen }
    ensures out { (known first.new).out ≡ [] }
    ensures handle { HandsOver (Some handle) result }
    ensures crew { IsCrew (J.done job.now) count result (known first.new).back }
{
    let mut posts = hire(rt, alloc, lock, first, &mut handle, count);
    if posts.is_empty() {
        return work_alone(rt, alloc, lock, first, handle, job, count);
    }
    work_all(rt, alloc, lock, &handle, &mut posts, job, count);
    gather(lock, first, &mut handle, posts);
    Some(handle)
}

/// Does a job behind a lock, from so many posts, each on a thread of its own where one can be made, and hands the state out
/// when each is done. Where there is no memory for so many, fewer work; with none, one works on the caller. The first pass,
/// whose number is 0, enters nothing.
pub fn work_in_threads<
    S: Booked<Name: Send, Entry: Send> + Send,
    W: Reason + Send,
    R: Threads + Wait + Sync,
    J: Job<S, W, R> + Sync,
>(
    rt: &R,
    alloc: Global,
    name: S::Name,
    state: S,
    handle: Shutdown<W>,
    job: &J,
    count: usize,
) -> Result<(S, Option<Shutdown<W>>), (S, Shutdown<W>)>
    requires name { S.name state ≡ name }
    requires legal { S.legal name (S.entries state) }
    requires keeps { S.keeps state }
    requires few { count < last_number }
    requires first { AreOf S.number 0 (S.entries state) }
    requires ready { J.ready job.now name (S.entries state) handle }
    ensures name { IfOk result (λ r. S.name r.0 ≡ name) }
    ensures legal { IfOk result (λ r. S.legal name (S.entries r.0)) }
    ensures keeps { IfOk result (λ r. S.keeps r.0) }
    ensures begins { IfOk result (λ r. StartsWith (S.entries r.0) (S.entries state)) }
    // Of each number below the last one the list has what was entered from the post with that number, which is done.
    ensures worked { IfOk result (λ r. IsWorked (J.done job.now) count r.1 S.number (S.entries state) (S.entries r.0)) }
    // The handle comes back, unless one on the caller worked with it and has given it away.
    ensures handle { IfOk result (λ r. HandsOver (Some handle) r.1) }
    // For want of memory for the lock, nothing is done.
    ensures err { IfErr result (λ r. (r.0 ≡ state) × (r.1 ≡ handle)) }
{
    match Turnstile::new(alloc, name, state) {
        Ok((lock, mut first)) => {
            let handle = work(rt, alloc, &lock, &mut first, handle, job, count);
            Ok((lock.close(first), handle))
        }
        Err(state) => Err((state, handle)),
    }
}
