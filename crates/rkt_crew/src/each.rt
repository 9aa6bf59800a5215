//! `for_each_mut` over a list. It is generic in the element, so that what the calls wrote is known of a list whose element
//! names a lifetime.
ghost use Rattle.std.specs.Prelude.{◌≡◌, ◌<◌, vec_len};
ghost use Rattle.std.specs.Fork.{AcceptsEach, ChangesEach};

use std::thread;
use std::thread::Threads;

// Calls f(i, &mut list[i]) at each place, in at most so many threads.
pub(crate) fn for_each_in<R: Threads + Sync, T: Send, F: Fn(usize, &mut T) + Sync>(
    rt: &R,
    list: &mut Vec<T>,
    threads: usize,
    f: &F,
)
    requires threads { 0 < threads }
    requires accepts { AcceptsEach F.Fn f.now list.old.items }
    ensures changes { ChangesEach F.Fn f.now list.old.items list.new.items }
    ensures len { vec_len list.new ≡ vec_len list.old }
{
    thread::for_each_mut(rt, list.as_mut_slice(), threads, f);
}
