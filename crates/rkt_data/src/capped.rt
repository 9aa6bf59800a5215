//! What was read of a body under a limit.
ghost use Rattle.std.specs.Prelude.{◌≡◌, ◌==◌, length, true};

use std::convert::AsSlice;
use std::fmt::{self, Display, Formatter, Write};
use std::ops::{Deref, DerefMut};

/// How many bytes were read, and whether these are all.
#[derive(Clone, Copy, Debug, Drop, PartialEq, Eq)]
pub struct N {
    pub written: u64,
    pub complete: bool,
}

impl Deref for N {
    type Target = u64;

    ghost deref_gives = { λ n written. written ≡ n.written };

    fn deref(&self) -> &u64 {
        &self.written
    }
}

impl Display for N {
    ghost output = { λ n. ⟦<u64 as Display>⟧.output n.written };

    fn fmt<W: Write>(&self, f: &mut Formatter<W>) -> fmt::Result {
        self.written.fmt(f)
    }
}

/// A value that was read under a limit, and how much of the body it is.
#[derive(Clone, Copy, Debug, Drop, PartialEq, Eq)]
pub struct Capped<T> {
    pub value: T,
    pub n: N,
}

impl<T> Capped<T> {
    pub fn new(value: T, n: N) -> Capped<T>
        ensures { result ≡ record { value = value; n = n } }
    {
        Capped { value, n }
    }

    /// A value that was read whole, of `len` bytes.
    pub fn complete(value: T, len: usize) -> Capped<T>
        ensures { result ≡ record { value = value; n = record { written = len; complete = true } } }
    {
        Capped {
            value,
            n: N {
                written: len as u64,
                complete: true,
            },
        }
    }

    /// The same reading of another value.
    pub fn map<U, F: FnOnce(T) -> U>(self, f: F) -> Capped<U>
        requires { F.pre f self.value }
        ensures value { F.post f self.value result.value }
        ensures n { result.n ≡ self.n }
    {
        Capped {
            value: f(self.value),
            n: self.n,
        }
    }

    /// Whether nothing was read.
    pub fn is_empty(&self) -> bool
        ensures { result ≡ (self.now.n.written == 0) }
    {
        self.n.written == 0
    }

    pub fn is_complete(&self) -> bool
        ensures { result ≡ self.now.n.complete }
    {
        self.n.complete
    }

    pub fn into_inner(self) -> T
        ensures { result ≡ self.value }
    {
        self.value
    }
}

impl<T: AsSlice<u8>> Capped<T> {
    /// A value that was read whole.
    pub fn from(value: T) -> Capped<T>
        ensures { result ≡ record { value = value; n = record { written = length (T.items value); complete = true } } }
    {
        let len = value.as_slice().len();
        Capped::complete(value, len)
    }
}

impl<T> Deref for Capped<T> {
    type Target = T;

    ghost deref_gives = { λ c value. value ≡ c.value };

    fn deref(&self) -> &T {
        &self.value
    }
}

impl<T> DerefMut for Capped<T> {
    ghost use Rattle.std.specs.Borrow.{Lends, sem};
    ghost use Rattle.rkt_data.specs.contracts.capped.Capped.{the_row};

    ghost deref_mut_gives = { λ c value. value ≡ c.value };

    fn deref_mut(&mut self) -> &mut T
        ensures shows { result.now ≡ self.old.value }
        ensures* writes_back { sem 𝓛 (Lends (the_row T.row) T.row self.entry result (λ value.
            record self.old { value = value })) }
    {
        &mut self.value
    }
}
