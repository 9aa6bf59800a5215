//! A value on the heap.
ghost use Rattle.std.specs.Prelude.{◌≡◌, IfOk};

use crate::want::NoMemory;
use std::alloc::Global;
use std::marker::Model;

/// A `Box` that contracts see as the value in it, without an address.
#[derive(Drop)]
pub struct Boxed<T> {
    inner: Box<T>,
}

impl<T> Model for Boxed<T> {
    ghost Value = { T };

    ghost coded = { T.code };

    ghost view = { λ b. b.inner.value };
}

impl<T> Boxed<T> {
    pub fn get(&self) -> &T
        ensures { result.now ≡ self.now }
    {
        &self.inner
    }

    /// Puts a value in the place of the one in it, which is handed out. It takes no memory.
    pub fn replace(&mut self, value: T) -> T
        ensures old { result ≡ self.old }
        ensures new { self.new ≡ value }
    {
        Box::replace(&mut self.inner, value)
    }
}

impl<T: Drop> Boxed<T> {
    /// Moves a value to the heap. Where there is no memory it is let go.
    pub fn new(alloc: Global, value: T) -> Result<Boxed<T>, NoMemory>
        ensures { IfOk result (λ b. b ≡ value) }
    {
        Ok(Boxed {
            inner: Box::new(alloc, value)?,
        })
    }
}
