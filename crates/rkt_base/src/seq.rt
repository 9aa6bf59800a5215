ghost use Rattle.std.specs.Prelude.{◌≡◌, ◌++◌, ◌∷◌, ◌↔◌, [], List, IsTrue, IfOk, OnOk, OnErr, length};

use crate::want::NoMemory;
use std::alloc::Global;
use std::marker::Model;

/// A `Vec` that contracts see as the list of its items, without capacity or address.
#[derive(Debug, Drop)]
pub struct Seq<T> {
    inner: Vec<T>,
}

impl<T> Model for Seq<T> {
    ghost Value = { List T };

    ghost view = { λ s. s.inner.items };
}

impl<T> Seq<T> {
    /// An empty list, which takes no memory until the first item comes.
    pub fn new(alloc: Global) -> Seq<T>
        ensures { result ≡ [] }
    {
        Seq {
            inner: Vec::new(alloc),
        }
    }

    /// The same list, which takes no memory.
    pub fn from_vec(inner: Vec<T>) -> Seq<T>
        ensures { result ≡ inner.items }
    {
        Seq { inner }
    }

    /// The same list, which takes no memory.
    pub fn into_vec(self) -> Vec<T>
        ensures { result.items ≡ self }
    {
        self.inner
    }

    pub fn as_slice(&self) -> &[T]
        ensures { result.now ≡ self.now }
    {
        self.inner.as_slice()
    }

    pub fn len(&self) -> usize
        ensures { result ≡ length self.now }
    {
        self.inner.len()
    }

    pub fn is_empty(&self) -> bool
        ensures { IsTrue result ↔ (self.now ≡ []) }
    {
        self.inner.is_empty()
    }
}

impl<T: Drop> Seq<T> {
    /// Adds an item at the end.
    pub fn push(&mut self, item: T) -> Result<(), NoMemory>
        ensures ok { OnOk result (self.new ≡ self.old ++ item ∷ []) }
        ensures err { OnErr result (self.new ≡ self.old) }
    {
        self.inner.push(item)?;
        Ok(())
    }
}

/// Bytes that contracts see as a list.
pub type Bytes = Seq<u8>;

impl Seq<u8> {
    /// A copy, by an allocator that is handed in.
    pub fn try_clone(&self, alloc: Global) -> Result<Seq<u8>, NoMemory>
        ensures { IfOk result (λ b. b ≡ self.now) }
    {
        Ok(Seq {
            inner: self.inner.as_slice().to_vec(alloc)?,
        })
    }
}
