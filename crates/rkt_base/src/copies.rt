//! Copies by an allocator that is handed in.
ghost use Rattle.std.specs.Prelude.{◌≡◌, IfOk};

use crate::seq::Seq;
use crate::text::Text;
use crate::want::NoMemory;
use std::alloc::Global;

/// What can be copied so, where the memory for it may be wanting.
pub trait TryClone: Sized + Drop {
    /// A copy, by an allocator that is handed in.
    fn try_clone(&self, alloc: Global) -> Result<Self, NoMemory>
        ensures { IfOk result (λ copy. copy ≡ self.now) };
}

impl TryClone for Text {
    fn try_clone(&self, alloc: Global) -> Result<Text, NoMemory> {
        Text::try_clone(self, alloc)
    }
}

impl TryClone for Seq<u8> {
    fn try_clone(&self, alloc: Global) -> Result<Seq<u8>, NoMemory> {
        Seq::try_clone(self, alloc)
    }
}

impl<A: TryClone, B: TryClone> TryClone for (A, B) {
    fn try_clone(&self, alloc: Global) -> Result<(A, B), NoMemory> {
        let first = self.0.try_clone(alloc)?;
        let second = self.1.try_clone(alloc)?;
        Ok((first, second))
    }
}

/// A copy of each item, in their order.
pub fn copy_all<T: TryClone>(alloc: Global, items: &[T]) -> Result<Vec<T>, NoMemory>
    ensures { IfOk result (λ copies. copies.items ≡ items.now) }
{
    let mut copies = Vec::with_capacity(alloc, items.len())?;
    for item in items {
        copies.push(item.try_clone(alloc)?)?;
    }
    Ok(copies)
}
