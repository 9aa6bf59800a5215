//! A buffer that is kept from one poll to the next.
ghost use Rattle.std.specs.Prelude.{◌≡◌, None};
ghost use Rattle.rkt_source.specs.Buffer.{items_of};

use std::alloc::Global;

/// The buffer that an earlier poll has left, or a new one, which takes no memory.
pub fn resume_buffer(left: &mut Option<Vec<u8>>, alloc: Global) -> Vec<u8>
    ensures items { result.items ≡ items_of left.old }
    ensures taken { left.new ≡ None }
{
    match left.take() {
        Some(buffer) => buffer,
        None => Vec::new(alloc),
    }
}
