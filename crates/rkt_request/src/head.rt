ghost use Rattle.std.specs.Prelude.{◌≡◌, IfOk};

use rkt_base::{Bytes, NoMemory, Seq, Text, copy_all};
use std::alloc::Global;
use std::net::SocketAddr;

/// What came of a request before its body: the words of its first line, its headers, and who sent it.
#[derive(Debug, Drop)]
pub struct Head {
    pub method: Text,
    pub target: Text,
    pub headers: Seq<(Text, Bytes)>,
    pub remote: Option<SocketAddr>,
}

impl Head {
    /// A copy, by an allocator that is handed in.
    pub fn try_clone(&self, alloc: Global) -> Result<Head, NoMemory>
        ensures { IfOk result (λ h. h ≡ self.now) }
    {
        let method = self.method.try_clone(alloc)?;
        let target = self.target.try_clone(alloc)?;
        let headers = copy_all(alloc, self.headers.as_slice())?;
        Ok(Head {
            method,
            target,
            headers: Seq::from_vec(headers),
            remote: self.remote,
        })
    }
}

/// Where the route stands that a request is tried on.
#[derive(Clone, Copy, Debug, PartialEq, Eq)]
pub struct Mounted {
    /// The route's place in mounting order.
    pub position: usize,
    /// How many segments its base has.
    pub base_segments: usize,
}
