//! Links that nobody has used.
ghost use Rattle.std.specs.Prelude.{◌≡◌, ◌++◌, ◌∷◌, [], false, OnOk, OnErr};
ghost use Rattle.std.specs.List.{AllByRecursion};
ghost use Rattle.rkt_link.specs.Memory.{IsUnused};

use crate::MemoryLink;
use rkt_base::NoMemory;
use rkt_request::Head;
use std::alloc::Global;
use std::marker::Model;

/// A list of links in memory that nobody has used, to be offered by a `ListListener`.
#[derive(Debug, Drop)]
pub struct Links {
    links: Vec<MemoryLink>,
}

impl Model for Links {
    ghost use Rattle.std.specs.Prelude.{List};
    ghost use Rattle.std.specs.List.{AllByRecursion};
    ghost use Rattle.rkt_link.specs.Memory.{LinkInMemory, IsUnused};

    ghost Value = { List LinkInMemory };

    ghost view = { λ l. l.links.items };

    ghost invariant = { λ l. AllByRecursion IsUnused l.links.items };
}

impl Links {
    /// No links.
    pub fn new(alloc: Global) -> Links
        ensures { result ≡ [] }
    {
        Links {
            links: Vec::new(alloc),
        }
    }

    /// Adds a link behind the others that asks this, with these bytes as the body, and never fails.
    #[tactic(auto, using(crate::proofs::Unused::unused_push))]
    pub fn push(&mut self, alloc: Global, head: Head, bytes: Vec<u8>) -> Result<(), NoMemory>
        ensures ok { OnOk result (self.new ≡ self.old
            ++ (record { head = head; body = bytes.items; source_taken = false; held = []; fails = []; sends = 0; faults = 0 })
            ∷ []) }
        ensures err { OnErr result (self.new ≡ self.old) }
    {
        self.links
            .push(MemoryLink::new(alloc, head, bytes, Vec::new(alloc))?)?;
        Ok(())
    }

    /// All of them, in order.
    pub fn into_vec(self) -> Vec<MemoryLink>
        ensures all { result.items ≡ self }
        ensures unused { AllByRecursion IsUnused result.items }
    {
        self.links
    }
}
