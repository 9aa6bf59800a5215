ghost use Rattle.std.specs.Prelude.{◌≡◌, List, ℕ, IfOk};

use rkt_base::NoMemory;
use rkt_http::Header;
use std::alloc::Global;

/// A policy that a browser keeps because a header of the response says so.
pub trait Policy {
    /// The name of the header, which `name` tells: a constant of a trait that lends a text cannot stand in a clause.
    ghost NAME: { List ℕ };

    /// The value of the header.
    ghost text: { Self → List ℕ };

    /// The name of the header, which is the same for all policies of the type.
    fn name() -> &'static str
        ensures { result.now ≡ NAME };

    /// The header that says this policy.
    fn header(&self, alloc: Global) -> Result<Header, NoMemory>
        ensures { IfOk result (λ header. header ≡ record { name = NAME; value = text self.now }) };
}
