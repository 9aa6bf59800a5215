ghost use Rattle.std.specs.Prelude.{◌≡◌, IfOk, string_bytes};
ghost use Rattle.rkt_shield.specs.Age.{max_age};

use rkt_base::NoMemory;
use std::alloc::Global;

/// An age in seconds, and what stands behind it.
pub(crate) fn aged(alloc: Global, age: u64, rest: &str) -> Result<String, NoMemory>
    ensures { IfOk result (λ text. string_bytes text ≡ max_age age rest.now) }
{
    format!(in alloc; "max-age={age}{rest}")
}
