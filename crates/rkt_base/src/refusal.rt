ghost use Rattle.std.specs.Prelude.{◌≡◌, ◌↔◌, IfOk, IsErr, Ok, Err, Some, None};
ghost use Rattle.rkt_base.specs.Want.{IfRefused};
ghost use Rattle.rkt_base.specs.declared.want.Want.TheVariants.{NoMemory as OutOfMemory};

use crate::want::{NoMemory, Want};
use std::alloc::AllocError;

/// What a call gave, where a refusal is an answer too: then it is none.
pub fn accepted<T, E: Drop>(given: Result<T, Want<E>>) -> Result<Option<T>, NoMemory>
    ensures value { IfOk given (λ x. result ≡ Ok (Some x)) }
    ensures refused { IfRefused given (λ _. result ≡ Ok None) }
    ensures no_memory { IsErr result ↔ (given ≡ Err OutOfMemory) }
{
    match given {
        Ok(value) => Ok(Some(value)),
        Err(Want::Refused(_)) => Ok(None),
        Err(Want::NoMemory) => Err(AllocError),
    }
}
