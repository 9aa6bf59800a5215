//! The greeting of who is named in a path.
ghost use Rattle.std.specs.Prelude.{◌≡◌, IfOk, option_and_then, option_map, slice_get, string_bytes};
ghost use Rattle.rkt_request.specs.Seen.{routed};
ghost use Rattle.rkt_sample.specs.Greeting.{age_of, greeting};

use rkt_base::{NoMemory, Want};
use rkt_request::{Request, Types};
use std::alloc::{AllocError, Global};

/// The age that the second segment behind the base writes.
fn age<T: Types>(alloc: Global, request: &Request<'_, T>) -> Result<Option<u8>, NoMemory>
    ensures { IfOk result (λ age. age ≡ option_and_then age_of (slice_get (routed request.now) 1)) }
{
    match request.param::<u8>(alloc, 1) {
        Some(Ok(age)) => Ok(Some(age)),
        Some(Err(Want::Refused(_))) => Ok(None),
        Some(Err(Want::NoMemory)) => Err(AllocError),
        None => Ok(None),
    }
}

/// The greeting of the first segment behind the base, whose age is the second one.
pub(crate) fn greeting<T: Types>(
    alloc: Global,
    request: &Request<'_, T>,
) -> Result<Option<String>, NoMemory>
    ensures { IfOk result (λ text. option_map string_bytes text ≡ greeting request.now) }
{
    let Some(name) = request.routed_segment(0) else {
        return Ok(None);
    };
    match age(alloc, request)? {
        Some(age) => Ok(Some(format!(in alloc; "Hello, {age} year old named {name}!")?)),
        None => Ok(None),
    }
}
