//! Which requests are for `/stop`.
ghost use Rattle.std.specs.Prelude.{◌≡◌, ◌↔◌, ◌∷◌, [], IfOk, IsTrue, codes};
ghost use Rattle.rkt_uri.specs.Origin.{segments_of};
ghost use Rattle.rkt_script.specs.Stopping.{IsStop, StandBefore};

use crate::script::ScriptRequest;
use rkt_base::{NoMemory, Want};
use rkt_uri::{Origin, Segments};
use std::alloc::{AllocError, Global};

// Just the one segment `stop`.
fn is_stop_alone(segments: &Segments<'_>) -> bool
    ensures { IsTrue result ↔ (segments.now ≡ codes "stop" ∷ []) }
{
    match segments.get(0) {
        Some(first) => segments.len() == 1 && first == "stop",
        None => false,
    }
}

// Whether a request is for `/stop`.
fn is_stop(alloc: Global, request: &ScriptRequest) -> Result<bool, NoMemory>
    ensures { IfOk result (λ stops. IsTrue stops ↔ IsStop request.now) }
{
    match Origin::parse(alloc, request.head.target.as_str()) {
        Ok(origin) => Ok(is_stop_alone(&origin.segments())),
        Err(Want::Refused(_)) => Ok(false),
        Err(Want::NoMemory) => Err(AllocError),
    }
}

/// How many requests stand before the first one for `/stop`.
pub fn before_stop(alloc: Global, requests: &[ScriptRequest]) -> Result<usize, NoMemory>
    ensures { IfOk result (StandBefore requests.now) }
{
    for (at, request) in requests.iter().enumerate() {
        if is_stop(alloc, request)? {
            return Ok(at);
        }
    }
    Ok(requests.len())
}
