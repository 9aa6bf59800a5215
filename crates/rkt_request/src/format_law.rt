ghost use Rattle.rkt_request.specs.Seen.{HasOneFormat};

use crate::{Request, Types};
use rkt_http::spells_one_media_type;

/// A law of requests: each has one format at most, so that `Request::format` tells what it is not.
pub fn has_one_format<T: Types>(_request: &Request<'_, T>)
    ensures { HasOneFormat _request.now }
{
    spells_one_media_type();
}
