//! The body of a response, lent for writing. The clause names the rows of `Response` and `Body`, so it stands in a file
//! of its own.
ghost use Rattle.std.specs.Borrow.{Lends, sem};
ghost use Rattle.std.specs.Prelude.{◌≡◌};
ghost use Rattle.rkt_message.specs.contracts.body.Body.{the_row as body_row};
ghost use Rattle.rkt_message.specs.contracts.response.Response.{the_row};
ghost use Rattle.rkt_message.specs.Response.{with_body};

use crate::body::Body;
use crate::response::Response;
use rkt_data::Source;

impl<S: Source> Response<S> {
    /// The body, for changes.
    pub fn body_mut(&mut self) -> &mut Body<S>
        // The response ends with the body that the caller leaves.
        ensures* writes_back { sem 𝓛 (Lends (the_row S.row) (body_row S.row) self.entry result (with_body self.old)) }
        ensures value { result.now ≡ self.old.body }
    {
        &mut self.body
    }
}
