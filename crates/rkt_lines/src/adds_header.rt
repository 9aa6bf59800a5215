//! A change that many applications make.
ghost use Rattle.std.specs.Prelude.{◌≡◌};
ghost use Rattle.rkt_http.specs.Headers.{added};
ghost use Rattle.rkt_message.specs.Response.{with_headers};

use rkt_life::{ChangesResponse, Ctx, NoMemory, Request, Response, Types};
use std::alloc::Global;

/// Adds a header, by its name and its value, to each response: a change for `AdHoc::on_response`.
#[derive(Clone, Copy, Debug, PartialEq, Eq)]
pub struct AddsHeader(pub &'static str, pub &'static str);

impl<T: Types> ChangesResponse<T> for AddsHeader {
    // The header stands behind those of its name.
    ghost may = { λ change request before after.
        after ≡ record before {
          response = with_headers before.response
              (added before.response.headers (record { name = change.0.now; value = change.1.now }));
        } };

    fn on_response(
        &self,
        _alloc: Global,
        _request: &Request<'_, T>,
        response: &mut Response<T::Stream>,
        _ctx: &mut Ctx<T>,
    ) -> Result<(), NoMemory> {
        response.adjoin_raw_header(self.0, self.1)
    }
}
