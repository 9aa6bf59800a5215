//! The page that answers for a status where no catcher of the application does.
ghost use Rattle.std.specs.Prelude.{◌≡◌, IfOk, string_bytes, codes};
ghost use Rattle.rkt_router.specs.Page.{typed, PrefersJson, IsDefaultPage};

use rkt_base::NoMemory;
use rkt_http::{Status, default_page};
use rkt_message::Response;
use rkt_request::{Request, Types};
use rkt_source::Source;
use std::alloc::Global;

/// A body of this type, with its size.
fn typed<S: Source>(
    alloc: Global,
    status: Status,
    content_type: &str,
    body: String,
) -> Result<Response<S>, NoMemory>
    ensures { IfOk result (λ r. r ≡ typed status.code content_type.now (string_bytes body)) }
{
    let mut response = Response::new(alloc);
    response.set_status(status);
    response.adjoin_raw_header("Content-Type", content_type)?;
    response.set_sized_body(Some(body.len()), body.into_bytes());
    Ok(response)
}

/// Whether the media type that a request prefers is JSON.
fn prefers_json<T: Types>(request: &Request<'_, T>) -> bool
    ensures { PrefersJson request.now.headers result }
{
    match request.accept() {
        Some(accept) => accept.preferred().is_json(),
        None => false,
    }
}

/// The page of a status, as JSON where the request prefers that and else as HTML. It is what `Catching::Rocket` answers.
pub fn default_handler<T: Types>(
    alloc: Global,
    status: Status,
    request: &Request<'_, T>,
) -> Result<Response<T::Stream>, NoMemory>
    ensures { IfOk result (IsDefaultPage status.code request.now) }
{
    if prefers_json(request) {
        let page = default_page::json(alloc, status)?;
        return typed(alloc, status, "application/json", page.into_string());
    }
    let page = default_page::html(alloc, status)?;
    typed(
        alloc,
        status,
        "text/html; charset=utf-8",
        page.into_string(),
    )
}
