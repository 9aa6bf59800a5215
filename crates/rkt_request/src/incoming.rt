//! What is asked, as a request.
ghost use Rattle.std.specs.Prelude.{IfOk};
ghost use Rattle.rkt_request.specs.Incoming.{IsIncoming};

use crate::asked::{read_fields, read_origin};
use crate::bad::Bad;
use crate::head::Head;
use crate::request::Request;
use crate::types::Types;
use rkt_base::{NoMemory, Seq};
use rkt_config::{Config, Managed};
use rkt_cookie::CookieJar;
use rkt_http::Method;
use std::alloc::Global;

/// The request that a head makes, and the cookies that came with it.
#[derive(Drop)]
pub struct Incoming<'a, T: Types> {
    pub request: Request<'a, T>,
    pub jar: CookieJar,
    /// What is wrong with the head. Where there is anything, the request has a method or an origin that was not asked.
    pub faults: Seq<Bad>,
}

impl<'a, T: Types> Request<'a, T> {
    /// Reads a head. Headers whose value is no UTF-8 are left out.
    pub fn from_incoming(
        alloc: Global,
        head: &Head,
        config: &'a Config,
        managed: &'a Managed<T::Value>,
    ) -> Result<Incoming<'a, T>, NoMemory>
        ensures { IfOk result (λ incoming.
            IsIncoming head.now config.now managed.now incoming.request incoming.jar incoming.faults) }
    {
        let method = Method::from_wire(head.method.as_str());
        let (uri, faults) = read_origin(alloc, method, head.target.as_str())?;
        let (headers, host, jar) = read_fields(alloc, head.headers.as_slice())?;
        let method = method.unwrap_or(Method::Get);
        let request = Request::of_parts(config, managed, method, uri, host, head.remote, headers);
        Ok(Incoming {
            request,
            jar,
            faults,
        })
    }
}
