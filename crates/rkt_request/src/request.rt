ghost use Rattle.std.specs.Net.Grammar.{IsIpText};
ghost use Rattle.std.specs.Net.Socket.{socket_ip};
ghost use Rattle.std.specs.Option.{option_or};
ghost use Rattle.std.specs.Prelude.{◌≡◌, [], Some, None, IfOk, OnOk, OnErr, drop, slice_get, option_and_then, option_copied, option_map};
ghost use Rattle.rkt_http.specs.Headers.{added, first_value, replaced};
ghost use Rattle.rkt_http.specs.Reading.{MaybeReadAs};
ghost use Rattle.rkt_uri.specs.Origin.{fields_of};
ghost use Rattle.rkt_request.specs.Seen.{IsAccept, IsClientIp, IsContentType, IsFormat, IsRealIp, base_segments, routed};

use crate::head::Mounted;
use crate::request_headers::RequestHeaders;
use crate::types::Types;
use rkt_base::{NoMemory, Text};
use rkt_config::{Config, Limits, Managed};
use rkt_http::{
    Accept, ContentType, Header, HeaderMap, Host, MediaType, Method, Origin, QueryFields, Segments,
};
use std::alloc::Global;
use std::marker::Model;
use std::net::{IpAddr, SocketAddr};
use std::ops::RangeFrom;

/// The address that the header of this name says.
fn address_in(headers: &HeaderMap, name: Option<&Text>) -> Option<IpAddr>
    ensures { MaybeReadAs IsIpText (option_and_then (first_value headers.now) (option_copied name.entry)) result }
{
    let name = name?;
    let text = headers.get_one(name.as_str())?;
    text.parse().ok()
}

/// An address, or else that of who sent the request.
fn or_sender(said: Option<IpAddr>, remote: Option<SocketAddr>) -> Option<IpAddr>
    ensures { result ≡ option_or said (option_map socket_ip remote) }
{
    match said {
        Some(address) => Some(address),
        None => Some(remote?.ip()),
    }
}

/// What a client asks, apart from the body, with what the server lends.
#[derive(Drop)]
pub struct Request<'a, T: Types> {
    config: &'a Config,
    managed: &'a Managed<T::Value>,
    method: Method,
    uri: Origin,
    host: Option<Host>,
    remote: Option<SocketAddr>,
    headers: RequestHeaders,
    route: Option<Mounted>,
}

impl<'a, T: Types> Model for Request<'a, T> {
    ghost use Rattle.rkt_request.specs.Seen.{Seen};

    ghost Value = { Seen T.Value };

    ghost view = { λ r. record {
      config = r.config.now;
      managed = r.managed.now;
      method = r.method;
      uri = r.uri;
      host = r.host;
      remote = r.remote;
      headers = r.headers;
      route = r.route;
    } };
}

impl<'a, T: Types> Request<'a, T> {
    /// A request without headers. It takes no memory.
    pub fn new(
        alloc: Global,
        config: &'a Config,
        managed: &'a Managed<T::Value>,
        method: Method,
        uri: Origin,
    ) -> Request<'a, T>
        ensures { result ≡ record {
          config = config.now;
          managed = managed.now;
          method = method;
          uri = uri;
          host = None;
          remote = None;
          headers = [];
          route = None;
        } }
    {
        let headers = RequestHeaders::none(alloc);
        Request::of_parts(config, managed, method, uri, None, None, headers)
    }

    /// A request that is on no route yet.
    pub(crate) fn of_parts(
        config: &'a Config,
        managed: &'a Managed<T::Value>,
        method: Method,
        uri: Origin,
        host: Option<Host>,
        remote: Option<SocketAddr>,
        headers: RequestHeaders,
    ) -> Request<'a, T>
        ensures { result ≡ record {
          config = config.now;
          managed = managed.now;
          method = method;
          uri = uri;
          host = host;
          remote = remote;
          headers = headers;
          route = None;
        } }
    {
        Request {
            config,
            managed,
            method,
            uri,
            host,
            remote,
            headers,
            route: None,
        }
    }

    pub fn method(&self) -> Method
        ensures { result ≡ self.now.method }
    {
        self.method
    }

    pub fn set_method(&mut self, method: Method)
        ensures { self.new ≡ record self.old { method = method } }
    {
        self.method = method;
    }

    pub fn uri(&self) -> &Origin
        ensures { result.now ≡ self.now.uri }
    {
        &self.uri
    }

    pub fn set_uri(&mut self, uri: Origin)
        ensures { self.new ≡ record self.old { uri = uri } }
    {
        self.uri = uri;
    }

    /// The host that the request was sent to.
    pub fn host(&self) -> Option<&Host>
        ensures { option_copied result ≡ self.now.host }
    {
        self.host.as_ref()
    }

    pub fn set_host(&mut self, host: Host)
        ensures { self.new ≡ record self.old { host = Some host } }
    {
        self.host = Some(host);
    }

    /// Who sent the request.
    pub fn remote(&self) -> Option<SocketAddr>
        ensures { result ≡ self.now.remote }
    {
        self.remote
    }

    pub fn set_remote(&mut self, address: SocketAddr)
        ensures { self.new ≡ record self.old { remote = Some address } }
    {
        self.remote = Some(address);
    }

    /// The address that the configured header says.
    pub fn real_ip(&self) -> Option<IpAddr>
        ensures { IsRealIp self.now result }
    {
        address_in(self.headers.map(), self.config.ip_header.as_ref())
    }

    /// The address that the configured header says, or else that of who sent the request.
    pub fn client_ip(&self) -> Option<IpAddr>
        ensures { IsClientIp self.now result }
    {
        or_sender(self.real_ip(), self.remote)
    }

    pub fn headers(&self) -> &HeaderMap
        ensures { result.now ≡ self.now.headers }
    {
        self.headers.map()
    }

    /// What the first Content-Type spells.
    pub fn content_type(&self) -> Option<&ContentType>
        ensures { IsContentType self.now.headers (option_copied result) }
    {
        self.headers.content_type()
    }

    /// What the first Accept spells.
    pub fn accept(&self) -> Option<&Accept>
        ensures { IsAccept self.now.headers (option_copied result) }
    {
        self.headers.accept()
    }

    /// With a payload the content type, and else the media type that is preferred, which is `*/*` where nothing is said.
    pub fn format(&self) -> Option<&MediaType>
        ensures { IsFormat self.now (option_copied result) }
    {
        if self.method.supports_payload() {
            return match self.content_type() {
                Some(content_type) => Some(content_type.media_type()),
                None => None,
            };
        }
        match self.accept() {
            Some(accept) => Some(accept.preferred()),
            None => Some(self.headers.any()),
        }
    }

    /// Adds a header behind those of its name.
    pub fn add_header(&mut self, header: Header) -> Result<(), NoMemory>
        ensures ok { OnOk result (self.new ≡ record self.old { headers = added self.old.headers header }) }
        ensures err { OnErr result (self.new ≡ self.old) }
    {
        self.headers.add(header)
    }

    /// Puts a header in place of those of its name.
    pub fn replace_header(&mut self, header: Header) -> Result<(), NoMemory>
        ensures ok { OnOk result (self.new ≡ record self.old { headers = replaced self.old.headers header }) }
        ensures err { OnErr result (self.new ≡ self.old) }
    {
        self.headers.replace(header)
    }

    /// The limits of the configuration.
    pub fn limits(&self) -> &Limits
        ensures { result.now ≡ self.now.config.limits }
    {
        &self.config.limits
    }

    pub fn config(&self) -> &'a Config
        ensures { result.now ≡ self.now.config }
    {
        self.config
    }

    pub fn managed(&self) -> &'a Managed<T::Value>
        ensures { result.now ≡ self.now.managed }
    {
        self.managed
    }

    /// The route that the request is tried on.
    pub fn route(&self) -> Option<Mounted>
        ensures { result ≡ self.now.route }
    {
        self.route
    }

    pub fn set_route(&mut self, route: Mounted)
        ensures { self.new ≡ record self.old { route = Some route } }
    {
        self.route = Some(route);
    }

    fn base_segments(&self) -> usize
        ensures { result ≡ base_segments self.now.route }
    {
        self.route.map_or(0, |mounted| mounted.base_segments)
    }

    /// A decoded segment, counted from 0 behind the base of the route.
    pub fn routed_segment(&self, n: usize) -> Option<&str>
        ensures { option_copied result ≡ slice_get (routed self.now) n }
    {
        self.routed_segments(n..).get(0)
    }

    /// The decoded segments from one on, counted from 0 behind the base of the route.
    pub fn routed_segments(&self, n: RangeFrom<usize>) -> Segments<'_>
        ensures { result ≡ drop n.start (routed self.now) }
    {
        self.uri.segments().skip(self.base_segments()).skip(n.start)
    }

    /// The decoded fields of the query.
    pub fn query_fields(&self) -> QueryFields<'_>
        ensures { result ≡ fields_of self.now.uri }
    {
        self.uri.query_fields()
    }
}
