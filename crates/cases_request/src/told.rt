//! Requests, as answers show them.
use rkt_base::NoMemory;
use rkt_http::{Accept, ContentType, Host, MediaType};
use rkt_request::Request;
use sample_app::Sample;
use std::alloc::Global;
use std::fmt::Debug;

/// Adds the method, the origin and the route.
fn push_line(request: &Request<'_, Sample>, out: &mut String) -> Result<(), NoMemory> {
    let (method, uri) = (request.method().as_str(), request.uri().as_str());
    let route = request.route();
    write!(out, "{method} {uri} route={route:?}")
}

/// Adds to whom it was sent.
fn push_host(request: &Request<'_, Sample>, out: &mut String) -> Result<(), NoMemory> {
    let domain = request.host().map(Host::domain);
    let port = request.host().and_then(Host::port);
    write!(out, " host={domain:?} port={port:?}")
}

/// Adds from whom it came.
fn push_client(request: &Request<'_, Sample>, out: &mut String) -> Result<(), NoMemory> {
    let (remote, real, client) = (request.remote(), request.real_ip(), request.client_ip());
    write!(out, " remote={remote:?} real={real:?} client={client:?}")
}

/// Adds a media type.
pub fn push_media(alloc: Global, media: &MediaType, out: &mut String) -> Result<(), NoMemory> {
    let text = media.to_text(alloc)?;
    out.push_str(text.as_str())
}

/// Adds a media type behind its name.
fn push_type(
    alloc: Global,
    name: &str,
    media: Option<&MediaType>,
    out: &mut String,
) -> Result<(), NoMemory> {
    out.push_str(name)?;
    match media {
        Some(media) => push_media(alloc, media, out),
        None => out.push_str("none"),
    }
}

/// Adds what is carried, what is preferred, and the format.
fn push_types(
    alloc: Global,
    request: &Request<'_, Sample>,
    out: &mut String,
) -> Result<(), NoMemory> {
    let carried = request.content_type().map(ContentType::media_type);
    let preferred = request.accept().map(Accept::preferred);
    push_type(alloc, " type=", carried, out)?;
    push_type(alloc, " accept=", preferred, out)?;
    push_type(alloc, " format=", request.format(), out)
}

/// Adds a value behind its name.
pub fn push_field<V: Debug>(name: &str, value: &V, out: &mut String) -> Result<(), NoMemory> {
    write!(out, " {name}={value:?}")
}

/// Adds the decoded fields of the query.
fn push_query(request: &Request<'_, Sample>, out: &mut String) -> Result<(), NoMemory> {
    out.push_str(" query")?;
    for (name, value) in request.query_fields() {
        push_field(name, &value, out)?;
    }
    Ok(())
}

/// Adds the headers.
fn push_headers(request: &Request<'_, Sample>, out: &mut String) -> Result<(), NoMemory> {
    out.push_str(" headers")?;
    for (name, value) in request.headers().iter() {
        push_field(name, &value, out)?;
    }
    Ok(())
}

/// Adds what a request tells.
pub fn push_request(
    alloc: Global,
    request: &Request<'_, Sample>,
    out: &mut String,
) -> Result<(), NoMemory> {
    push_line(request, out)?;
    push_host(request, out)?;
    push_client(request, out)?;
    push_types(alloc, request, out)?;
    push_query(request, out)?;
    push_headers(request, out)
}
