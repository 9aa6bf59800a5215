//! Routes that are made, shown and mounted.
use crate::refusal::push_misplaced;
use crate::words::{media_type, method, parsed_or_any};
use cases::{CaseError, first_word, parsed, written};
use rkt_base::{NoMemory, Seq, Want};
use rkt_http::{InvalidUri, MediaType, Method};
use rkt_router::route::StaticInfo;
use rkt_router::{Route, Router, Sentry};
use std::alloc::Global;

/// A router of handlers without a meaning.
pub type SampleRouter = Router<u8, u8, u8>;

type SampleRoute = Route<u8, u8>;

type Made = Result<SampleRoute, Want<InvalidUri>>;

fn push_format(
    alloc: Global,
    format: Option<&MediaType>,
    out: &mut String,
) -> Result<(), NoMemory> {
    match format {
        Some(format) => {
            let text = format.to_text(alloc)?;
            out.push_str(text.as_str())
        }
        None => out.push_str("none"),
    }
}

/// Adds what a route is made of, but for its URI.
fn push_made(alloc: Global, route: &SampleRoute, out: &mut String) -> Result<(), NoMemory> {
    let name = route.name.as_ref().map_or("none", |name| name.as_str());
    write!(out, " name={name} handler={} format=", route.handler)?;
    push_format(alloc, route.format.as_ref(), out)
}

fn push_route(alloc: Global, route: &SampleRoute, out: &mut String) -> Result<(), NoMemory> {
    let (method, uri, rank) = (route.method.as_str(), &route.uri, route.rank);
    write!(out, "{method} {uri} rank={rank}")?;
    push_made(alloc, route, out)
}

/// The method and the path of `METHOD PATH`.
fn method_and_path(line: &str) -> Result<(Method, &str), CaseError> {
    let (name, path) = first_word(line);
    Ok((method(name)?, path))
}

fn mount_route(
    alloc: Global,
    router: &mut SampleRouter,
    route: SampleRoute,
    out: &mut String,
) -> Result<(), NoMemory> {
    let shown = push_route(alloc, &route, out);
    router.add_route(route)?;
    shown
}

/// Shows the route that is made, and mounts it.
fn mount_made(
    alloc: Global,
    router: &mut SampleRouter,
    made: Made,
    out: &mut String,
) -> Result<(), CaseError> {
    match made {
        Ok(route) => written(mount_route(alloc, router, route, out)),
        Err(error) => push_misplaced(error, out),
    }
}

fn new_route(
    alloc: Global,
    router: &mut SampleRouter,
    line: &str,
    out: &mut String,
) -> Result<(), CaseError> {
    let (method, path) = method_and_path(line)?;
    mount_made(alloc, router, SampleRoute::new(alloc, method, path, 7), out)
}

fn of_rank(alloc: Global, rank: i64, method: Method, path: &str) -> Made {
    SampleRoute::ranked(alloc, Some(rank), method, path, 7)
}

fn ranked(
    alloc: Global,
    router: &mut SampleRouter,
    line: &str,
    out: &mut String,
) -> Result<(), CaseError> {
    let (rank, line) = first_word(line);
    let rank = parsed::<i64>(rank)?;
    let (method, path) = method_and_path(line)?;
    mount_made(alloc, router, of_rank(alloc, rank, method, path), out)
}

fn info(rank: Option<i64>, method: Method, sentinels: Seq<Sentry<u8>>) -> StaticInfo<u8, u8> {
    StaticInfo {
        name: "static",
        method,
        uri: "/hello/<name>",
        format: None,
        handler: 9,
        rank,
        sentinels,
    }
}

/// The route that static information describes.
fn described(
    alloc: Global,
    router: &mut SampleRouter,
    line: &str,
    out: &mut String,
) -> Result<(), CaseError> {
    let (rank, name) = first_word(line);
    let (rank, method) = (parsed_or_any::<i64>(rank)?, method(name)?);
    let info = info(rank, method, Seq::new(alloc));
    mount_made(alloc, router, SampleRoute::from_info(alloc, info), out)
}

/// The route below the base that is put before its own.
fn moved(alloc: Global, made: Made, front: &str) -> Made {
    match made {
        Ok(route) => route.map_base(
            alloc,
            move |base| format!(in alloc; "{front}{}", base.as_str()),
        ),
        Err(error) => Err(error),
    }
}

fn below(
    alloc: Global,
    router: &mut SampleRouter,
    line: &str,
    out: &mut String,
) -> Result<(), CaseError> {
    let (front, line) = first_word(line);
    let (method, path) = method_and_path(line)?;
    let made = moved(alloc, of_rank(alloc, 3, method, path), front);
    mount_made(alloc, router, made, out)
}

fn formatted(made: Made, format: MediaType) -> Made {
    match made {
        Ok(mut route) => {
            route.format = Some(format);
            Ok(route)
        }
        Err(error) => Err(error),
    }
}

fn with_format(
    alloc: Global,
    router: &mut SampleRouter,
    line: &str,
    out: &mut String,
) -> Result<(), CaseError> {
    let (name, line) = first_word(line);
    let (method, path) = method_and_path(line)?;
    let format = media_type(alloc, name)?;
    let made = formatted(SampleRoute::new(alloc, method, path, 7), format);
    mount_made(alloc, router, made, out)
}

/// Makes the route that a line says, shows it, and mounts it.
pub fn mount(
    alloc: Global,
    router: &mut SampleRouter,
    command: &str,
    rest: &str,
    out: &mut String,
) -> Result<(), CaseError> {
    match command {
        "route" => new_route(alloc, router, rest, out),
        "ranked" => ranked(alloc, router, rest, out),
        "static" => described(alloc, router, rest, out),
        "below" => below(alloc, router, rest, out),
        _ => with_format(alloc, router, rest, out),
    }
}

fn add_made(router: &mut SampleRouter, made: Made) -> Result<(), CaseError> {
    match made {
        Ok(route) => written(router.add_route(route)),
        Err(error) => Err(CaseError::from(error)),
    }
}

fn mount_numbered(alloc: Global, router: &mut SampleRouter, number: u16) -> Result<(), CaseError> {
    let path = format!(in alloc; "/r{number}")?;
    add_made(
        router,
        SampleRoute::new(alloc, Method::Get, path.as_str(), 7),
    )
}

/// Mounts so many routes of one static segment.
pub fn numbered(alloc: Global, router: &mut SampleRouter, count: u16) -> Result<(), CaseError> {
    for number in 0..count {
        mount_numbered(alloc, router, number)?;
    }
    Ok(())
}

/// Adds how many routes and catchers a router has.
pub fn push_counts(router: &SampleRouter, out: &mut String) -> Result<(), NoMemory> {
    let (routes, catchers) = (router.routes().len(), router.catchers().len());
    write!(out, "routes {routes}, catchers {catchers}")
}
