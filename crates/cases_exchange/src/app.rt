//! The application that is asked, by its types, and what its exchanges go by.
use crate::changer::Changer;
use crate::owned::kept;
use crate::page::Page;
use crate::routes::{CATCHERS, CatcherRow, ROUTES, RouteRow};
use crate::source::Paused;
use cases::CaseError;
use rkt_base::Want;
use rkt_data::MemorySource;
use rkt_exchange::{Tables, TablesOf};
use rkt_fairing::{App, Fairings, Parts};
use rkt_http::InvalidUri;
use rkt_request::{Config, Managed, Types};
use rkt_router::{Base, Catcher, Catching, Route, Router};
use sample_app::Stopped;
use std::alloc::Global;

/// The application, by its types.
pub struct Site;

impl Types for Site {
    type Source = Paused;

    type Stream = MemorySource;

    type Cached = u8;

    type Value = u8;

    type Reason = Stopped;
}

impl Parts for Site {
    type Handler = Page;

    type Catch = Page;

    type Sentinel = u8;
}

impl App for Site {
    type Fairing = Changer;
}

type SiteRouter = Router<Page, Page, u8>;

type SiteRoute = Route<Page, u8>;

/// The route of a row, moved below its base.
fn made_route(alloc: Global, row: &RouteRow) -> Result<SiteRoute, Want<InvalidUri>> {
    let (method, base, path, rank, page) = *row;
    let route = SiteRoute::ranked(alloc, rank, method, path, page)?;
    route.map_base(alloc, move |_base| String::from_str(alloc, base))
}

fn mount(alloc: Global, router: &mut SiteRouter, row: &RouteRow) -> Result<(), CaseError> {
    let route = made_route(alloc, row)?;
    Ok(router.add_route(route)?)
}

/// The default pages, where a catcher has none of its own.
fn handler_of(page: Option<Page>) -> Catching<Page> {
    match page {
        Some(page) => Catching::App(page),
        None => Catching::Rocket,
    }
}

fn register(alloc: Global, router: &mut SiteRouter, row: &CatcherRow) -> Result<(), CaseError> {
    let (base, code, page) = *row;
    let base = Base::parse(alloc, base)?;
    let catcher = Catcher {
        name: None,
        base,
        code,
        handler: handler_of(page),
    };
    Ok(router.add_catcher(catcher)?)
}

fn mount_all(alloc: Global, router: &mut SiteRouter) -> Result<(), CaseError> {
    for row in ROUTES.iter() {
        mount(alloc, router, row)?;
    }
    Ok(())
}

fn register_all(alloc: Global, router: &mut SiteRouter) -> Result<(), CaseError> {
    for row in CATCHERS.iter() {
        register(alloc, router, row)?;
    }
    Ok(())
}

fn fill(alloc: Global, router: &mut SiteRouter) -> Result<(), CaseError> {
    mount_all(alloc, router)?;
    register_all(alloc, router)
}

fn made_router(alloc: Global) -> Result<SiteRouter, CaseError> {
    let mut router = SiteRouter::new(alloc);
    let filled = fill(alloc, &mut router);
    kept(router, filled)
}

fn tables_of(alloc: Global, router: SiteRouter, config: Config) -> Tables<Site> {
    TablesOf {
        router,
        fairings: Fairings::new(alloc),
        config,
        managed: Managed::new(alloc),
    }
}

/// All routes and catchers, no fairings, the default configuration, and nothing managed.
pub fn made_tables(alloc: Global) -> Result<Tables<Site>, CaseError> {
    let router = made_router(alloc)?;
    match Config::default(alloc) {
        Ok(config) => Ok(tables_of(alloc, router, config)),
        Err(_) => {
            drop(router);
            Err(CaseError::NoMemory)
        }
    }
}
