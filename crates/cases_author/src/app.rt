//! The application as a whole: pages of two kinds, a catcher beside default pages, and a fairing.
use crate::author::Site;
use crate::callbacks::{Notes, Places, Visits};
use cases::{CaseError, written};
use rkt_base::NoMemory;
use rkt_data::MemorySource;
use rkt_http::Method;
use rkt_life::{
    AdHoc, AnsweringData, AnsweringWith, App, Build, BuildError, Catcher, ChangesResponse, Ctx,
    DefaultCatcher, Key, OnResponse, OneOf, Parts, Request, Response, Rocket, Route, Slot,
};
use std::alloc::Global;

type Page = OneOf<AnsweringWith<Visits>, AnsweringData<Places>>;

impl Parts for Site {
    type Handler = Page;

    type Catch = OneOf<AnsweringWith<Notes>, DefaultCatcher>;

    type Sentinel = ();
}

impl App for Site {
    type Fairing = OnResponse<Stamps>;
}

/// Puts a stamp on each response.
#[derive(Drop)]
pub struct Stamps;

impl ChangesResponse<Site> for Stamps {
    fn on_response(
        &self,
        _alloc: Global,
        _request: &Request<'_, Site>,
        response: &mut Response<MemorySource>,
        _ctx: &mut Ctx<Site>,
    ) -> Result<(), NoMemory> {
        response.adjoin_raw_header("X-Stamp", "1")
    }
}

/// The page that reads a body, as one of the application's pages.
pub fn places() -> Page {
    OneOf::Second(AnsweringData(Places))
}

fn routes(alloc: Global) -> Result<Vec<Route<Page, ()>>, BuildError> {
    let visits = OneOf::First(AnsweringWith(Visits));
    let visits = Route::new(alloc, Method::Get, "/", visits)?;
    let places = Route::new(alloc, Method::Post, "/places", places())?;
    Ok(vec![in alloc; visits, places]?)
}

/// The application's rocket.
pub fn rocket(alloc: Global) -> Result<Rocket<Build, Site>, BuildError> {
    let routes = routes(alloc)?;
    let notes = Catcher::new(alloc, Some(404), OneOf::First(AnsweringWith(Notes)))?;
    let stamps = AdHoc::on_response("stamps", Key(2), Stamps);
    Ok(
        Rocket::<Build, Site>::build(alloc)?
            .mount(alloc, "/", routes)?
            .register(alloc, "/", vec![in alloc; notes]?)?
            .attach(Slot::App(stamps))?,
    )
}

fn push_counts(out: &mut String, rocket: &Rocket<Build, Site>) -> Result<(), CaseError> {
    let (routes, catchers) = (rocket.routes().len(), rocket.catchers().len());
    written(write!(out, "routes {routes}, catchers {catchers}"))
}

/// Adds how many routes and catchers the rocket has, or why there is none.
pub fn push_rocket(alloc: Global, out: &mut String) -> Result<(), CaseError> {
    match rocket(alloc) {
        Ok(rocket) => push_counts(out, &rocket),
        Err(error) => written(write!(out, "{error}")),
    }
}
