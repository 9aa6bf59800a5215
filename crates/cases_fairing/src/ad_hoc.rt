//! Ad hoc changes of a rocket's life.
use crate::named::Named;
use crate::site::{Site, Sorry, Stopped};
use cases::{CaseError, first_word, parsed, written};
use rkt_adhoc::{
    AdHoc, ChangesBuilding, OnIgnite, OnLiftoff, OnShutdown, SeesLiftoff, SeesShutdown,
    TriesBuilding, TryOnIgnite,
};
use rkt_answers::Answering;
use rkt_base::NoMemory;
use rkt_fairing::{Attach, Building, BuildingOf, Callback, Slot, View, ViewOf};
use rkt_http::Key;
use rkt_request::{Config, ConfigTable, Managed};
use rkt_router::{Dummy, Router, Step};
use rkt_turn::{Shutdown, TripWire};
use std::alloc::{AllocError, Global};

/// What comes of a change once it was made.
#[derive(Clone, Copy, Drop)]
enum Comes {
    Done,
    Refused,
    Starved,
}

impl Comes {
    // Where it may not be refused.
    fn made(self) -> Result<(), NoMemory> {
        match self {
            Comes::Starved => Err(AllocError),
            _ => Ok(()),
        }
    }

    fn tried(self) -> Result<Result<(), ()>, NoMemory> {
        match self {
            Comes::Done => Ok(Ok(())),
            Comes::Refused => Ok(Err(())),
            Comes::Starved => Err(AllocError),
        }
    }
}

// It attaches a fairing that is called for requests.
impl ChangesBuilding<Site, Named> for Comes {
    fn on_ignite(
        &mut self,
        _alloc: Global,
        building: &mut Building<Site, Named>,
    ) -> Result<(), NoMemory> {
        building.attach(Slot::App(Named::for_requests()))?;
        self.made()
    }
}

impl TriesBuilding<Site, Named> for Comes {
    fn try_on_ignite(
        &mut self,
        _alloc: Global,
        building: &mut Building<Site, Named>,
    ) -> Result<Result<(), ()>, NoMemory> {
        building.attach(Slot::App(Named::for_requests()))?;
        self.tried()
    }
}

// It notifies a shutdown.
impl SeesLiftoff<Site> for Comes {
    fn on_liftoff(
        &mut self,
        _alloc: Global,
        _view: &View<'_, Site>,
        shutdown: &mut Shutdown<Stopped>,
    ) -> Result<(), NoMemory> {
        shutdown.notify(Stopped);
        self.made()
    }
}

impl SeesShutdown<Site> for Comes {
    fn on_shutdown(&self, _alloc: Global, _view: &View<'_, Site>) -> Result<(), NoMemory> {
        self.made()
    }
}

fn read_comes(text: &str) -> Result<Comes, CaseError> {
    match text {
        "done" => Ok(Comes::Done),
        "refused" => Ok(Comes::Refused),
        "starved" => Ok(Comes::Starved),
        _ => Err(CaseError::Line),
    }
}

fn push_step(out: &mut String, step: Step<()>) -> Result<(), NoMemory> {
    match step {
        Step::Done(()) => out.push_str("done "),
        Step::Starved => out.push_str("starved "),
        Step::Pending | Step::Fault => out.push_str("? "),
    }
}

fn push_tried(out: &mut String, step: Step<Result<(), ()>>) -> Result<(), NoMemory> {
    match step {
        Step::Done(Ok(())) => out.push_str("done "),
        Step::Done(Err(())) => out.push_str("refused "),
        Step::Starved => out.push_str("starved "),
        Step::Pending | Step::Fault => out.push_str("? "),
    }
}

type SiteBuilding = Building<Site, Named>;

fn new_building(alloc: Global) -> SiteBuilding {
    BuildingOf::new(alloc, ConfigTable::new(alloc))
}

/// Adds what a fairing tells.
fn push_info<F: Attach>(out: &mut String, fairing: &F) -> Result<(), NoMemory> {
    let info = fairing.info();
    write!(out, "{} {} {}: ", info.name, fairing.key().0, info.kind)
}

/// Adds how many fairings were attached.
fn push_attached(out: &mut String, building: &SiteBuilding) -> Result<(), NoMemory> {
    write!(out, "{}", building.fairings.count(Callback::Request))
}

fn push_ignited(
    alloc: Global,
    ad_hoc: &mut OnIgnite<Comes>,
    calls: usize,
    building: &mut SiteBuilding,
    out: &mut String,
) -> Result<(), NoMemory> {
    push_info(out, ad_hoc)?;
    for _ in 0..calls {
        push_tried(out, ad_hoc.run::<Site, Named>(alloc, building))?;
    }
    push_attached(out, building)
}

fn push_tries(
    alloc: Global,
    ad_hoc: &mut TryOnIgnite<Comes>,
    calls: usize,
    building: &mut SiteBuilding,
    out: &mut String,
) -> Result<(), NoMemory> {
    push_info(out, ad_hoc)?;
    for _ in 0..calls {
        push_tried(out, ad_hoc.run::<Site, Named>(alloc, building))?;
    }
    push_attached(out, building)
}

/// A rocket in orbit, as fairings see it.
#[derive(Drop)]
pub struct Orbit {
    pub config: Config,
    pub managed: Managed<u32>,
    router: Router<Dummy, Answering<Sorry>, ()>,
}

impl Orbit {
    pub fn new(alloc: Global) -> Result<Orbit, NoMemory> {
        Ok(Orbit {
            config: Config::default(alloc)?,
            managed: Managed::new(alloc),
            router: Router::new(alloc),
        })
    }

    fn view(&self) -> View<'_, Site> {
        ViewOf {
            config: &self.config,
            managed: &self.managed,
            router: &self.router,
        }
    }
}

/// A handle of a wire that nothing has tripped.
pub fn handle(alloc: Global) -> Result<Shutdown<Stopped>, NoMemory> {
    let (_wire, shutdown) = TripWire::<Stopped>::new(alloc)?;
    Ok(shutdown)
}

fn push_notified(
    alloc: Global,
    ad_hoc: &mut OnLiftoff<Comes>,
    calls: usize,
    view: &View<'_, Site>,
    shutdown: &mut Shutdown<Stopped>,
    out: &mut String,
) -> Result<(), NoMemory> {
    push_info(out, ad_hoc)?;
    for _ in 0..calls {
        push_step(out, ad_hoc.run::<Site>(alloc, view, shutdown))?;
    }
    write!(out, "{}", shutdown.seen())
}

fn push_liftoffs_in(
    alloc: Global,
    ad_hoc: &mut OnLiftoff<Comes>,
    calls: usize,
    view: &View<'_, Site>,
    out: &mut String,
) -> Result<(), NoMemory> {
    let mut shutdown = handle(alloc)?;
    push_notified(alloc, ad_hoc, calls, view, &mut shutdown, out)
}

fn push_liftoffs(
    alloc: Global,
    ad_hoc: &mut OnLiftoff<Comes>,
    calls: usize,
    out: &mut String,
) -> Result<(), NoMemory> {
    let orbit = Orbit::new(alloc)?;
    push_liftoffs_in(alloc, ad_hoc, calls, &orbit.view(), out)
}

fn push_shutdowns_in(
    alloc: Global,
    ad_hoc: &OnShutdown<Comes>,
    calls: usize,
    view: &View<'_, Site>,
    out: &mut String,
) -> Result<(), NoMemory> {
    push_info(out, ad_hoc)?;
    for _ in 0..calls {
        push_step(out, ad_hoc.run::<Site>(alloc, view))?;
    }
    Ok(())
}

fn push_shutdowns(
    alloc: Global,
    ad_hoc: &OnShutdown<Comes>,
    calls: usize,
    out: &mut String,
) -> Result<(), NoMemory> {
    let orbit = Orbit::new(alloc)?;
    push_shutdowns_in(alloc, ad_hoc, calls, &orbit.view(), out)
}

/// Adds what an ad hoc fairing tells, and what its calls answer.
pub fn ad_hoc_answer(alloc: Global, text: &str, out: &mut String) -> Result<(), CaseError> {
    let (kind, rest) = first_word(text);
    let (comes, calls) = first_word(rest);
    let (comes, calls) = (read_comes(comes)?, parsed::<usize>(calls)?);
    match kind {
        "ignite" => ignite_answer(alloc, comes, calls, out),
        "try" => try_answer(alloc, comes, calls, out),
        "liftoff" => liftoff_answer(alloc, comes, calls, out),
        "shutdown" => shutdown_answer(alloc, comes, calls, out),
        _ => Err(CaseError::Line),
    }
}

fn ignite_answer(
    alloc: Global,
    comes: Comes,
    calls: usize,
    out: &mut String,
) -> Result<(), CaseError> {
    let mut ad_hoc = AdHoc::on_ignite("ada", Key(1), comes);
    let mut building = new_building(alloc);
    written(push_ignited(alloc, &mut ad_hoc, calls, &mut building, out))
}

fn try_answer(
    alloc: Global,
    comes: Comes,
    calls: usize,
    out: &mut String,
) -> Result<(), CaseError> {
    let mut ad_hoc = AdHoc::try_on_ignite("bob", Key(2), comes);
    let mut building = new_building(alloc);
    written(push_tries(alloc, &mut ad_hoc, calls, &mut building, out))
}

fn liftoff_answer(
    alloc: Global,
    comes: Comes,
    calls: usize,
    out: &mut String,
) -> Result<(), CaseError> {
    let mut ad_hoc = AdHoc::on_liftoff("cy", Key(3), comes);
    written(push_liftoffs(alloc, &mut ad_hoc, calls, out))
}

fn shutdown_answer(
    alloc: Global,
    comes: Comes,
    calls: usize,
    out: &mut String,
) -> Result<(), CaseError> {
    let ad_hoc = AdHoc::on_shutdown("dan", Key(4), comes);
    written(push_shutdowns(alloc, &ad_hoc, calls, out))
}
