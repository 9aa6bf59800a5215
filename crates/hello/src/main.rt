//! A site: two pages, a catcher, a managed greeting, a cookie, and a header on each response.
#![tactic(auto)]

use rkt_lines::*;

type Site = Simple<Page, Missing, AddsHeader, &'static str>;

/// Where the greeting is managed.
const GREETING: Key = Key(1);

/// What answers the routes.
#[derive(Drop)]
enum Page {
    Index,
    Hello,
}

impl AnswersWith<Site> for Page {
    type Value = PlainText;

    fn answer(&self, alloc: Global, request: &Request<'_, Site>, ctx: &mut Ctx<Site>) -> Answered {
        match self {
            Page::Index => {
                ctx.cookies_mut().add(Cookie::new(alloc, "seen", "1")?)?;
                Ok(PlainText(String::from_str(alloc, "Try /hello/you.")?))
            }
            Page::Hello => {
                let greeting = request.managed().get(GREETING).copied().unwrap_or("");
                let name = request.routed_segment(1).unwrap_or("");
                Ok(PlainText(format!(in alloc; "{greeting}, {name}!")?))
            }
        }
    }
}

/// The page for 404.
#[derive(Drop)]
struct Missing;

impl Catches<Site> for Missing {
    type Value = (Status, PlainText);

    fn catch(&self, alloc: Global, status: Status, request: &Request<'_, Site>) -> Caught {
        let text = format!(in alloc; "Nothing is at {}.", request.uri().as_str())?;
        Ok((status, PlainText(text)))
    }
}

fn rocket(alloc: Global) -> Result<Rocket<Build, Site>, BuildError> {
    Rocket::<Build, Site>::build(alloc)?
        .fairing(AdHoc::on_response("stamp", Key(2), AddsHeader("X-Made-With", "Hagluvei")))?
        .manage(GREETING, "Hello")?
        .route(alloc, Method::Get, "/", Page::Index)?
        .route(alloc, Method::Get, "/hello/<name>", Page::Hello)?
        .catcher(alloc, Some(404), Missing)
}

fn main(rt: HostRuntime) -> io::Result<()> {
    serve_lines(&rt, rocket(rt.alloc()))
}
