//! Catchers that are made, shown and registered.
use crate::refusal::{push_bad_code, push_misplaced};
use crate::routes::SampleRouter;
use crate::words::parsed_or_any;
use cases::{CaseError, first_word, written};
use rkt_base::{NoMemory, Want};
use rkt_http::InvalidUri;
use rkt_router::catcher::StaticInfo;
use rkt_router::{BadCode, Base, Catcher, Catching};
use std::alloc::Global;

type SampleCatcher = Catcher<u8>;

fn push_handler(handler: Catching<u8>, out: &mut String) -> Result<(), NoMemory> {
    match handler {
        Catching::Rocket => out.push_str(" default pages"),
        Catching::App(number) => write!(out, " handler={number}"),
    }
}

fn push_catcher(catcher: &SampleCatcher, out: &mut String) -> Result<(), NoMemory> {
    let name = catcher.name.as_ref().map_or("none", |name| name.as_str());
    let (base, code) = (catcher.base.origin().as_str(), catcher.code);
    write!(out, "{base} code={code:?} name={name}")?;
    push_handler(catcher.handler, out)
}

/// Shows a catcher, and registers it.
fn register_catcher(
    router: &mut SampleRouter,
    catcher: SampleCatcher,
    out: &mut String,
) -> Result<(), NoMemory> {
    let shown = push_catcher(&catcher, out);
    router.add_catcher(catcher)?;
    shown
}

/// The same of one that is made of a code.
fn register_coded(
    router: &mut SampleRouter,
    made: Result<SampleCatcher, Want<BadCode>>,
    out: &mut String,
) -> Result<(), CaseError> {
    match made {
        Ok(catcher) => written(register_catcher(router, catcher, out)),
        Err(error) => push_bad_code(error, out),
    }
}

/// The same of one that is put at a base.
fn register_placed(
    router: &mut SampleRouter,
    made: Result<SampleCatcher, Want<InvalidUri>>,
    out: &mut String,
) -> Result<(), CaseError> {
    match made {
        Ok(catcher) => written(register_catcher(router, catcher, out)),
        Err(error) => push_misplaced(error, out),
    }
}

fn new_catcher(
    alloc: Global,
    router: &mut SampleRouter,
    code: &str,
    out: &mut String,
) -> Result<(), CaseError> {
    let code = parsed_or_any::<u16>(code)?;
    register_coded(router, Catcher::new(alloc, code, 7), out)
}

fn described(
    alloc: Global,
    router: &mut SampleRouter,
    code: &str,
    out: &mut String,
) -> Result<(), CaseError> {
    let info = StaticInfo {
        name: "static",
        code: parsed_or_any::<u16>(code)?,
        handler: 9,
    };
    register_coded(router, Catcher::from_info(alloc, info), out)
}

fn default(alloc: Global, router: &mut SampleRouter, out: &mut String) -> Result<(), NoMemory> {
    let catcher = Catcher::default(alloc)?;
    register_catcher(router, catcher, out)
}

/// The default catcher below the base that is put before its own.
fn default_below(
    alloc: Global,
    router: &mut SampleRouter,
    front: &str,
    out: &mut String,
) -> Result<(), CaseError> {
    let catcher: SampleCatcher = Catcher::default(alloc)?;
    let moved = catcher.map_base(
        alloc,
        move |base| format!(in alloc; "{front}{}", base.as_str()),
    );
    register_placed(router, moved, out)
}

fn placed(
    code: Option<u16>,
    base: Result<Base, Want<InvalidUri>>,
) -> Result<SampleCatcher, Want<InvalidUri>> {
    match base {
        Ok(base) => Ok(Catcher {
            name: None,
            code,
            handler: Catching::App(7),
            base,
        }),
        Err(error) => Err(error),
    }
}

fn at_base(
    alloc: Global,
    router: &mut SampleRouter,
    line: &str,
    out: &mut String,
) -> Result<(), CaseError> {
    let (base, code) = first_word(line);
    let code = parsed_or_any::<u16>(code)?;
    register_placed(router, placed(code, Base::parse(alloc, base)), out)
}

/// Makes the catcher that a line says, shows it, and registers it.
pub fn register(
    alloc: Global,
    router: &mut SampleRouter,
    command: &str,
    rest: &str,
    out: &mut String,
) -> Result<(), CaseError> {
    match command {
        "catcher" => new_catcher(alloc, router, rest, out),
        "static_catcher" => described(alloc, router, rest, out),
        "default_catcher" => written(default(alloc, router, out)),
        "default_below" => default_below(alloc, router, rest, out),
        _ => at_base(alloc, router, rest, out),
    }
}
