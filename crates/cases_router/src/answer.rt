use crate::asked::{answer_question, finalize};
use crate::catchers::register;
use crate::routes::{SampleRouter, mount, numbered, push_counts};
use crate::sentinels::push_abort;
use crate::uris::{media, segment, uri};
use cases::{Answers, CaseError, first_word, parsed, written};
use rkt_base::NoMemory;
use sample_app::Server;
use std::alloc::Global;

/// The router that is kept from line to line, and what each request is lent.
#[derive(Drop)]
pub struct Program {
    router: SampleRouter,
    server: Server,
}

impl Program {
    pub fn new(alloc: Global) -> Result<Program, NoMemory> {
        let server = Server::new(alloc)?;
        Ok(Program {
            router: SampleRouter::new(alloc),
            server,
        })
    }
}

/// Whether a command makes a route.
fn makes_route(command: &str) -> bool {
    matches!(command, "route" | "ranked" | "static" | "below" | "format")
}

/// Whether a command makes a catcher.
fn makes_catcher(command: &str) -> bool {
    matches!(command, "catcher" | "static_catcher" | "catcher_at")
        || matches!(command, "default_catcher" | "default_below")
}

fn empty(alloc: Global, router: &mut SampleRouter, out: &mut String) -> Result<(), NoMemory> {
    *router = SampleRouter::new(alloc);
    push_counts(router, out)
}

fn fill(
    alloc: Global,
    router: &mut SampleRouter,
    count: &str,
    out: &mut String,
) -> Result<(), CaseError> {
    numbered(alloc, router, parsed::<u16>(count)?)?;
    written(push_counts(router, out))
}

fn answer_asked(
    alloc: Global,
    program: &mut Program,
    command: &str,
    rest: &str,
    out: &mut String,
) -> Result<(), CaseError> {
    match command {
        "new" => written(empty(alloc, &mut program.router, out)),
        "numbered" => fill(alloc, &mut program.router, rest, out),
        "finalize" => finalize(alloc, &program.router, out),
        _ => answer_question(
            alloc,
            &program.server,
            &program.router,
            (command, rest),
            out,
        ),
    }
}

fn answer_read(
    alloc: Global,
    program: &mut Program,
    command: &str,
    rest: &str,
    out: &mut String,
) -> Result<(), CaseError> {
    match command {
        "segment" => written(segment(alloc, rest, out)),
        "uri" => uri(alloc, rest, out),
        "media" => media(alloc, rest, out),
        "sentinel" => push_abort(alloc, &program.server.config, rest, out),
        _ => answer_asked(alloc, program, command, rest, out),
    }
}

impl Answers for Program {
    fn answer(&mut self, alloc: Global, line: &str, out: &mut String) -> Result<(), CaseError> {
        let (command, rest) = first_word(line);
        if makes_route(command) {
            return mount(alloc, &mut self.router, command, rest, out);
        }
        if makes_catcher(command) {
            return register(alloc, &mut self.router, command, rest, out);
        }
        answer_read(alloc, self, command, rest, out)
    }
}
