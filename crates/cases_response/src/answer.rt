use crate::flash::{flash, flashing};
use crate::made::push_made;
use crate::message::{guard, message, no_cookie};
use crate::shown::Asked;
use crate::streaming::reader_stream;
use crate::texts::{byte_stream, bytes, text, text_stream};
use cases::{Answers, CaseError, first_word, written};
use rkt_base::NoMemory;
use rkt_http::{Method, Origin};
use sample_app::Server;
use std::alloc::Global;

/// What each request is lent.
#[derive(Drop)]
pub struct Program {
    server: Server,
}

impl Program {
    pub fn new(alloc: Global) -> Result<Program, NoMemory> {
        let server = Server::new(alloc)?;
        Ok(Program { server })
    }
}

fn of_flash(
    alloc: Global,
    request: &Asked<'_>,
    command: &str,
    rest: &str,
    out: &mut String,
) -> Result<(), CaseError> {
    match command {
        "flash" => written(flash(alloc, rest, out)),
        "flashing" => flashing(alloc, request, rest, out),
        "guard" => written(guard(alloc, request, rest, out)),
        "no_cookie" => written(no_cookie(alloc, request, out)),
        "message" => written(message(alloc, request, rest, out)),
        _ => push_made(alloc, request, command, rest, out),
    }
}

fn answer_to(
    alloc: Global,
    request: &Asked<'_>,
    command: &str,
    rest: &str,
    out: &mut String,
) -> Result<(), CaseError> {
    match command {
        "text" => text(alloc, request, rest, out),
        "bytes" => bytes(alloc, request, rest, out),
        "byte_stream" => byte_stream(alloc, request, rest, out),
        "text_stream" => text_stream(alloc, request, rest, out),
        _ => of_flash(alloc, request, command, rest, out),
    }
}

fn answer_by(
    alloc: Global,
    server: &Server,
    command: &str,
    rest: &str,
    out: &mut String,
) -> Result<(), CaseError> {
    let uri = Origin::parse(alloc, "/")?;
    let request = server.request(alloc, Method::Get, uri);
    let answered = answer_to(alloc, &request, command, rest, out);
    drop(request);
    answered
}

impl Answers for Program {
    fn answer(&mut self, alloc: Global, line: &str, out: &mut String) -> Result<(), CaseError> {
        let (command, rest) = first_word(line);
        match command {
            "reader_stream" => reader_stream(alloc, &self.server, rest, out),
            _ => answer_by(alloc, &self.server, command, rest, out),
        }
    }
}
