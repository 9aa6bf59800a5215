use crate::built::build;
use crate::change::{change, set_header};
use crate::look::look;
use crate::sending::send;
use crate::shown::{Answer, push_response};
use cases::{Answers, CaseError, first_word, written};
use rkt_base::NoMemory;
use std::alloc::Global;

/// What is kept from line to line.
#[derive(Drop)]
pub struct Kept {
    response: Answer,
    aside: Answer,
}

impl Kept {
    pub fn new(alloc: Global) -> Kept {
        Kept {
            response: Answer::new(alloc),
            aside: Answer::new(alloc),
        }
    }

    /// Puts the response at hand aside, and begins with nothing set.
    fn put_aside(&mut self, alloc: Global) {
        self.aside = std::mem::replace(&mut self.response, Answer::new(alloc));
    }

    /// Takes over what was put aside, which leaves none.
    fn take_over(&mut self, alloc: Global, command: &str) -> Result<(), NoMemory> {
        let other = std::mem::replace(&mut self.aside, Answer::new(alloc));
        match command {
            "merge" => self.response.merge(other),
            _ => self.response.join(other),
        }
    }
}

/// Changes what is kept.
fn change_kept(alloc: Global, kept: &mut Kept, command: &str, rest: &str) -> Result<(), CaseError> {
    match command {
        "new" => kept.response = Answer::new(alloc),
        "aside" => kept.put_aside(alloc),
        "merge" | "join" => kept.take_over(alloc, command)?,
        _ => return change(alloc, &mut kept.response, command, rest),
    }
    Ok(())
}

/// Changes what is kept, and adds the response at hand.
fn changed(
    alloc: Global,
    kept: &mut Kept,
    command: &str,
    rest: &str,
    out: &mut String,
) -> Result<(), CaseError> {
    change_kept(alloc, kept, command, rest)?;
    written(push_response(&kept.response, out))
}

fn built(alloc: Global, kept: &mut Kept, rest: &str, out: &mut String) -> Result<(), CaseError> {
    build(alloc, &mut kept.response, &mut kept.aside, rest)?;
    written(push_response(&kept.response, out))
}

/// Sets a header, and adds whether there was one, and the response.
fn header_set(
    alloc: Global,
    response: &mut Answer,
    command: &str,
    rest: &str,
    out: &mut String,
) -> Result<(), CaseError> {
    let was = set_header(alloc, response, command, rest)?;
    write!(out, "{was:?} ")?;
    written(push_response(response, out))
}

/// Whether a command only looks, or reads.
fn looks(command: &str) -> bool {
    matches!(command, "size" | "kind" | "cookies")
        || matches!(command, "take" | "read" | "bytes" | "text")
}

impl Answers for Kept {
    fn answer(&mut self, alloc: Global, line: &str, out: &mut String) -> Result<(), CaseError> {
        let (command, rest) = first_word(line);
        if looks(command) {
            return look(alloc, &mut self.response, command, rest, out);
        }
        match command {
            "send" => send(alloc, &mut self.response, rest, out),
            "build" => built(alloc, self, rest, out),
            "header" | "raw_header" => header_set(alloc, &mut self.response, command, rest, out),
            _ => changed(alloc, self, command, rest, out),
        }
    }
}
