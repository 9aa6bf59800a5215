use crate::app::{Site, made_tables};
use crate::asked::read_asked;
use crate::exchanged::answer;
use crate::told::{finalize, push_catcher, push_route, set_config, set_fairings};
use cases::{Answers, CaseError, first_word};
use rkt_exchange::Tables;
use std::alloc::Global;

/// What each exchange goes by.
#[derive(Drop)]
pub struct Program {
    tables: Tables<Site>,
}

impl Program {
    pub fn new(alloc: Global) -> Result<Program, CaseError> {
        Ok(Program {
            tables: made_tables(alloc)?,
        })
    }
}

/// Whether a word is a request's method, perhaps none that there is.
fn is_method(word: &str) -> bool {
    !word.is_empty() && word.bytes().all(|byte| byte.is_ascii_uppercase())
}

fn answer_request(
    alloc: Global,
    tables: &Tables<Site>,
    line: &str,
    out: &mut String,
) -> Result<(), CaseError> {
    let (word, _) = first_word(line);
    if !is_method(word) {
        return Err(CaseError::Line);
    }
    let asked = read_asked(alloc, line)?;
    answer(alloc, tables, asked, out)
}

fn answer_told(
    alloc: Global,
    tables: &Tables<Site>,
    line: &str,
    out: &mut String,
) -> Result<(), CaseError> {
    let (word, rest) = first_word(line);
    match word {
        "route" => push_route(tables, rest, out),
        "catcher" => push_catcher(tables, rest, out),
        "finalize" => finalize(alloc, tables, out),
        _ => answer_request(alloc, tables, line, out),
    }
}

impl Answers for Program {
    fn answer(&mut self, alloc: Global, line: &str, out: &mut String) -> Result<(), CaseError> {
        match first_word(line) {
            ("config", text) => set_config(alloc, &mut self.tables, text, out),
            ("fairings", text) => set_fairings(alloc, &mut self.tables, text, out),
            _ => answer_told(alloc, &self.tables, line, out),
        }
    }
}
