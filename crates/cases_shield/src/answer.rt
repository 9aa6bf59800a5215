use crate::features::push_features;
use crate::map::map_answer;
use crate::permission::{get_answer, rules_answer, same_answer};
use crate::policy::header_answer;
use crate::shield::shield_answer;
use cases::{Answers, CaseError, first_word};
use rkt_http::HeaderMap;
use rkt_shield::Shield;
use std::alloc::Global;

/// What is kept from line to line.
#[derive(Drop)]
pub struct Kept {
    shield: Shield,
    map: HeaderMap,
}

impl Kept {
    pub fn new(alloc: Global) -> Kept {
        Kept {
            shield: Shield::new(alloc),
            map: HeaderMap::new(alloc),
        }
    }
}

/// Adds the answer to a line that asks nothing of what is kept.
fn policy_answer(
    alloc: Global,
    command: &str,
    rest: &str,
    out: &mut String,
) -> Result<(), CaseError> {
    match command {
        "header" => header_answer(alloc, rest, out),
        "features" => push_features(out),
        "get" => get_answer(alloc, rest, out),
        "rules" => rules_answer(alloc, rest, out),
        "same" => same_answer(alloc, rest, out),
        _ => Err(CaseError::Line),
    }
}

/// What stands where nothing is to be shown.
fn or_none(out: &mut String) -> Result<(), CaseError> {
    if out.is_empty() {
        out.push_str("none")?;
    }
    Ok(())
}

impl Answers for Kept {
    fn answer(&mut self, alloc: Global, line: &str, out: &mut String) -> Result<(), CaseError> {
        let (command, rest) = first_word(line);
        match command {
            "shield" => shield_answer(alloc, &mut self.shield, rest, out)?,
            "map" => map_answer(alloc, &mut self.map, &self.shield, rest, out)?,
            _ => policy_answer(alloc, command, rest, out)?,
        }
        or_none(out)
    }
}
