use crate::configs::{push_config, push_table};
use crate::limits::push_limits;
use crate::managed::{push_managed, push_state};
use cases::{Answers, CaseError, first_word};
use rkt_config::{ConfigTable, Limits, Managed};
use std::alloc::Global;

/// What is kept from line to line.
#[derive(Drop)]
pub struct Kept {
    limits: Limits,
    table: ConfigTable,
    managed: Managed<u64>,
}

impl Kept {
    /// Nothing that is set.
    pub fn new(alloc: Global) -> Kept {
        Kept {
            limits: Limits::new(alloc),
            table: ConfigTable::new(alloc),
            managed: Managed::new(alloc),
        }
    }
}

impl Answers for Kept {
    fn answer(&mut self, alloc: Global, line: &str, out: &mut String) -> Result<(), CaseError> {
        let (command, rest) = first_word(line);
        match command {
            "limits" => push_limits(alloc, &mut self.limits, rest, out),
            "table" => push_table(alloc, &mut self.table, rest, out),
            "config" => push_config(alloc, &self.table, rest, out),
            "managed" => push_managed(alloc, &mut self.managed, rest, out),
            "state" => push_state(&self.managed, rest, out),
            _ => Err(CaseError::Line),
        }
    }
}
