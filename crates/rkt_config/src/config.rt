ghost use Rattle.std.specs.Prelude.{◌≡◌, ◌≤◌, ◌↔◌, [], IsTrue, IfOk, OnOk, Some, None, codes};
ghost use Rattle.rkt_base.specs.Want.{IfRefused};
ghost use Rattle.rkt_config.specs.Config.{IsConfig, first_bad, unless_empty};

use crate::config_table::ConfigTable;
use crate::limits::Limits;
use crate::numbers::number_without_zeros;
use crate::setting::turns;
use rkt_base::{NoMemory, Text, Want};
use std::alloc::Global;
use thiserror::Error;

/// What a server is set to.
#[derive(Drop)]
pub struct Config {
    /// What `Server` says; empty for none.
    pub ident: Text,
    /// The header from which a client's address is read.
    pub ip_header: Option<Text>,
    pub limits: Limits,
    /// The seconds after a shutdown began in which requests may go on.
    pub grace: u32,
    /// The seconds after these in which connections may close.
    pub mercy: u32,
    /// How often a callback may be polled again.
    pub turns: u32,
}

/// A name whose text is not what the name takes.
#[derive(Debug, Drop, Error)]
#[error("the setting {} does not take the text {:?}", .name.as_str(), .text.as_str())]
pub struct BadConfig {
    pub name: Text,
    pub text: Text,
}

impl Config {
    /// What holds where nothing is set.
    pub fn default(alloc: Global) -> Result<Config, NoMemory>
        ensures config { IfOk result (IsConfig []) }
        ensures some_turns { IfOk result (λ c. 1 ≤ c.turns) }
    {
        Config::read(alloc, &ConfigTable::new(alloc))
    }

    /// Reads a table. A name that is none of the configuration's is let be.
    pub fn from_table(alloc: Global, table: &ConfigTable) -> Result<Config, Want<BadConfig>>
        ensures config { IfOk result (IsConfig table.now) }
        ensures accepted { OnOk result (first_bad table.now ≡ None) }
        ensures some_turns { IfOk result (λ c. 1 ≤ c.turns) }
        ensures refused { IfRefused result (λ bad. first_bad table.now ≡ Some (bad.name, bad.text)) }
    {
        if let Some((name, text)) = table.first_bad() {
            return Err(Want::Refused(BadConfig {
                name: Text::new(alloc, name)?,
                text: Text::new(alloc, text)?,
            }));
        }
        Ok(Config::read(alloc, table)?)
    }

    /// What the texts of a table say, and the default where a text is not what its name takes.
    fn read(alloc: Global, table: &ConfigTable) -> Result<Config, NoMemory>
        ensures config { IfOk result (IsConfig table.now) }
        ensures some_turns { IfOk result (λ c. 1 ≤ c.turns) }
    {
        let ident = table.get("ident").unwrap_or("Rocket");
        let ip_header = table.get("ip_header").unwrap_or("X-Real-IP");
        let grace = table.get("grace").and_then(number_without_zeros);
        let mercy = table.get("mercy").and_then(number_without_zeros);
        let turns = table.get("turns").and_then(turns);
        Ok(Config {
            ident: Text::new(alloc, ident)?,
            ip_header: unless_empty(alloc, ip_header)?,
            limits: table.limits()?,
            grace: grace.unwrap_or(2),
            mercy: mercy.unwrap_or(3),
            turns: turns.unwrap_or(1_048_576),
        })
    }
}

/// A copy of a text, and none of an empty one.
fn unless_empty(alloc: Global, text: &str) -> Result<Option<Text>, NoMemory>
    ensures { IfOk result (λ copy. copy ≡ unless_empty text.now) }
{
    if text.is_empty() {
        return Ok(None);
    }
    Ok(Some(Text::new(alloc, text)?))
}
