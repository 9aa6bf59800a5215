ghost use Rattle.std.specs.Prelude.{◌≡◌, [], IfOk, OnOk, OnErr};
ghost use Rattle.std.specs.Option.{option_copied, option_map};
ghost use Rattle.std.specs.Str.{bytes_eq};
ghost use Rattle.indexmap.specs.IndexMap.{insert_entry};
ghost use Rattle.rkt_config.specs.ConfigTable.{text_of};
ghost use Rattle.rkt_config.specs.Config.{first_bad, limits_in, with_entry};

use crate::limits::Limits;
use crate::numbers::number;
use crate::setting::{fits, limit_name};
use indexmap::IndexMap;
use rkt_base::NoMemory;
use rkt_data::ByteUnit;
use std::alloc::Global;
use std::marker::Model;

/// Names with a text each, in the order in which the names were first set.
#[derive(Drop)]
pub struct ConfigTable {
    alloc: Global,
    entries: IndexMap<String, String>,
}

impl Model for ConfigTable {
    ghost use Rattle.std.specs.Prelude.{List, ℕ, map, string_bytes};

    ghost Value = { List (List ℕ × List ℕ) };

    ghost view = { λ t. map (λ e. (string_bytes e.0, string_bytes e.1)) t.entries.entries };
}

impl ConfigTable {
    /// A table without entries.
    pub fn new(alloc: Global) -> ConfigTable
        ensures { result ≡ [] }
    {
        ConfigTable {
            alloc,
            entries: IndexMap::new(alloc),
        }
    }

    /// The text that the name was last set to.
    pub fn get(&self, name: &str) -> Option<&str>
        ensures { option_copied result ≡ text_of name.now self.now }
    {
        match self.entries.get(name) {
            Some(text) => Some(text.as_str()),
            None => None,
        }
    }

    /// Gives the name a text. A name that has one keeps its place.
    pub fn set(&mut self, name: &str, text: &str) -> Result<(), NoMemory>
        ensures ok { OnOk result (self.new ≡ insert_entry bytes_eq self.old name.now text.now) }
        ensures err { OnErr result (self.new ≡ self.old) }
    {
        let name = String::from_str(self.alloc, name)?;
        let text = String::from_str(self.alloc, text)?;
        self.entries.insert(name, text)?;
        Ok(())
    }

    /// The first entry whose text is not what its name takes.
    pub(crate) fn first_bad(&self) -> Option<(&str, &str)>
        ensures { option_map (λ entry. (entry.0.now, entry.1.now)) result ≡ first_bad self.now }
    {
        for (name, text) in &self.entries {
            let name = name.as_str();
            let text = text.as_str();
            if !fits(name, text) {
                return Some((name, text));
            }
        }
        None
    }

    /// The default limits with those that the entries set.
    pub(crate) fn limits(&self) -> Result<Limits, NoMemory>
        ensures { IfOk result (λ l. l ≡ limits_in self.now) }
    {
        let mut limits = Limits::default(self.alloc)?;
        for (name, text) in &self.entries {
            limits = with_entry(limits, name.as_str(), text.as_str())?;
        }
        Ok(limits)
    }
}

/// The limits with that of an entry, where it sets one.
fn with_entry(limits: Limits, name: &str, text: &str) -> Result<Limits, NoMemory>
    ensures { IfOk result (λ l. l ≡ with_entry limits (name.now, text.now)) }
{
    let Some(name) = limit_name(name) else {
        return Ok(limits);
    };
    let Some(bytes) = number(text) else {
        return Ok(limits);
    };
    limits.limit(name, ByteUnit(bytes))
}
