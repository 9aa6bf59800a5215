ghost use Rattle.std.specs.Prelude.{◌≡◌, ◌≢◌, [], ◌↔◌, IsTrue, IfOk, None, Some, map, string_bytes};
ghost use Rattle.std.specs.Char.{to_ascii_lowercase};
ghost use Rattle.std.specs.Ordering.{nat_cmp};
ghost use Rattle.std.specs.Cmp.Lexicographic.{slice_cmp};
ghost use Rattle.std.specs.BTreeMap.{insert_entry};
ghost use Rattle.std.specs.List.{join_with_byte};
ghost use Rattle.std.specs.Fmt.{DisplaysOnOk};
ghost use Rattle.rkt_grammar.specs.Bytes.{slash};
ghost use Rattle.rkt_config.specs.Limits.{IsLimitOf, default_limits, limit_text, limits_text};
ghost use Rattle.rkt_config.specs.Joined.{bytes_of};

use crate::joined::Joined;
use rkt_base::NoMemory;
use rkt_data::ByteUnit;
use std::alloc::Global;
use std::collections::BTreeMap;
use std::fmt;
use std::marker::Model;

/// How many bytes may be read, by names in layers that are parted by `/`. A name's case does not count.
#[derive(Drop)]
pub struct Limits {
    alloc: Global,
    limits: BTreeMap<String, ByteUnit>,
}

impl Model for Limits {
    ghost use Rattle.std.specs.Prelude.{List, ℕ, map, string_bytes};
    ghost use Rattle.rkt_data.specs.declared.data_stream.ByteUnit.{ByteUnit};

    ghost Value = { List (List ℕ × ByteUnit) };

    ghost view = { λ l. map (λ e. (string_bytes e.0, e.1)) l.limits.entries };
}

impl Limits {
    // What holds where none of these names is set.
    pub const FORM: ByteUnit = ByteUnit(32_768);

    pub const DATA_FORM: ByteUnit = ByteUnit(2_097_152);

    pub const FILE: ByteUnit = ByteUnit(1_048_576);

    pub const STRING: ByteUnit = ByteUnit(8_192);

    pub const BYTES: ByteUnit = ByteUnit(8_192);

    pub const JSON: ByteUnit = ByteUnit(1_048_576);

    pub const MESSAGE_PACK: ByteUnit = ByteUnit(1_048_576);

    /// No limits.
    pub fn new(alloc: Global) -> Limits
        ensures { result ≡ [] }
    {
        Limits {
            alloc,
            limits: BTreeMap::new(alloc),
        }
    }

    /// A copy.
    pub fn try_clone(&self) -> Result<Limits, NoMemory>
        ensures { IfOk result (λ l. l ≡ self.now) }
    {
        Ok(Limits {
            alloc: self.alloc,
            limits: self.limits.clone()?,
        })
    }

    /// The limits of what Rocket itself reads.
    pub fn default(alloc: Global) -> Result<Limits, NoMemory>
        ensures { IfOk result (λ l. l ≡ default_limits) }
    {
        Limits::new(alloc)
            .limit("form", Limits::FORM)?
            .limit("data-form", Limits::DATA_FORM)?
            .limit("file", Limits::FILE)?
            .limit("string", Limits::STRING)?
            .limit("bytes", Limits::BYTES)?
            .limit("json", Limits::JSON)?
            .limit("msgpack", Limits::MESSAGE_PACK)
    }

    /// Sets the limit of a name, in place of one that it has.
    pub fn limit(mut self, name: &str, limit: ByteUnit) -> Result<Limits, NoMemory>
        ensures { IfOk result (λ l. l ≡ insert_entry (slice_cmp nat_cmp) self (map to_ascii_lowercase name.now) limit) }
    {
        let name = name.to_ascii_lowercase(self.alloc)?;
        self.limits.insert(name, limit)?;
        Ok(self)
    }

    /// The limit of a name, or else that of the name without its last layer, and so on.
    pub fn get(&self, name: &str) -> Option<ByteUnit>
        ensures { IsLimitOf self.now (map to_ascii_lowercase name.now) result }
    {
        self.longest(Joined {
            piece: name.as_bytes(),
            pieces: &[],
        })
    }

    /// What `get` gives for the layers, joined by `/`, without the memory for such a text.
    pub fn find(&self, layers: &[String]) -> Option<ByteUnit>
        ensures none { layers.now ≡ [] → result ≡ None }
        ensures law { layers.now ≢ []
            → IsLimitOf self.now (map to_ascii_lowercase (join_with_byte slash (map string_bytes layers.now))) result }
    {
        let (piece, pieces) = layers.split_first()?;
        self.longest(Joined {
            piece: piece.as_bytes(),
            pieces,
        })
    }

    fn longest(&self, name: Joined<'_>) -> Option<ByteUnit>
        ensures { IsLimitOf self.now (map to_ascii_lowercase (bytes_of name.entry)) result }
    {
        let mut best: Option<(usize, ByteUnit)> = None;
        for (front, limit) in &self.limits {
            let front = front.as_str();
            if !name.has_front(front) {
                continue;
            }
            match best {
                Some((length, _)) if front.len() <= length => {}
                _ => best = Some((front.len(), *limit)),
            }
        }
        Some(best?.1)
    }
}

impl PartialEq for Limits {
    ghost use Rattle.std.specs.Cmp.{partial_equiv_from_equiv};
    ghost use Rattle.rkt_config.specs.SameLimitsLaws.{same_limits_equiv};
    ghost use Rattle.rkt_config.specs.SameLimits.{same_limits};

    ghost eq = { same_limits };

    ghost laws = { partial_equiv_from_equiv same_limits_equiv };

    fn eq(&self, other: &Limits) -> bool {
        self.limits == other.limits
    }
}

/// One limit, as `name = bytes`.
fn write_limit<W: fmt::Write>(f: &mut fmt::Formatter<W>, name: &str, limit: ByteUnit) -> fmt::Result
    ensures { DisplaysOnOk W.write_str_gives f.old result (Some (limit_text (name.now, limit))) f.new }
{
    write!(f, "{} = {}", name, limit.0)
}

impl fmt::Display for Limits {
    ghost output = { λ limits. Some (limits_text limits) };

    fn fmt<W: fmt::Write>(&self, f: &mut fmt::Formatter<W>) -> fmt::Result {
        let mut limits = self.limits.iter();
        let Some((name, limit)) = limits.next() else {
            return Ok(());
        };
        write_limit(f, name.as_str(), *limit)?;
        for (name, limit) in limits {
            f.write_str(", ")?;
            write_limit(f, name.as_str(), *limit)?;
        }
        Ok(())
    }
}
