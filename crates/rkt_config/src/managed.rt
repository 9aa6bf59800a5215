ghost use Rattle.std.specs.Prelude.{◌≡◌, [], None, OnOk, OnErr, IsSome};
ghost use Rattle.std.specs.Option.{option_copied};
ghost use Rattle.std.specs.Ordering.{nat_cmp};
ghost use Rattle.std.specs.BTreeMap.{insert_entry};
ghost use Rattle.rkt_base.specs.Want.{IfRefused};
ghost use Rattle.rkt_config.specs.Managed.{value_at};

use rkt_base::Want;
use rkt_http::Key;
use std::alloc::Global;
use std::collections::BTreeMap;
use std::marker::Model;
use thiserror::Error;

/// The values that a server lends to its callbacks, each under a key.
#[derive(Drop)]
pub struct Managed<V> {
    values: BTreeMap<u32, V>,
}

impl<V> Model for Managed<V> {
    ghost use Rattle.std.specs.Prelude.{List, ℕ};

    ghost Value = { List (ℕ × V) };

    ghost view = { λ m. m.values.entries };
}

/// A key that has a value already, with the value that was meant for it.
#[derive(Debug, Drop, Error)]
#[error("the key {} has a value already", .key.0)]
pub struct DuplicateState<V> {
    pub key: Key,
    pub value: V,
}

impl<V: Drop> Managed<V> {
    /// No values.
    pub fn new(alloc: Global) -> Managed<V>
        ensures { result ≡ [] }
    {
        Managed {
            values: BTreeMap::new(alloc),
        }
    }

    /// The value under a key.
    pub fn get(&self, key: Key) -> Option<&V>
        ensures { option_copied result ≡ value_at key self.now }
    {
        self.values.get(&key.0)
    }

    /// Puts a value under a key that has none. For want of memory the value is dropped.
    pub fn set(&mut self, key: Key, value: V) -> Result<(), Want<DuplicateState<V>>>
        ensures ok { OnOk result (self.new ≡ insert_entry nat_cmp self.old key.0 value) }
        ensures free { OnOk result (value_at key self.old ≡ None) }
        ensures duplicate { IfRefused result (λ e. (e ≡ record { key = key; value = value }) × IsSome (value_at key self.old)) }
        ensures err { OnErr result (self.new ≡ self.old) }
    {
        if self.values.contains_key(&key.0) {
            return Err(Want::Refused(DuplicateState { key, value }));
        }
        self.values.insert(key.0, value)?;
        Ok(())
    }
}
