ghost use Rattle.std.specs.Prelude.{◌≡◌};
ghost use Rattle.std.specs.Option.{option_map};
ghost use Rattle.rkt_config.specs.Managed.{value_at};

use crate::managed::Managed;
use rkt_http::Key;
use std::cmp::Ordering;
use std::fmt;
use std::hash::{Hash, Hasher};
use std::marker::Model;
use std::ops::Deref;

/// The managed value under a key, lent.
#[derive(Drop)]
pub struct State<'a, V, const KEY: u32> {
    value: &'a V,
}

impl<'a, V, const KEY: u32> Model for State<'a, V, KEY> {
    ghost Value = { V };

    ghost view = { λ s. s.value.now };
}

impl<'a, V: Drop, const KEY: u32> State<'a, V, KEY> {
    /// The value under this key, where there is one.
    pub fn get(managed: &'a Managed<V>) -> Option<State<'a, V, KEY>>
        ensures { result ≡ value_at (record { 0 = KEY }) managed.now }
    {
        let value = managed.get(Key(KEY))?;
        Some(State { value })
    }

    /// The value, for as long as it is lent.
    pub fn inner(&self) -> &'a V
        ensures { result.now ≡ self.now }
    {
        self.value
    }
}

impl<'a, V, const KEY: u32> From<&'a V> for State<'a, V, KEY> {
    ghost from_gives = { λ value state. state ≡ value.now };

    fn from(value: &'a V) -> State<'a, V, KEY> {
        State { value }
    }
}

impl<'a, V, const KEY: u32> Deref for State<'a, V, KEY> {
    type Target = V;

    fn deref(&self) -> &V
        ensures { result.now ≡ self.now }
    {
        self.value
    }
}

impl<'a, V: fmt::Display, const KEY: u32> fmt::Display for State<'a, V, KEY> {
    ghost output = { V.output };

    ghost styled_output = { V.styled_output };

    fn fmt<W: fmt::Write>(&self, f: &mut fmt::Formatter<W>) -> fmt::Result {
        self.value.fmt(f)
    }
}

impl<'a, V: PartialEq, const KEY: u32> PartialEq for State<'a, V, KEY> {
    ghost eq = { V.eq };

    ghost laws = { V.laws };

    fn eq(&self, other: &State<'a, V, KEY>) -> bool {
        *self.value == *other.value
    }
}

impl<'a, V: Eq, const KEY: u32> Eq for State<'a, V, KEY> {
    ghost laws = { V.Eq.laws };
}

impl<'a, V: PartialOrd, const KEY: u32> PartialOrd for State<'a, V, KEY> {
    ghost partial_cmp = { V.partial_cmp };

    ghost laws = { V.PartialOrd.laws };

    fn partial_cmp(&self, other: &State<'a, V, KEY>) -> Option<Ordering> {
        self.value.partial_cmp(other.value)
    }
}

impl<'a, V: Ord, const KEY: u32> Ord for State<'a, V, KEY> {
    ghost cmp = { V.cmp };

    ghost total = { V.total };

    ghost matches_partial_cmp = { V.matches_partial_cmp };

    ghost matches_eq = { V.matches_eq };

    fn cmp(&self, other: &State<'a, V, KEY>) -> Ordering {
        self.value.cmp(other.value)
    }
}

impl<'a, V: Hash, const KEY: u32> Hash for State<'a, V, KEY> {
    ghost hash_input = { V.hash_input };

    ghost respects_eq = { V.respects_eq };

    fn hash<H: Hasher>(&self, state: &mut H) {
        self.value.hash(state);
    }
}
