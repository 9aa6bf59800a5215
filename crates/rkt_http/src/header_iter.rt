ghost use Rattle.std.specs.Prelude.{◌≡◌, ◌∷◌, ◌++◌, [], List, ℕ, map, length};
ghost use Rattle.rkt_http.specs.Headers.{Field, Group, fields_of};

use crate::header_entry::Entry;
use rkt_base::Text;
use std::marker::Model;

/// The values under one name, in order.
#[derive(Drop)]
pub struct HeaderValues<'a> {
    values: &'a [Text],
}

impl<'a> Model for HeaderValues<'a> {
    ghost Value = { List (List ℕ) };

    ghost view = { λ s. s.values.now };
}

impl<'a> HeaderValues<'a> {
    pub(crate) fn new(values: &'a [Text]) -> HeaderValues<'a>
        ensures { result ≡ values.entry.now }
    {
        HeaderValues { values }
    }
}

impl<'a> Iterator for HeaderValues<'a> {
    ghost use Rattle.std.specs.Iterator.{YieldsFirstRef, item_count};

    type Item = &'a str;

    ghost next_gives = { YieldsFirstRef (λ s. s) };

    ghost remaining = { item_count (λ s. s) };

    fn next(&mut self) -> Option<&'a str> {
        let (first, others) = self.values.split_first()?;
        self.values = others;
        Some(first.as_str())
    }
}

/// Names and values, group by group.
#[derive(Drop)]
pub struct HeaderIter<'a> {
    name: &'a str,
    values: &'a [Text],
    entries: &'a [Entry],
}

impl<'a> Model for HeaderIter<'a> {
    ghost use Rattle.std.specs.Prelude.{List, ◌++◌};
    ghost use Rattle.rkt_http.specs.Headers.{Field, group_fields, fields_of};

    ghost Value = { List Field };

    ghost view = { λ s. group_fields (record { name = s.name.now; values = s.values.now }) ++ fields_of s.entries.now };
}

impl<'a> HeaderIter<'a> {
    pub(crate) fn new(entries: &'a [Entry]) -> HeaderIter<'a>
        ensures { result ≡ fields_of entries.entry.now }
    {
        HeaderIter {
            name: "",
            values: &[],
            entries,
        }
    }
}

impl<'a> Iterator for HeaderIter<'a> {
    ghost use Rattle.std.specs.Iterator.{YieldsFirstBy, item_count};

    type Item = (&'a str, &'a str);

    ghost next_gives = { YieldsFirstBy (λ x. record { name = x.0.now; value = x.1.now }) (λ s. s) };

    ghost remaining = { item_count (λ s. s) };

    fn next(&mut self) -> Option<(&'a str, &'a str)> {
        while self.values.is_empty() {
            let (entry, others) = self.entries.split_first()?;
            self.name = entry.name();
            self.values = entry.values();
            self.entries = others;
        }
        let (first, others) = self.values.split_first()?;
        self.values = others;
        Some((self.name, first.as_str()))
    }
}
