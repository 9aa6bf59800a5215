ghost use Rattle.std.specs.Prelude.{◌≡◌, ◌-◌, ◌^◌, ◌∷◌, ◌++◌, [], ◌↔◌, List, ℕ, None, IfOk, OnOk, OnErr, IsTrue, length, min, position, find, is_some, option_copied, slice_get, map, string_bytes};
ghost use Rattle.rkt_http.specs.Headers.{Field, Group, is_named, group_of, values_of, fields_of, added, replaced, added_all, appended, overwritten, replaced_all, removed};

use crate::header::Header;
use crate::header_entry::Entry;
use crate::header_groups::{
    append_all, append_at, find, insert_all, insert_one, overwrite_all, place_of, push_at, set_at,
    set_one_at,
};
use crate::header_iter::{HeaderIter, HeaderValues};
use rkt_base::{NoMemory, Text};
use std::alloc::Global;
use std::marker::Model;

fn texts(alloc: Global, values: Vec<String>) -> Result<Vec<Text>, NoMemory>
    ensures { IfOk result (λ texts. texts.items ≡ map string_bytes values.items) }
{
    values.into_iter().map(Text::from_string).collect(alloc)
}

/// Headers in groups of one name, which is compared without regard to case. Groups stand in the order in which their
/// names came first, and a group is spelled as it came first.
#[derive(Debug, Drop)]
pub struct HeaderMap {
    groups: Vec<Entry>,
}

impl Model for HeaderMap {
    ghost use Rattle.std.specs.Prelude.{List};
    ghost use Rattle.rkt_http.specs.Headers.{Group};

    ghost Value = { List Group };

    ghost view = { λ m. m.groups.items };
}

impl HeaderMap {
    pub fn new(alloc: Global) -> HeaderMap
        ensures { result ≡ [] }
    {
        HeaderMap {
            groups: Vec::new(alloc),
        }
    }

    /// The same headers, in texts of their own.
    pub fn try_clone(&self, alloc: Global) -> Result<HeaderMap, NoMemory>
        ensures { IfOk result (λ copy. copy ≡ self.now) }
    {
        Ok(HeaderMap {
            groups: self.groups.as_slice().to_vec(alloc)?,
        })
    }

    /// The number of values in all groups, or `usize::MAX` where there are more.
    pub fn len(&self) -> usize
        ensures { result ≡ min (length (fields_of self.now)) (2 ^ 64 - 1) }
    {
        let mut count: usize = 0;
        for group in self.groups.as_slice() {
            count = count.saturating_add(group.values().len());
        }
        count
    }

    /// Whether there is no group. One of no values is a group too.
    pub fn is_empty(&self) -> bool
        ensures { IsTrue result ↔ (self.now ≡ []) }
    {
        self.groups.is_empty()
    }

    pub fn contains(&self, name: &str) -> bool
        ensures { result ≡ is_some (group_of self.now name.now) }
    {
        find(self.groups.as_slice(), name).is_some()
    }

    /// The values under a name, in order.
    pub fn get(&self, name: &str) -> HeaderValues<'_>
        ensures { result ≡ values_of self.now name.now }
    {
        match find(self.groups.as_slice(), name) {
            Some(entry) => HeaderValues::new(entry.values()),
            None => HeaderValues::new(&[]),
        }
    }

    /// The first value under a name.
    pub fn get_one(&self, name: &str) -> Option<&str>
        ensures { option_copied result ≡ slice_get (values_of self.now name.now) 0 }
    {
        match find(self.groups.as_slice(), name) {
            Some(entry) => match entry.values().first() {
                Some(value) => Some(value.as_str()),
                None => None,
            },
            None => None,
        }
    }

    /// All headers, group by group.
    pub fn iter(&self) -> HeaderIter<'_>
        ensures { result ≡ fields_of self.now }
    {
        HeaderIter::new(self.groups.as_slice())
    }

    /// Puts the value at the end of its group, or into a group of its own behind the others.
    pub fn add(&mut self, header: Header) -> Result<(), NoMemory>
        ensures ok { OnOk result (self.new ≡ added self.old header) }
        ensures err { OnErr result (self.new ≡ self.old) }
    {
        match place_of(self.groups.as_slice(), header.name().as_str()) {
            Some(at) => push_at(&mut self.groups, at, header.into_value()),
            None => insert_one(&mut self.groups, header),
        }
    }

    /// Puts the values at the end of their group, or into a group of their own behind the others, be it an empty one.
    pub fn add_all(&mut self, name: &str, values: Vec<String>) -> Result<(), NoMemory>
        ensures ok { OnOk result (self.new ≡ added_all self.old name.now (map string_bytes values.items)) }
        ensures err { OnErr result (self.new ≡ self.old) }
    {
        let values = texts(*self.groups.allocator(), values)?;
        match place_of(self.groups.as_slice(), name) {
            Some(at) => append_at(&mut self.groups, at, values),
            None => insert_all(&mut self.groups, name, values),
        }
    }

    /// Leaves this value alone in its group, which keeps its place and its spelling. Answers whether the group was
    /// there.
    pub fn replace(&mut self, header: Header) -> Result<bool, NoMemory>
        ensures ok { OnOk result (self.new ≡ replaced self.old header) }
        ensures there { IfOk result (λ there. there ≡ is_some (group_of self.old header.name)) }
        ensures err { OnErr result (self.new ≡ self.old) }
    {
        match place_of(self.groups.as_slice(), header.name().as_str()) {
            Some(at) => {
                set_one_at(&mut self.groups, at, header.into_value())?;
                Ok(true)
            }
            None => {
                insert_one(&mut self.groups, header)?;
                Ok(false)
            }
        }
    }

    /// Leaves these values alone in their group, which keeps its place and its spelling.
    pub fn replace_all(&mut self, name: &str, values: Vec<String>) -> Result<(), NoMemory>
        ensures ok { OnOk result (self.new ≡ replaced_all self.old name.now (map string_bytes values.items)) }
        ensures err { OnErr result (self.new ≡ self.old) }
    {
        let values = texts(*self.groups.allocator(), values)?;
        match place_of(self.groups.as_slice(), name) {
            Some(at) => {
                set_at(&mut self.groups, at, values);
                Ok(())
            }
            None => insert_all(&mut self.groups, name, values),
        }
    }

    /// Puts the values of each group of another map at the end of the group of that name, or the group behind the others.
    pub fn append(&mut self, other: HeaderMap) -> Result<(), NoMemory>
        ensures ok { OnOk result (self.new ≡ appended self.old other) }
        ensures err { OnErr result (self.new ≡ self.old) }
    {
        append_all(&mut self.groups, other.groups.into_iter())
    }

    /// Leaves the values of each group of another map alone in the group of that name, which keeps its place and its
    /// spelling.
    pub fn overwrite(&mut self, other: HeaderMap) -> Result<(), NoMemory>
        ensures ok { OnOk result (self.new ≡ overwritten self.old other) }
        // Groups that the other has none of stay.
        ensures stays { OnOk result ((name : List ℕ)
            → group_of other name ≡ None
            → group_of self.new name ≡ group_of self.old name) }
        ensures err { OnErr result (self.new ≡ self.old) }
    {
        self.groups.reserve(other.groups.len())?;
        overwrite_all(&mut self.groups, other.groups);
        Ok(())
    }

    /// Takes the group out, and closes up.
    pub fn remove(&mut self, name: &str)
        ensures { self.new ≡ removed self.old name.now }
    {
        match place_of(self.groups.as_slice(), name) {
            Some(at) => {
                let _ = self.groups.remove(at);
            }
            None => {}
        }
    }
}
