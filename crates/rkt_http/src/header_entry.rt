ghost use Rattle.std.specs.Prelude.{◌≡◌, ◌∷◌, ◌++◌, [], IfOk, OnOk, OnErr, take};
ghost use Rattle.rkt_http.specs.Headers.{Group, is_named};

use crate::uncased::Uncased;
use rkt_base::{NoMemory, Text, copy_all};
use std::alloc::Global;
use std::marker::Model;

/// A list of one value.
pub(crate) fn one_value(alloc: Global, value: Text) -> Result<Vec<Text>, NoMemory>
    ensures { IfOk result (λ values. values.items ≡ value ∷ []) }
{
    let mut values = Vec::with_capacity(alloc, 1)?;
    values.push(value)?;
    Ok(values)
}

/// The values under one name.
#[derive(Debug, Drop)]
pub(crate) struct Entry {
    name: Uncased,
    values: Vec<Text>,
}

impl Model for Entry {
    ghost use Rattle.rkt_http.specs.Headers.{Group};

    ghost Value = { Group };

    ghost view = { λ e. record { name = e.name; values = e.values.items } };
}

impl Entry {
    pub(crate) fn new(name: Uncased, values: Vec<Text>) -> Entry
        ensures { result ≡ record { name = name; values = values.items } }
    {
        Entry { name, values }
    }

    /// The values, which takes no memory.
    pub(crate) fn into_values(self) -> Vec<Text>
        ensures { result.items ≡ self.values }
    {
        self.values
    }

    pub(crate) fn name(&self) -> &str
        ensures { result.now ≡ self.now.name }
    {
        self.name.as_str()
    }

    pub(crate) fn values(&self) -> &[Text]
        ensures { result.now ≡ self.now.values }
    {
        self.values.as_slice()
    }

    pub(crate) fn is_named(&self, name: &str) -> bool
        ensures { result ≡ is_named name.now self.now }
    {
        self.name.as_str().eq_ignore_ascii_case(name)
    }

    pub(crate) fn push(&mut self, value: Text) -> Result<(), NoMemory>
        ensures ok { OnOk result (self.new ≡ record self.old { values = self.old.values ++ value ∷ [] }) }
        ensures err { OnErr result (self.new ≡ self.old) }
    {
        self.values.push(value)?;
        Ok(())
    }

    pub(crate) fn append(&mut self, mut values: Vec<Text>) -> Result<(), NoMemory>
        ensures ok { OnOk result (self.new ≡ record self.old { values = self.old.values ++ values.items }) }
        ensures err { OnErr result (self.new ≡ self.old) }
    {
        self.values.append(&mut values)
    }

    pub(crate) fn truncate(&mut self, count: usize)
        ensures { self.new ≡ record self.old { values = take count self.old.values } }
    {
        self.values.truncate(count);
    }

    pub(crate) fn set(&mut self, values: Vec<Text>)
        ensures { self.new ≡ record self.old { values = values.items } }
    {
        self.values = values;
    }
}

impl Clone for Entry {
    ghost is_clone = { λ entry copy. copy ≡ entry };

    fn clone(&self) -> Result<Entry, NoMemory> {
        let alloc = *self.values.allocator();
        Ok(Entry {
            name: self.name.try_clone(alloc)?,
            values: copy_all(alloc, self.values.as_slice())?,
        })
    }
}
