//! Groups in the order in which their names came first. They are few, so a name is looked for by a walk.
ghost use Rattle.std.specs.Prelude.{◌≡◌, ◌<◌, ◌≤◌, ◌+◌, ◌∷◌, ◌++◌, [], IsTrue, OnOk, OnErr, IfSome, length, position, find, take};
ghost use Rattle.std.specs.Option.{option_copied};
ghost use Rattle.std.specs.Vec.{vec_len, vec_capacity};
ghost use Rattle.std.specs.Vec.Iter.{into_iter_items};
ghost use Rattle.rkt_http.specs.Headers.{is_named, appended, overwritten, replaced_all, changed_at};

use crate::header::Header;
use crate::header_entry::{Entry, one_value};
use crate::uncased::Uncased;
use rkt_base::{NoMemory, Text};
use std::alloc::Global;
use std::vec::IntoIter;

/// The place of the group of this name.
pub(crate) fn place_of(groups: &[Entry], name: &str) -> Option<usize>
    ensures place { result ≡ position (is_named name.now) groups.now }
    ensures within { IfSome result (λ at. at < length groups.now) }
{
    groups.iter().position(|entry| entry.is_named(name))
}

/// The group of this name.
pub(crate) fn find<'a>(groups: &'a [Entry], name: &str) -> Option<&'a Entry>
    ensures { option_copied result ≡ find (is_named name.now) groups.entry.now }
{
    groups.iter().find(|entry| entry.is_named(name))
}

/// Puts a value behind those of the group.
pub(crate) fn push_at(groups: &mut Vec<Entry>, at: usize, value: Text) -> Result<(), NoMemory>
    requires { at < length groups.old.items }
    ensures ok { OnOk result (groups.new.items ≡
        changed_at at (λ group. record group { values = group.values ++ value ∷ [] }) groups.old.items) }
    ensures err { OnErr result (groups.new.items ≡ groups.old.items) }
{
    groups[at].push(value)
}

/// Puts values behind those of the group.
pub(crate) fn append_at(
    groups: &mut Vec<Entry>,
    at: usize,
    values: Vec<Text>,
) -> Result<(), NoMemory>
    requires { at < length groups.old.items }
    ensures ok { OnOk result (groups.new.items ≡
        changed_at at (λ group. record group { values = group.values ++ values.items }) groups.old.items) }
    ensures err { OnErr result (groups.new.items ≡ groups.old.items) }
{
    groups[at].append(values)
}

/// Leaves the first values of the group, so many.
fn truncate_at(groups: &mut Vec<Entry>, at: usize, count: usize)
    requires { at < length groups.old.items }
    ensures { groups.new.items ≡ changed_at at (λ group. record group { values = take count group.values }) groups.old.items }
{
    groups[at].truncate(count);
}

/// Leaves these values alone in the group.
pub(crate) fn set_at(groups: &mut Vec<Entry>, at: usize, values: Vec<Text>)
    requires { at < length groups.old.items }
    ensures groups { groups.new.items ≡ changed_at at (λ group. record group { values = values.items }) groups.old.items }
    ensures len { vec_len groups.new ≡ vec_len groups.old }
    ensures capacity { vec_capacity groups.new ≡ vec_capacity groups.old }
{
    groups[at].set(values);
}

/// Leaves this value alone in the group.
pub(crate) fn set_one_at(groups: &mut Vec<Entry>, at: usize, value: Text) -> Result<(), NoMemory>
    requires { at < length groups.old.items }
    ensures ok { OnOk result
        (groups.new.items ≡ changed_at at (λ group. record group { values = value ∷ [] }) groups.old.items) }
    ensures err { OnErr result (groups.new.items ≡ groups.old.items) }
{
    let values = one_value(*groups.allocator(), value)?;
    set_at(groups, at, values);
    Ok(())
}

/// Puts a group behind the others. Most maps have few, so the first one gets the room for one.
pub(crate) fn insert(groups: &mut Vec<Entry>, group: Entry) -> Result<(), NoMemory>
    ensures ok { OnOk result (groups.new.items ≡ groups.old.items ++ group ∷ []) }
    ensures err { OnErr result (groups.new.items ≡ groups.old.items) }
{
    if groups.is_empty() {
        groups.reserve_exact(1)?;
    }
    groups.push(group)?;
    Ok(())
}

/// Puts a group of one value behind the others.
pub(crate) fn insert_one(groups: &mut Vec<Entry>, header: Header) -> Result<(), NoMemory>
    ensures ok { OnOk result (groups.new.items ≡
        groups.old.items ++ record { name = header.name; values = header.value ∷ [] } ∷ []) }
    ensures err { OnErr result (groups.new.items ≡ groups.old.items) }
{
    let (name, value) = header.into_parts();
    let values = one_value(*groups.allocator(), value)?;
    insert(groups, Entry::new(name, values))
}

/// Puts a group of these values behind the others.
pub(crate) fn insert_all(
    groups: &mut Vec<Entry>,
    name: &str,
    values: Vec<Text>,
) -> Result<(), NoMemory>
    ensures ok { OnOk result (groups.new.items ≡ groups.old.items ++ record { name = name.now; values = values.items } ∷ []) }
    ensures err { OnErr result (groups.new.items ≡ groups.old.items) }
{
    let name = Uncased::new(*groups.allocator(), name)?;
    insert(groups, Entry::new(name, values))
}

/// Puts the values of each of these groups behind those of its name, or the group behind the others. Where memory is
/// short, what was put there is taken away again.
pub(crate) fn append_all(
    groups: &mut Vec<Entry>,
    mut others: IntoIter<Entry>,
) -> Result<(), NoMemory>
    ensures ok { OnOk result (groups.new.items ≡ appended groups.old.items (into_iter_items others)) }
    ensures err { OnErr result (groups.new.items ≡ groups.old.items) }
{
    let Some(other) = others.next() else {
        return Ok(());
    };
    match place_of(groups.as_slice(), other.name()) {
        Some(at) => {
            let count = groups[at].values().len();
            append_at(groups, at, other.into_values())?;
            if let Err(error) = append_all(groups, others) {
                truncate_at(groups, at, count);
                return Err(error);
            }
            Ok(())
        }
        None => {
            let count = groups.len();
            insert(groups, other)?;
            if let Err(error) = append_all(groups, others) {
                groups.truncate(count);
                return Err(error);
            }
            Ok(())
        }
    }
}

/// Leaves the values of the group alone in that of its name, or puts it behind the others, for which there is room.
fn overwrite_one(groups: &mut Vec<Entry>, other: Entry)
    requires { vec_len groups.old < vec_capacity groups.old }
    ensures groups { groups.new.items ≡ replaced_all groups.old.items other.name other.values }
    ensures len { vec_len groups.new ≤ vec_len groups.old + 1 }
    ensures capacity { vec_capacity groups.new ≡ vec_capacity groups.old }
{
    match place_of(groups.as_slice(), other.name()) {
        Some(at) => set_at(groups, at, other.into_values()),
        None => groups.push_reserved(other),
    }
}

/// Leaves the values of each of these groups alone in that of its name, or puts the group behind the others, for which
/// there is room.
pub(crate) fn overwrite_all(groups: &mut Vec<Entry>, others: Vec<Entry>)
    requires { vec_len groups.old + length others.items ≤ vec_capacity groups.old }
    ensures { groups.new.items ≡ overwritten groups.old.items others.items }
{
    for other in others {
        overwrite_one(groups, other);
    }
}
