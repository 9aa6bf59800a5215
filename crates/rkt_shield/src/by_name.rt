//! Headers in the order of their names, each name once.
ghost use Rattle.std.specs.Prelude.{◌≡◌, OnOk, OnErr};
ghost use Rattle.std.specs.List.{position, position_or_len};
ghost use Rattle.std.specs.Ordering.{nat_cmp};
ghost use Rattle.std.specs.Cmp.Lexicographic.{slice_cmp};
ghost use Rattle.std.specs.Str.{str_to_ascii_lowercase};
ghost use Rattle.rkt_http.specs.Headers.{added};
ghost use Rattle.rkt_shield.specs.Shield.{IsByName, comes_before as comes_before_of, has_name, enabled, disabled, is_enabled, applied};

use rkt_base::NoMemory;
use rkt_http::{Header, HeaderMap};
use std::alloc::Global;
use std::cmp::Ordering;

/// How two names compare in lower case.
fn order(one: &str, other: &str) -> Ordering
    ensures { result ≡ slice_cmp nat_cmp (str_to_ascii_lowercase one.now) (str_to_ascii_lowercase other.now) }
{
    one.bytes()
        .map(|byte| byte.to_ascii_lowercase())
        .cmp(other.bytes().map(|byte| byte.to_ascii_lowercase()))
}

fn comes_before(one: &str, other: &str) -> bool
    ensures { result ≡ comes_before_of one.now other.now }
{
    order(one, other).is_lt()
}

fn is_named(header: &Header, name: &str) -> bool
    ensures { result ≡ has_name name.now header.now }
{
    header.name().as_str().eq_ignore_ascii_case(name)
}

/// Whether a header of this name is there.
pub(crate) fn contains(headers: &[Header], name: &str) -> bool
    ensures { result ≡ is_enabled headers.now name.now }
{
    headers.iter().any(|header| is_named(header, name))
}

/// Takes the header of this name away.
pub(crate) fn remove(headers: &mut Vec<Header>, name: &str)
    ensures others { headers.new.items ≡ disabled headers.old.items name.now }
    ensures by_name { IsByName headers.old.items → IsByName headers.new.items }
{
    headers.retain(|header| !is_named(header, name));
}

/// The first header that the name comes before.
fn first_behind(headers: &[Header], name: &str) -> Option<usize>
    ensures { result ≡ position (λ header. comes_before_of name.now header.name) headers.now }
{
    headers
        .iter()
        .position(|header| comes_before(name, header.name().as_str()))
}

/// The place of that header, or the end.
fn place_for(headers: &[Header], name: &str) -> usize
    ensures { result ≡ position_or_len (λ header. comes_before_of name.now header.name) headers.now }
{
    match first_behind(headers, name) {
        Some(place) => place,
        None => headers.len(),
    }
}

/// Puts a header in its place by name, in place of one of the same name.
pub(crate) fn put(headers: &mut Vec<Header>, header: Header) -> Result<(), NoMemory>
    requires { IsByName headers.old.items }
    ensures ok { OnOk result (headers.new.items ≡ enabled headers.old.items header) }
    ensures by_name { OnOk result (IsByName headers.new.items) }
{
    remove(headers, header.name().as_str());
    let place = place_for(headers.as_slice(), header.name().as_str());
    headers.insert(place, header)?;
    Ok(())
}

fn add_copy(alloc: Global, header: &Header, map: &mut HeaderMap) -> Result<(), NoMemory>
    ensures ok { OnOk result (map.new ≡ added map.old header.now) }
    ensures err { OnErr result (map.new ≡ map.old) }
{
    let copy = header.try_clone(alloc)?;
    map.add(copy)
}

/// Adds each header whose name is not there. Where memory is short, those that were added are taken away again.
pub(crate) fn add_absent(
    alloc: Global,
    headers: &[Header],
    map: &mut HeaderMap,
) -> Result<(), NoMemory>
    requires { IsByName headers.now }
    ensures ok { OnOk result (map.new ≡ applied map.old headers.now) }
    ensures err { OnErr result (map.new ≡ map.old) }
{
    let Some((first, others)) = headers.split_first() else {
        return Ok(());
    };
    let name = first.name().as_str();
    if map.contains(name) {
        return add_absent(alloc, others, map);
    }
    add_copy(alloc, first, map)?;
    let result = add_absent(alloc, others, map);
    if result.is_err() {
        map.remove(name);
    }
    result
}
