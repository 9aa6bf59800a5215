//! Cases of managed values, which are kept from line to line, and of the states that lend them.
use cases::{CaseError, first_word, parsed};
use rkt_base::{NoMemory, Want};
use rkt_config::{DuplicateState, Managed, State};
use rkt_http::Key;
use std::alloc::Global;

fn key(word: &str) -> Result<Key, CaseError> {
    Ok(Key(parsed::<u32>(word)?))
}

/// A key, and the number behind it.
fn keyed(text: &str) -> Result<(Key, u64), CaseError> {
    let (word, rest) = first_word(text);
    Ok((key(word)?, parsed::<u64>(rest)?))
}

fn push_refusal(duplicate: &DuplicateState<u64>, out: &mut String) -> Result<(), NoMemory> {
    let value = duplicate.value;
    write!(out, "refused: {duplicate}, {value}")
}

/// Adds `done`, or what refuses the value.
fn push_set(managed: &mut Managed<u64>, text: &str, out: &mut String) -> Result<(), CaseError> {
    let (key, value) = keyed(text)?;
    match managed.set(key, value) {
        Ok(()) => Ok(out.push_str("done")?),
        Err(Want::Refused(duplicate)) => Ok(push_refusal(&duplicate, out)?),
        Err(Want::NoMemory) => Err(CaseError::NoMemory),
    }
}

fn push_value(managed: &Managed<u64>, word: &str, out: &mut String) -> Result<(), CaseError> {
    match managed.get(key(word)?) {
        Some(value) => Ok(write!(out, "{value}")?),
        None => Ok(out.push_str("none")?),
    }
}

/// Adds what the managed values answer to a command.
pub fn push_managed(
    alloc: Global,
    managed: &mut Managed<u64>,
    line: &str,
    out: &mut String,
) -> Result<(), CaseError> {
    let (command, rest) = first_word(line);
    match command {
        "new" => *managed = Managed::new(alloc),
        "set" => return push_set(managed, rest, out),
        "get" => return push_value(managed, rest, out),
        _ => return Err(CaseError::Line),
    }
    Ok(out.push_str("done")?)
}

/// Adds whether a state equals another, and how it compares with it.
fn push_order<'a, const KEY: u32>(
    state: &State<'a, u64, KEY>,
    other: &State<'a, u64, KEY>,
    out: &mut String,
) -> Result<(), NoMemory> {
    let (same, order) = (state == other, state.cmp(other));
    write!(out, " equal={same} order={order:?}")
}

/// Adds a state beside that of a number.
fn push_compared<'a, const KEY: u32>(
    state: &State<'a, u64, KEY>,
    value: &'a u64,
    out: &mut String,
) -> Result<(), NoMemory> {
    let (lent, pointed): (u64, u64) = (*state.inner(), **state);
    write!(out, "{state} inner={lent} deref={pointed}")?;
    push_order(state, &State::from(value), out)
}

fn push_state_of<'a, const KEY: u32>(
    managed: &'a Managed<u64>,
    value: &'a u64,
    out: &mut String,
) -> Result<(), NoMemory> {
    let state: Option<State<'a, u64, KEY>> = State::get(managed);
    match state {
        Some(state) => push_compared(&state, value, out),
        None => out.push_str("none"),
    }
}

/// Adds what the state under a key is. A key is part of the state's type, so these keys alone can be asked.
pub fn push_state(managed: &Managed<u64>, line: &str, out: &mut String) -> Result<(), CaseError> {
    let (key, value) = keyed(line)?;
    match key.0 {
        0 => Ok(push_state_of::<0>(managed, &value, out)?),
        1 => Ok(push_state_of::<1>(managed, &value, out)?),
        2 => Ok(push_state_of::<2>(managed, &value, out)?),
        3 => Ok(push_state_of::<3>(managed, &value, out)?),
        _ => Err(CaseError::Line),
    }
}
