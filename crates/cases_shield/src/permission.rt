//! Rules of permissions, as lines say them.
use crate::features::read_feature;
use cases::{CaseError, cut, first_word, pair, written};
use rkt_base::{NoMemory, Want};
use rkt_http::Absolute;
use rkt_shield::{Allow, Feature, OriginWithoutHost, Permission};
use std::alloc::Global;

fn read_allow(alloc: Global, word: &str) -> Result<Allow, CaseError> {
    match word {
        "*" => Ok(Allow::Any),
        "self" => Ok(Allow::This),
        _ => Ok(Allow::Origin(Absolute::parse(alloc, word)?)),
    }
}

fn push_allow(alloc: Global, list: &mut Vec<Allow>, word: &str) -> Result<(), CaseError> {
    let allow = read_allow(alloc, word)?;
    Ok(list.push(allow)?)
}

fn push_allows(alloc: Global, list: &mut Vec<Allow>, text: &str) -> Result<(), CaseError> {
    for word in text.split(' ') {
        push_allow(alloc, list, word)?;
    }
    Ok(())
}

fn read_list(alloc: Global, text: &str) -> Result<Vec<Allow>, CaseError> {
    let mut list = Vec::new(alloc);
    if !text.is_empty() {
        push_allows(alloc, &mut list, text)?;
    }
    Ok(list)
}

/// A list without a host is refused, and so is the case.
fn or_refused(
    permission: Result<Permission, Want<OriginWithoutHost>>,
) -> Result<Permission, CaseError> {
    match permission {
        Ok(permission) => Ok(permission),
        Err(Want::Refused(_)) => Err(CaseError::Refused),
        Err(Want::NoMemory) => Err(CaseError::NoMemory),
    }
}

fn allowed(alloc: Global, text: &str) -> Result<Permission, CaseError> {
    let (name, list) = first_word(text);
    let feature = read_feature(name)?;
    let list = read_list(alloc, list)?;
    or_refused(Permission::allowed(alloc, feature, list.as_slice()))
}

fn allow(alloc: Global, permission: Permission, text: &str) -> Result<Permission, CaseError> {
    let (name, list) = first_word(text);
    let feature = read_feature(name)?;
    let list = read_list(alloc, list)?;
    or_refused(permission.allow(feature, list.as_slice()))
}

fn first_rule(alloc: Global, text: &str) -> Result<Permission, CaseError> {
    let (word, rest) = first_word(text);
    match word {
        "default" => Ok(Permission::default(alloc)?),
        "allowed" => allowed(alloc, rest),
        "blocked" => Ok(Permission::blocked(alloc, read_feature(rest)?)?),
        _ => Err(CaseError::Line),
    }
}

fn next_rule(alloc: Global, permission: Permission, text: &str) -> Result<Permission, CaseError> {
    let (word, rest) = first_word(text);
    match word {
        "allow" => allow(alloc, permission, rest),
        "block" => Ok(permission.block(read_feature(rest)?)?),
        _ => Err(CaseError::Line),
    }
}

fn next_rules(
    alloc: Global,
    mut permission: Permission,
    text: &str,
) -> Result<Permission, CaseError> {
    for rule in text.split(" | ") {
        permission = next_rule(alloc, permission, rule)?;
    }
    Ok(permission)
}

/// The permission that a line says.
pub fn read_permission(alloc: Global, text: &str) -> Result<Permission, CaseError> {
    let (first, others) = cut(text, " | ");
    let permission = first_rule(alloc, first)?;
    if others.is_empty() {
        return Ok(permission);
    }
    next_rules(alloc, permission, others)
}

fn allow_text(allow: &Allow) -> &str {
    match allow {
        Allow::Any => "*",
        Allow::This => "self",
        Allow::Origin(uri) => uri.as_str(),
    }
}

fn show_allows(out: &mut String, list: &[Allow]) -> Result<(), NoMemory> {
    let mut mark = "";
    for allow in list {
        let text = allow_text(allow);
        write!(out, "{mark}{text}")?;
        mark = " ";
    }
    Ok(())
}

/// Adds those who may use a feature.
fn show_list(out: &mut String, list: Option<&[Allow]>) -> Result<(), NoMemory> {
    match list {
        Some([]) => out.push_str("nobody"),
        Some(list) => show_allows(out, list),
        None => out.push_str("none"),
    }
}

/// Adds who may use a feature, by the rules of a line.
pub fn get_answer(alloc: Global, text: &str, out: &mut String) -> Result<(), CaseError> {
    let (name, rules) = first_word(text);
    let feature = read_feature(name)?;
    let permission = read_permission(alloc, rules)?;
    let shown = show_list(out, permission.get(feature));
    drop(permission);
    written(shown)
}

fn show_rule(out: &mut String, feature: Feature, list: Option<&[Allow]>) -> Result<(), NoMemory> {
    if !out.is_empty() {
        out.push_str(" | ")?;
    }
    write!(out, "{feature}: ")?;
    show_list(out, list)
}

fn show_rules(out: &mut String, permission: &Permission) -> Result<(), NoMemory> {
    for (feature, list) in permission.iter() {
        show_rule(out, feature, list)?;
    }
    Ok(())
}

/// Adds each feature of the rules of a line.
pub fn rules_answer(alloc: Global, text: &str, out: &mut String) -> Result<(), CaseError> {
    let permission = read_permission(alloc, text)?;
    Ok(show_rules(out, &permission)?)
}

fn push_same(one: &Permission, other: &Permission, out: &mut String) -> Result<(), NoMemory> {
    let same = one == other;
    write!(out, "{same}")
}

/// Adds whether a permission is the same as that of a line.
fn push_same_as(
    alloc: Global,
    one: &Permission,
    text: &str,
    out: &mut String,
) -> Result<(), CaseError> {
    let other = read_permission(alloc, text)?;
    written(push_same(one, &other, out))
}

/// Adds whether two permissions are the same.
pub fn same_answer(alloc: Global, text: &str, out: &mut String) -> Result<(), CaseError> {
    let (one, other) = pair(text, " <=> ")?;
    let one = read_permission(alloc, one)?;
    push_same_as(alloc, &one, other, out)
}
