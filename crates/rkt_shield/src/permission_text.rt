ghost use Rattle.std.specs.Prelude.{◌≡◌, ◌++◌, IfOk, OnOk, codes, string_bytes};
ghost use Rattle.std.specs.List.{join_by};
ghost use Rattle.std.specs.Option.{option_copied};
ghost use Rattle.rkt_shield.specs.Allow.{quoted_origin, origin_text as origin_text_of, allow_text};
ghost use Rattle.rkt_shield.specs.Permission.{list_text, rule_text, permission_text};

use crate::allow::Allow;
use crate::feature::Feature;
use crate::permission::Permission;
use crate::policy::Policy;
use rkt_base::{NoMemory, Text};
use rkt_http::{Absolute, Header};
use std::alloc::Global;

/// An origin between quotation marks.
fn quoted(
    alloc: Global,
    scheme: &str,
    host: Option<&str>,
    port: Option<u16>,
) -> Result<String, NoMemory>
    ensures { IfOk result (λ text. string_bytes text ≡ quoted_origin scheme.now (option_copied host.entry) port) }
{
    match (host, port) {
        (Some(host), Some(port)) => format!(in alloc; "\"{scheme}://{host}:{port}\""),
        (Some(host), None) => format!(in alloc; "\"{scheme}://{host}\""),
        (None, _) => format!(in alloc; "\"{scheme}\""),
    }
}

fn origin_text(alloc: Global, uri: &Absolute) -> Result<String, NoMemory>
    ensures { IfOk result (λ text. string_bytes text ≡ origin_text_of uri.now) }
{
    // As a text it spells an absolute URI, whose parts these are.
    let _text = uri.as_str();
    quoted(alloc, uri.scheme(), uri.host(), uri.port())
}

fn push_origin(alloc: Global, text: &mut Text, uri: &Absolute) -> Result<(), NoMemory>
    ensures { OnOk result (text.new ≡ text.old ++ origin_text_of uri.now) }
{
    let origin = origin_text(alloc, uri)?;
    text.push_str(origin.as_str())
}

fn push_allow(alloc: Global, text: &mut Text, allow: &Allow) -> Result<(), NoMemory>
    ensures { OnOk result (text.new ≡ text.old ++ allow_text allow.now) }
{
    match allow {
        Allow::Any => text.push_str("*"),
        Allow::This => text.push_str("self"),
        Allow::Origin(uri) => push_origin(alloc, text, uri),
    }
}

fn push_next_allow(alloc: Global, text: &mut Text, allow: &Allow) -> Result<(), NoMemory>
    ensures { OnOk result (text.new ≡ text.old ++ (codes " " ++ allow_text allow.now)) }
{
    text.push_str(" ")?;
    push_allow(alloc, text, allow)
}

fn push_list(alloc: Global, text: &mut Text, allow: &[Allow]) -> Result<(), NoMemory>
    ensures { OnOk result (text.new ≡ text.old ++ join_by allow_text (codes " ") allow.now) }
{
    let Some((first, others)) = allow.split_first() else {
        return Ok(());
    };
    push_allow(alloc, text, first)?;
    for next in others {
        push_next_allow(alloc, text, next)?;
    }
    Ok(())
}

fn push_allowed(alloc: Global, text: &mut Text, list: Option<&[Allow]>) -> Result<(), NoMemory>
    ensures { OnOk result (text.new ≡ text.old ++ list_text (option_copied list.entry)) }
{
    match list {
        Some(allow) => push_list(alloc, text, allow),
        None => Ok(()),
    }
}

fn push_rule(
    alloc: Global,
    text: &mut Text,
    feature: Feature,
    list: Option<&[Allow]>,
) -> Result<(), NoMemory>
    ensures { OnOk result (text.new ≡ text.old ++ rule_text (feature, option_copied list.entry)) }
{
    text.push_str(feature.as_str())?;
    text.push_str("=(")?;
    push_allowed(alloc, text, list)?;
    text.push_str(")")
}

fn push_next_rule(
    alloc: Global,
    text: &mut Text,
    feature: Feature,
    list: Option<&[Allow]>,
) -> Result<(), NoMemory>
    ensures { OnOk result (text.new ≡ text.old ++ (codes ", " ++ rule_text (feature, option_copied list.entry))) }
{
    text.push_str(", ")?;
    push_rule(alloc, text, feature, list)
}

/// Adds each rule, in order.
fn push_rules(alloc: Global, text: &mut Text, permission: &Permission) -> Result<(), NoMemory>
    ensures { OnOk result (text.new ≡ text.old ++ permission_text permission.now) }
{
    let mut rules = permission.iter();
    let Some((feature, list)) = rules.next() else {
        return Ok(());
    };
    push_rule(alloc, text, feature, list)?;
    for (feature, list) in rules {
        push_next_rule(alloc, text, feature, list)?;
    }
    Ok(())
}

impl Policy for Permission {
    ghost use Rattle.std.specs.Prelude.{codes};
    ghost use Rattle.rkt_shield.specs.Permission.{permission_text};

    ghost NAME = { codes "Permissions-Policy" };

    ghost text = { permission_text };

    fn name() -> &'static str {
        "Permissions-Policy"
    }

    fn header(&self, alloc: Global) -> Result<Header, NoMemory> {
        let mut value = Text::new(alloc, "")?;
        push_rules(alloc, &mut value, self)?;
        Header::new(alloc, Permission::name(), value.as_str())
    }
}
