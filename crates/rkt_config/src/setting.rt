ghost use Rattle.std.specs.Prelude.{◌≡◌, option_copied, drop};
ghost use Rattle.std.specs.List.{list_all};
ghost use Rattle.rkt_config.specs.Config.{fits, turns_of, limit_name_of, is_ident_byte};

use crate::numbers::{number, number_without_zeros};
use rkt_grammar::has_token_bytes;

/// How many turns a text grants, which are never none.
pub(crate) fn turns(text: &str) -> Option<u32>
    ensures { result ≡ turns_of text.now }
{
    match number_without_zeros(text)? {
        0 => None,
        turns => Some(turns),
    }
}

/// The name whose limit a name sets.
pub(crate) fn limit_name(name: &str) -> Option<&str>
    ensures { option_copied result ≡ limit_name_of name.now }
{
    name.strip_prefix("limits.")
}

fn is_ident_byte(byte: u8) -> bool
    ensures { result ≡ is_ident_byte byte }
{
    byte >= 32 && byte != 127
}

fn is_ident(text: &str) -> bool
    ensures { result ≡ list_all is_ident_byte text.now }
{
    text.as_bytes().iter().all(|byte| is_ident_byte(*byte))
}

/// Whether a text is what a name takes.
pub(crate) fn fits(name: &str, text: &str) -> bool
    ensures { result ≡ fits name.now text.now }
{
    if name == "ident" {
        return is_ident(text);
    }
    if name == "ip_header" {
        return has_token_bytes(text);
    }
    if name == "grace" || name == "mercy" {
        return number_without_zeros(text).is_some();
    }
    if name == "turns" {
        return turns(text).is_some();
    }
    if limit_name(name).is_some() {
        return number(text).is_some();
    }
    true
}
