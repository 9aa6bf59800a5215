//! The command line.
ghost use Rattle.std.specs.Prelude.{◌≡◌, ◌<◌, ◌∷◌, [], IfNone, IfOk, IfSome, IsTrue, OnOk, length, map, string_bytes};
ghost use Rattle.std.specs.List.{after_first, before_first};
ghost use Rattle.rkt_base.specs.Want.{IfRefused};
ghost use Rattle.rkt_script.specs.Words.{Commands, IsCommand, Settings, Table, is_equals, is_setting, with_setting};

use rkt_base::Want;
use rkt_request::ConfigTable;
use std::alloc::Global;

/// What to write where the words are no command.
pub const USAGE: &str =
    "usage: rkt_demo serve [--workers N] [--summary] [--config NAME=TEXT] | make N\n";

// The words are no command.
#[derive(Clone, Copy, Debug, Drop, PartialEq, Eq)]
pub struct NoCommand;

// The name and the text of a setting.
fn cut(word: &str) -> Option<(&str, &str)>
    ensures name { IfSome result (λ parts. parts.0.now ≡ before_first is_equals word.now) }
    ensures text { IfSome result (λ parts. parts.1.now ≡ after_first is_equals word.now) }
    ensures setting { IfSome result (λ _. IsTrue (is_setting word.now)) }
    ensures none { IfNone result (¬ IsTrue (is_setting word.now)) }
{
    match word.split_once('=') {
        Some((name, text)) if !name.is_empty() => Some((name, text)),
        _ => None,
    }
}

// Adds a setting.
fn set(table: &mut ConfigTable, word: &str) -> Result<(), Want<NoCommand>>
    ensures setting { OnOk result (IsTrue (is_setting word.now)) }
    ensures set { OnOk result (table.new ≡ with_setting table.old word.now) }
    ensures refused { IfRefused result (λ _. ¬ IsTrue (is_setting word.now)) }
{
    match cut(word) {
        Some((name, text)) => Ok(table.set(name, text)?),
        None => Err(Want::Refused(NoCommand)),
    }
}

// The first two words and those behind them, where there are two.
fn front(words: &[String]) -> Option<(&str, &str, &[String])>
    ensures parts { IfSome result (λ f. map string_bytes words.now ≡ f.0.now ∷ f.1.now ∷ map string_bytes f.2.now) }
    ensures shorter { IfSome result (λ f. length f.2.now < length words.now) }
    ensures none { IfNone result (length words.now < 2) }
{
    match words {
        [first, second, rest @ ..] => Some((first.as_str(), second.as_str(), rest)),
        _ => None,
    }
}

// Adds the settings of these words.
fn set_all(table: &mut ConfigTable, words: &[String]) -> Result<(), Want<NoCommand>>
    ensures set { OnOk result (Settings (map string_bytes words.now) table.old table.new) }
    ensures refused { IfRefused result (λ _. (set : Table) → ¬ Settings (map string_bytes words.now) table.old set) }
{
    let mut rest = words;
    while let Some((flag, word, more)) = front(rest) {
        if flag != "--config" {
            return Err(Want::Refused(NoCommand));
        }
        match set(table, word) {
            Ok(()) => rest = more,
            Err(error) => return Err(error),
        }
    }
    if rest.is_empty() {
        Ok(())
    } else {
        Err(Want::Refused(NoCommand))
    }
}

// What the words behind the first set.
fn settings(alloc: Global, words: &[String]) -> Result<ConfigTable, Want<NoCommand>>
    ensures read { IfOk result (λ table. Settings (map string_bytes words.now) [] table) }
    ensures refused { IfRefused result (λ _. (table : Table) → ¬ Settings (map string_bytes words.now) [] table) }
{
    let mut table = ConfigTable::new(alloc);
    match set_all(&mut table, words) {
        Ok(()) => Ok(table),
        Err(error) => Err(error),
    }
}

/// What the words of a command set.
pub fn read_command(alloc: Global, words: &[String]) -> Result<ConfigTable, Want<NoCommand>>
    ensures read { IfOk result (Commands (map string_bytes words.now)) }
    ensures refused { IfRefused result (λ _. ¬ IsCommand (map string_bytes words.now)) }
{
    match words {
        [word, rest @ ..] if word.as_str() == "serve" => settings(alloc, rest),
        _ => Err(Want::Refused(NoCommand)),
    }
}
