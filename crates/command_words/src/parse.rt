//! Words -> a command, or why there is none.
ghost use Rattle.std.specs.Prelude.{◌≡◌, ℕ, List, [], ◌∷◌, map, string_bytes, IfOk, IfSome, IfNone, IsErrOf};
ghost use Rattle.command_words.specs.Words.{IsValue, AsksForRelay, IsCommand, IsNoCommand};
ghost use Rattle.command_words.specs.Asked.{AsksFor};

use crate::carrier::{Carrier, carrier_in};
use crate::line::take_words;
use crate::numbers::{number_in, pid_in, table_pid_in};
use std::alloc::Global;

/// A command. SETTINGS is the name of a settings file.
#[derive(Drop)]
pub enum Command<'w> {
    /// `send SETTINGS`.
    Send(&'w str),
    /// `receive SETTINGS`.
    Receive(&'w str),
    /// `ule PID`.
    Ule(u16),
    /// `check SETTINGS`.
    Check(&'w str),
    /// `sample NUMBER`.
    Sample(u32),
    /// `tables SETTINGS`.
    Tables(&'w str),
    /// `find PID`.
    Find(u16),
    /// `bridge CARRIER`.
    Bridge(Carrier),
    /// `unbridge CARRIER`.
    Unbridge(Carrier),
    /// `relay IN OUT`: the settings of the inner and of the outer service.
    Relay(&'w str, &'w str),
}

/// Why words gave no command.
#[derive(Clone, Copy, Debug, PartialEq, Eq)]
pub enum WordsFault {
    /// They form none.
    Usage,
    /// Out of memory.
    OutOfMemory,
}

/// The words, where there are two, of which the second is a value and none an option.
fn two_words(words: &[String]) -> Option<(&str, &str)>
    ensures read { IfSome result (λ pair. (map (λ word. string_bytes word) words.now ≡ pair.0.now ∷ pair.1.now ∷ []) × IsValue pair.1.now) }
    ensures refused { IfNone result ((name value : List ℕ) → map (λ word. string_bytes word) words.now ≡ name ∷ value ∷ [] → IsValue name → IsValue value → ⊥) }
{
    let [name, value] = words else {
        return None;
    };
    match (name.as_bytes(), value.as_bytes()) {
        ([b'-', ..], _) | (_, [] | [b'-', ..]) => None,
        _ => Some((name.as_str(), value.as_str())),
    }
}

/// The names of the settings files of the inner and of the outer service, where the words are those of a relay.
fn relay_words(words: &[String]) -> Option<(&str, &str)>
    ensures read { IfSome result (λ pair. AsksForRelay (map (λ word. string_bytes word) words.now) pair.0.now pair.1.now) }
    ensures refused { IfNone result ((inner outer : List ℕ) → AsksForRelay (map (λ word. string_bytes word) words.now) inner outer → ⊥) }
{
    let [name, inner, outer] = words else {
        return None;
    };
    match (name.as_str(), inner.as_bytes(), outer.as_bytes()) {
        (_, [] | [b'-', ..], _) | (_, _, [] | [b'-', ..]) => None,
        ("relay", _, _) => Some((inner.as_str(), outer.as_str())),
        _ => None,
    }
}

/// The command of a name and a value.
fn command_of<'w>(name: &str, value: &'w str) -> Option<Command<'w>>
    ensures read { IfSome result (λ command. IsValue value.entry.now → AsksFor (name.now ∷ value.entry.now ∷ []) command) }
    ensures refused { IfNone result (IsNoCommand (name.now ∷ value.entry.now ∷ [])) }
{
    match name {
        "send" => Some(Command::Send(value)),
        "receive" => Some(Command::Receive(value)),
        "ule" => match pid_in(value) {
            Some(pid) => Some(Command::Ule(pid)),
            None => None,
        },
        "check" => Some(Command::Check(value)),
        "sample" => match number_in(value) {
            Some(number) => Some(Command::Sample(number)),
            None => None,
        },
        "tables" => Some(Command::Tables(value)),
        "find" => match table_pid_in(value) {
            Some(pid) => Some(Command::Find(pid)),
            None => None,
        },
        "bridge" => match carrier_in(value) {
            Some(carrier) => Some(Command::Bridge(carrier)),
            None => None,
        },
        "unbridge" => match carrier_in(value) {
            Some(carrier) => Some(Command::Unbridge(carrier)),
            None => None,
        },
        _ => None,
    }
}

/// The command that the words form.
fn command_in(words: &[String]) -> Option<Command<'_>>
    ensures read { IfSome result (λ command. AsksFor (map (λ word. string_bytes word) words.now) command) }
    ensures refused { IfNone result (IsNoCommand (map (λ word. string_bytes word) words.now)) }
{
    if let Some((name, value)) = two_words(words) {
        return command_of(name, value);
    }
    match relay_words(words) {
        Some((inner, outer)) => Some(Command::Relay(inner, outer)),
        None => None,
    }
}

/// Reads the words after the program's name.
///
/// There are two, of `relay` three. None begins with `-`, and none after the first is empty. PID is one to four decimal digits, 0 to 8190,
/// and for `find` 32 to 8190. NUMBER is one to ten, 0 to 4,294,967,295. CARRIER is `ule:` and a PID, or `gse:` and an ISI, which is one to
/// three decimal digits, 0 to 255. Memory is taken last, so words that form no command are found so without.
pub fn parse_words(alloc: Global, words: &[String]) -> Result<Command<'_>, WordsFault>
    ensures read { IfOk result (λ command. AsksFor (map (λ word. string_bytes word) words.now) command) }
    ensures usage { IsErrOf result WordsFault.Usage → IsNoCommand (map (λ word. string_bytes word) words.now) }
    ensures memory { IsErrOf result WordsFault.OutOfMemory → IsCommand (map (λ word. string_bytes word) words.now) }
{
    let command = match command_in(words) {
        Some(command) => command,
        None => return Err(WordsFault::Usage),
    };
    take_words(alloc, words)?;
    Ok(command)
}
