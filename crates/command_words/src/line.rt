//! The command line as it is described to `clap`: ten subcommands, each with one required value, `relay` with two.
ghost use Rattle.std.specs.Prelude.{◌≡◌, false, IfOk, IsOkAnd, map, string_bytes, IfErr};
ghost use Rattle.clap.specs.Words.{app_of, takes, with_subcommand};
ghost use Rattle.clap.specs.declared.Command.{out-Command as fields_of};
ghost use Rattle.command_words.specs.Line.{and_command, bare_line, command_line, valued, valued_twice};

use crate::parse::WordsFault;
use clap::error::ErrorKind;
use clap::{Arg, ArgAction, Command};
use std::alloc::{AllocError as OutOfMemory, Global};

/// A subcommand with one required value.
fn with_value<'a>(alloc: Global, name: &'a str, value: &'a str) -> Result<Command<'a>, OutOfMemory>
    ensures app { IfOk result (λ c. app_of c ≡ valued name.entry.now value.entry.now) }
    ensures local { IfOk result (λ c. (fields_of c).has_globals ≡ false) }
{
    let arg = Arg::new(alloc, value).required(true).action(ArgAction::Set);
    Command::new(alloc, name).disable_help_flag(true).arg(arg)
}

/// A subcommand with two required values.
fn with_two_values<'a>(
    alloc: Global,
    name: &'a str,
    first: &'a str,
    second: &'a str,
) -> Result<Command<'a>, OutOfMemory>
    ensures app { IfOk result (λ c. app_of c ≡ valued_twice name.entry.now first.entry.now second.entry.now) }
    ensures local { IfOk result (λ c. (fields_of c).has_globals ≡ false) }
{
    let command = with_value(alloc, name, first)?;
    let arg = Arg::new(alloc, second)
        .required(true)
        .action(ArgAction::Set);
    command.arg(arg)
}

/// The line with no subcommand yet: no help, no version, and words that are read as they stand.
fn empty_line<'a>(alloc: Global) -> Command<'a>
    ensures { app_of result ≡ bare_line }
{
    Command::new(alloc, "ipencap")
        .no_binary_name(true)
        .disable_help_flag(true)
        .disable_help_subcommand(true)
        .disable_version_flag(true)
        .subcommand_required(true)
}

/// The line with one more subcommand, where there was memory for that.
fn and_made<'a>(
    line: Command<'a>,
    made: Result<Command<'a>, OutOfMemory>,
) -> Result<Command<'a>, OutOfMemory>
    requires { IfOk made (λ m. (fields_of m).has_globals ≡ false) }
    ensures { IfOk result (λ c. IsOkAnd made.entry (λ m. app_of c ≡ with_subcommand (app_of line.entry) (app_of m).top)) }
{
    line.subcommand(made?)
}

/// The line with one more subcommand, of one required value.
fn and_command<'a>(
    alloc: Global,
    line: Command<'a>,
    name: &'a str,
    value: &'a str,
) -> Result<Command<'a>, OutOfMemory>
    ensures { IfOk result (λ c. app_of c ≡ and_command (app_of line.entry) name.entry.now value.entry.now) }
{
    and_made(line, with_value(alloc, name, value))
}

/// The whole command line.
fn whole_line<'a>(alloc: Global) -> Result<Command<'a>, OutOfMemory>
    ensures { IfOk result (λ c. app_of c ≡ command_line) }
{
    let mut line = empty_line(alloc);
    for (name, value) in [
        ("send", "SETTINGS"),
        ("receive", "SETTINGS"),
        ("ule", "PID"),
        ("check", "SETTINGS"),
        ("sample", "NUMBER"),
        ("tables", "SETTINGS"),
        ("find", "PID"),
        ("bridge", "CARRIER"),
        ("unbridge", "CARRIER"),
    ] {
        line = and_command(alloc, line, name, value)?;
    }
    and_made(line, with_two_values(alloc, "relay", "IN", "OUT"))
}

/// Asks `clap`: Usage only where it does not take the words.
pub(crate) fn take_words(alloc: Global, words: &[String]) -> Result<(), WordsFault>
    ensures { IfErr result (λ fault. fault ≡ WordsFault.Usage → takes command_line (map (λ word. string_bytes word) words.now) ≡ false) }
{
    let line = match whole_line(alloc) {
        Ok(line) => line,
        Err(_) => return Err(WordsFault::OutOfMemory),
    };
    match line.try_get_matches_from(words) {
        Ok(_) => Ok(()),
        Err(error) => match error.kind() {
            ErrorKind::OutOfMemory => Err(WordsFault::OutOfMemory),
            _ => Err(WordsFault::Usage),
        },
    }
}
