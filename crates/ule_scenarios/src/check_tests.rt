//! What no clause says of `check SETTINGS`: that a run over objects in memory ends so, with ample memory.
use crate::run_lines::{Run, RunLine, ends, pair_of, read_line, settings_of};
use scenario_runs::expect;
use std::alloc::{AllocError as OutOfMemory, Global};
use std::test::Fail;
use test_recordings::{Left, faultless, filled};

/// Settings of a lecture in sliced frames and of files in SNDUs, with an INT, and what is printed of them.
const PAIR: &str = "STAMPED INT SLICED FILES TAGS";

const PRINTED: &str = "lecture fec 512\nfiles ule 513\n";

/// The runs over these settings, in the columns of `run_lines`. Given is how many bytes the output takes; left is how many bytes are
/// printed, and how many flushed.
///
/// A fault of the input changes nothing: it is not read. The output's calls are 6 writes for each service and a flush.
const LISTED: &str = "settings are listed|40|a.toml input=0|30 30|
the output has room for the lines and no more|30|a.toml input=0|30 30|
the shelf fails|40|b.toml input=0|0 0|fault of the settings file
the shelf fails|40|a.toml input=0 shelf=0|0 0|fault of the settings file
the output fails|40|a.toml input=0 output=0|0 0|fault of the output
the output fails|40|a.toml input=0 output=7|21 0|fault of the output
the output fails|10|a.toml input=0|10 0|fault of the output
the output fails|40|a.toml input=0 output=12|30 0|fault of the output";

/// Settings by their names, then lines of settings with `;` between; what is reported of all of them.
const REFUSED: &str = "X||settings 1
|cycle = 100;cycle = 100|settings 1
||settings 2 service
|speed = 1|settings 13
|cycle = 1.5|settings 3 cycle
|cycle = -1|settings 4 cycle
|packet_rate = 2026-01-01|settings 3 packet_rate
SERVICE ULE|pid = \"512\"|settings 3 pid
SERVICE ULE|pid = 31|settings 4 pid
SERVICE ULE||settings 2 pid
SERVICE|kind = \"mpeg\"|settings 4 kind
SERVICE|speed = 1|settings 2 kind
SERVICE ULE|speed = 1|settings 13
SERVICE ULE|pid = 513|settings 2 rules
SERVICE ULE|pid = 513;rules = [\"239.2.0.1/16\"]|settings 7
STAMPED INT SLICED FILES TAGS SERVICE ULE|pid = 600;rules = [\"10.0.0.0/8\"]|settings 6
STAMPED INT SLICED FILES TAGS MORE ULE|pid = 600;rules = [\"10.0.0.0/8\"]|settings 5";

/// Appends lines of settings.
fn put_lines(text: &mut String, lines: &str) -> Result<(), OutOfMemory> {
    for line in lines.split(';') {
        if !line.is_empty() {
            write!(text, "{line}\n")?;
        }
    }
    Ok(())
}

/// Settings by their names, and then of lines.
fn text_of(alloc: Global, names: &str, lines: &str) -> Result<String, Fail> {
    let mut text = String::new(alloc);
    for name in names.split_whitespace() {
        text.push_str(settings_of(name)?)?;
    }
    put_lines(&mut text, lines)?;
    Ok(text)
}

/// Checks settings, and compares all that is left with the front of what is printed.
fn ends_so(alloc: Global, settings: &str, case: &RunLine<'_>) -> Result<(), Fail> {
    let (printed, flushed) = pair_of(case.left)?;
    let output = PRINTED.as_bytes().get(..printed);
    let run = Run {
        words: &["check", "a.toml"],
        settings,
        input: &[],
        room: case.given.parse()?,
        output: output.ok_or("no such front")?,
        flushed,
        files: &[],
    };
    ends(alloc, case, &run)
}

/// Checks settings, which are refused with this line.
fn is_refused(alloc: Global, settings: &[u8], line: &str) -> Result<(), Fail> {
    let given = faultless(&["check", "a.toml"], settings, &[]);
    expect(alloc, line, &given, &Left::line(line))
}

/// Checks the settings of a line.
fn are_refused(alloc: Global, line: &str) -> Result<(), Fail> {
    let (names, rest) = line.split_once('|').ok_or("no lines")?;
    let (lines, line) = rest.split_once('|').ok_or("no fault")?;
    let settings = text_of(alloc, names, lines)?;
    is_refused(alloc, settings.as_bytes(), line)
}

/// Each run over these settings ends so.
fn all_end_so(alloc: Global, settings: &str) -> Result<(), Fail> {
    for line in LISTED.lines() {
        ends_so(alloc, settings, &read_line(line)?)?;
    }
    Ok(())
}

#[test]
fn settings_are_listed(rt: HostRuntime) -> Result<(), Fail> {
    let settings = text_of(rt.alloc(), PAIR, "")?;
    all_end_so(rt.alloc(), &settings)
}

#[test]
fn refused_settings_have_the_line_of_their_fault(rt: HostRuntime) -> Result<(), Fail> {
    for line in REFUSED.lines() {
        are_refused(rt.alloc(), line)?;
    }
    Ok(())
}

/// Checks a file of so many of one byte.
fn bytes_are_refused(alloc: Global, byte: u8, count: usize, line: &str) -> Result<(), Fail> {
    let settings = filled(alloc, byte, count)?;
    is_refused(alloc, &settings, line)
}

/// Bytes that are no text, the longest file, and one byte more.
#[test]
fn a_file_is_a_text_of_1048576_bytes_at_most(rt: HostRuntime) -> Result<(), Fail> {
    bytes_are_refused(rt.alloc(), 0xFF, 1, "settings 1")?;
    bytes_are_refused(rt.alloc(), 0x20, 1_048_576, "settings 2 service")?;
    bytes_are_refused(rt.alloc(), 0x20, 1_048_577, "settings too long")
}
