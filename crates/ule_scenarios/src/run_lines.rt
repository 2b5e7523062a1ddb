//! A line of a table -> the run of a command over objects in memory, which must end so, and leave no more than it must.
//!
//! A line has five columns with `|` between.
//!
//! 1. What the case shows.
//! 2. What is given: each table says what its words are. Settings have names.
//! 3. The name of the one file on the shelf, where the command asks for `a.toml`; then the calls that fail. `input=0` is the first call of
//!    the input; the other objects are `shelf`, `output` and `rack`.
//! 4. What is left: each table says what its words are.
//! 5. The line that is reported, without `ipencap: ` before it and its end. It determines the status.
use scenario_runs::expect;
use std::alloc::Global;
use std::test::Fail;
use test_recordings::settings::{FILES, INT, STAMPED};
use test_recordings::{FileLeft, Given, Left, fails_of, faultless};

/// A lecture in sliced frames.
const SLICED: &str =
    "[[service]]\nname = \"lecture\"\nkind = \"fec\"\npid = 512\nmode = \"sliced\"\nrows = 1024\nwindow_start = 100\nwindow_length = 1500\nservice_id = 10\ncomponent_tag = 1\nrules = [\"239.1.0.0/16\"]\n";

/// Files in SNDUs on PID 256, in a plain recording.
const SNDUS: &str =
    "[[service]]\nname = \"files\"\nkind = \"ule\"\npid = 256\nrules = [\"239.1.0.0/16\"]\n";

/// Files in baseband frames of 300 bytes, on ISI 1.
const BASEBAND: &str =
    "carrier = \"bb\"\nframe_bytes = 300\n[[service]]\nname = \"files\"\nkind = \"gse\"\nisi = 1\nrules = [\"239.2.0.0/16\"]\n";

/// The columns of a line.
#[derive(Clone, Copy)]
pub struct RunLine<'a> {
    pub name: &'a str,
    pub given: &'a str,
    /// The two parts of the third column.
    pub shelved: &'a str,
    pub fails: &'a str,
    pub left: &'a str,
    /// What is reported.
    pub line: &'a str,
}

/// The rest of what a command is given and must leave.
#[derive(Clone, Copy)]
pub struct Run<'a> {
    pub words: &'a [&'a str],
    pub settings: &'a str,
    pub input: &'a [u8],
    /// How many bytes the output takes.
    pub room: usize,
    /// The output's bytes, and how many of them are flushed.
    pub output: &'a [u8],
    pub flushed: usize,
    pub files: &'a [FileLeft<'a>],
}

/// Reads a line.
pub fn read_line(line: &str) -> Result<RunLine<'_>, Fail> {
    let (name, rest) = line.split_once('|').ok_or("no bar")?;
    let (given, rest) = rest.split_once('|').ok_or("one bar")?;
    let (outside, rest) = rest.split_once('|').ok_or("two bars")?;
    let (left, line) = rest.split_once('|').ok_or("three bars")?;
    let (shelved, fails) = outside.split_once(' ').unwrap_or((outside, ""));
    Ok(RunLine {
        name,
        given,
        shelved,
        fails,
        left,
        line,
    })
}

/// Two numbers with a space between.
pub fn pair_of(text: &str) -> Result<(usize, usize), Fail> {
    let (first, second) = text.split_once(' ').ok_or("one number")?;
    Ok((first.parse::<usize>()?, second.parse::<usize>()?))
}

/// Settings, or a part of them, by their name.
pub fn settings_of(name: &str) -> Result<&'static str, Fail> {
    match name {
        "STAMPED" => Ok(STAMPED),
        "INT" => Ok(INT),
        "SLICED" => Ok(SLICED),
        "FILES" => Ok(FILES),
        // what the files have beside in a plan with an INT
        "TAGS" => Ok("service_id = 10\ncomponent_tag = 2\n"),
        "SNDUS" => Ok(SNDUS),
        "BASEBAND" => Ok(BASEBAND),
        // two services, but for their kind, and a kind
        "SERVICE" => Ok("[[service]]\nname = \"files\"\n"),
        "MORE" => Ok("[[service]]\nname = \"more\"\n"),
        "ULE" => Ok("kind = \"ule\"\n"),
        // a key that no settings have, and a text without one
        "SPEED" => Ok("speed = 1\n"),
        "X" => Ok("x"),
        _ => Err("no such settings".into()),
    }
}

/// Runs the command of a line, and compares all that is left.
pub fn ends(alloc: Global, case: &RunLine<'_>, run: &Run<'_>) -> Result<(), Fail> {
    let fails = fails_of(alloc, case.fails)?;
    let given = Given {
        name: case.shelved,
        room: run.room,
        fails: &fails,
        ..faultless(run.words, run.settings.as_bytes(), run.input)
    };
    let left = Left {
        output: run.output,
        flushed: run.flushed,
        line: case.line,
        files: run.files,
    };
    expect(alloc, case.name, &given, &left)
}
