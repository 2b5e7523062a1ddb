//! Calls of an object -> what each run must leave in which one of them fails.
//!
//! The calls of an object are a line of text: `shelf`, `input`, `output` or `rack`, and then a word a call, from the first one on, as
//! `rack - 0 24`. The call after the last one does not come: a run in which it would fail ends Done.
//!
//! | Word | What is left where the call fails |
//! |---|---|
//! | `-` | nothing: the file was not added |
//! | `24`, `24*58` | the first 24 bytes of the file, none of them flushed; the same for each of 58 calls |
//! | `840/840` | 840 bytes of the file, of which 840 are flushed |
//! | `840/840/unflushed` | all of the output too, of which nothing is flushed |
use scenario_runs::expect;
use std::alloc::Global;
use std::test::Fail;
use test_recordings::{Failing, FileLeft, Given, Left, faultless};

/// What a run is given, and what it leaves where no call fails: a file, and the output.
#[derive(Clone, Copy)]
pub struct Whole<'a> {
    pub words: &'a [&'a str],
    pub settings: &'a [u8],
    pub recording: &'a [u8],
    /// The file's name, and its bytes.
    pub name: &'a str,
    pub file: &'a [u8],
    pub output: &'a [u8],
}

/// How many bytes of the output are left, and how many of them are flushed.
fn counts_of(word: &str, output: &[u8]) -> Result<(usize, usize), Fail> {
    match word {
        "nothing" => Ok((0, 0)),
        "unflushed" => Ok((output.len(), 0)),
        "flushed" => Ok((output.len(), output.len())),
        _ => Err("no such output".into()),
    }
}

/// Runs the program, which reports this line, and leaves what a word says.
fn leaves(
    alloc: Global,
    case: &str,
    whole: &Whole<'_>,
    fails: &[Failing],
    line: &str,
    word: &str,
) -> Result<(), Fail> {
    let (size, rest) = word.split_once('/').unwrap_or((word, "0"));
    let (file_flushed, output) = rest.split_once('/').unwrap_or((rest, "nothing"));
    let (size, files) = match word {
        "-" => (0, 0),
        _ => (size.parse::<usize>()?, 1),
    };
    let file = [FileLeft {
        name: whole.name,
        bytes: whole.file.get(..size).ok_or("a longer file")?,
        flushed: file_flushed.parse::<usize>()?,
    }];
    let (count, flushed) = counts_of(output, whole.output)?;
    let left = Left {
        output: whole.output.get(..count).ok_or("a longer output")?,
        flushed,
        line,
        files: file.get(..files).ok_or("two files")?,
    };
    let given = Given {
        fails,
        ..faultless(whole.words, whole.settings, whole.recording)
    };
    expect(alloc, case, &given, &left)
}

/// The run ends Done: all is whole and flushed.
pub fn ends_done(
    alloc: Global,
    case: &str,
    whole: &Whole<'_>,
    fails: &[Failing],
) -> Result<(), Fail> {
    let size = whole.file.len();
    let word = format!(in alloc; "{size}/{size}/flushed")?;
    leaves(alloc, case, whole, fails, "", &word)
}

/// A call fails, and the run leaves what a word says; where there is none, the call does not come.
fn call_fails(
    alloc: Global,
    whole: &Whole<'_>,
    object: &str,
    call: u32,
    word: &str,
) -> Result<(), Fail> {
    let failing = Failing::named(object, call)?;
    let case = format!(in alloc; "call of the {object} {call}")?;
    if word.is_empty() {
        return ends_done(alloc, &case, whole, &[failing]);
    }
    leaves(alloc, &case, whole, &[failing], failing.fault(), word)
}

/// The calls of a word fail in turn, of which the first one has this number. Returns the number of the next one.
fn each_fails(
    alloc: Global,
    whole: &Whole<'_>,
    object: &str,
    first: u32,
    word: &str,
) -> Result<u32, Fail> {
    let (left, times) = word.split_once('*').unwrap_or((word, "1"));
    let next = first.saturating_add(times.parse::<u32>()?);
    for call in first..next {
        call_fails(alloc, whole, object, call, left)?;
    }
    Ok(next)
}

/// The calls of a line fail in turn, and the next one does not come.
fn line_fails(alloc: Global, whole: &Whole<'_>, line: &str) -> Result<(), Fail> {
    let (object, words) = line.split_once(' ').unwrap_or((line, ""));
    let mut next = 0;
    for word in words.split_whitespace() {
        next = each_fails(alloc, whole, object, next, word)?;
    }
    call_fails(alloc, whole, object, next, "")
}

/// The same of each line.
pub fn all_fail(alloc: Global, whole: &Whole<'_>, calls: &str) -> Result<(), Fail> {
    for line in calls.lines() {
        line_fails(alloc, whole, line)?;
    }
    Ok(())
}
