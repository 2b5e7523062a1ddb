//! A line of a table -> the run of the program over objects in memory, which must end so, and leave no more than it must.
//!
//! A line has five columns with `|` between.
//!
//! 1. What the case shows.
//! 2. The call: the words after the program's name, with commas between. Options follow, with `;` before each: `a=INT+FILES` are the settings
//!    of the file `a.toml` on the shelf, `b=` those of `b.toml`; `room=30` is how many bytes the output takes; `input=0` is a call that fails,
//!    the first one of the input. The other objects are `shelf`, `output` and `rack`.
//! 3. The input, in the words of `words`.
//! 4. What is left, in the same words: the file of `unbridge` or `ule`, the output of the other commands. `30 of` before them are the first
//!    30 bytes. No word says that neither a byte nor a file is left.
//! 5. The line that is reported, without `ipencap: ` before it and its end. It determines the status. What is left is flushed, but where an
//!    object has failed.
use crate::settings::settings_of;
use crate::words::bytes_in;
use scenario_runs::expect;
use std::alloc::{AllocError as OutOfMemory, Global};
use std::test::Fail;
use test_recordings::{Failing, FileLeft, Given, Left, faultless};

/// The columns of a line after the first. Nothing left is not even a file.
#[derive(Clone, Copy)]
pub struct Run<'a> {
    pub call: &'a str,
    pub input: &'a [u8],
    pub left: Option<&'a [u8]>,
    pub line: &'a str,
}

/// A run that leaves an output or a file.
pub fn leaving<'a>(call: &'a str, input: &'a [u8], left: &'a [u8], line: &'a str) -> Run<'a> {
    Run {
        call,
        input,
        left: Some(left),
        line,
    }
}

/// A run that leaves neither an output nor a file.
fn nothing<'a>(call: &'a str, input: &'a [u8], line: &'a str) -> Run<'a> {
    Run {
        call,
        input,
        left: None,
        line,
    }
}

/// Three columns, of which the last one may be all that follow.
pub fn three(line: &str) -> Result<(&str, &str, &str), Fail> {
    let (first, rest) = line.split_once('|').ok_or("one column")?;
    let (second, third) = rest.split_once('|').ok_or("two columns")?;
    Ok((first, second, third))
}

/// The value of an option, or another one.
fn value_of<'a>(call: &'a str, key: &str, other: &'a str) -> &'a str {
    for option in call.split(';') {
        if let Some((own, value)) = option.split_once('=') {
            if own == key {
                return value;
            }
        }
    }
    other
}

/// The calls that fail, by the options of a call. Each option has a key that is read.
fn fails_in(alloc: Global, call: &str) -> Result<Vec<Failing>, Fail> {
    let mut fails = Vec::new(alloc);
    for option in call.split(';').skip(1) {
        let (key, value) = option.split_once('=').ok_or("no value")?;
        match key {
            "a" | "b" | "room" => {}
            object => fails.push(Failing::named(object, value.parse()?)?)?,
        }
    }
    Ok(fails)
}

/// The words of a call.
fn words_of(alloc: Global, call: &str) -> Result<Vec<&str>, OutOfMemory> {
    let (text, _) = call.split_once(';').unwrap_or((call, ""));
    let mut words = Vec::new(alloc);
    for word in text.split(',') {
        words.push(word)?;
    }
    Ok(words)
}

/// The file that a call writes, empty where it writes the output.
fn file_of(call: &str) -> &'static str {
    if call.starts_with("unbridge,") {
        "bridge.pcap"
    } else if call.starts_with("ule,") {
        "ule.pcap"
    } else {
        ""
    }
}

/// Runs the program, and compares all that it leaves.
fn leaves(alloc: Global, case: &str, run: &Run<'_>, given: &Given<'_>) -> Result<(), Fail> {
    let bytes = run.left.unwrap_or(&[]);
    let has_failed = run.line.starts_with("fault ");
    let flushed = if has_failed { 0 } else { bytes.len() };
    let name = file_of(run.call);
    let files = [FileLeft {
        name,
        bytes,
        flushed,
    }];
    let left = if name.is_empty() {
        Left {
            output: bytes,
            flushed,
            ..Left::line(run.line)
        }
    } else {
        let count = if run.left.is_some() { 1 } else { 0 };
        Left {
            files: &files[..count],
            ..Left::line(run.line)
        }
    };
    expect(alloc, case, given, &left)
}

/// Runs the program over these settings and calls that fail.
fn ends_over(
    alloc: Global,
    case: &str,
    run: &Run<'_>,
    settings: [&str; 2],
    fails: &[Failing],
) -> Result<(), Fail> {
    let words = words_of(alloc, run.call)?;
    let [inner, outer] = settings;
    let given = Given {
        name: if inner.is_empty() { "c.toml" } else { "a.toml" },
        outer: outer.as_bytes(),
        room: value_of(run.call, "room", "10000").parse()?,
        fails,
        ..faultless(&words, inner.as_bytes(), run.input)
    };
    leaves(alloc, case, run, &given)
}

/// Runs the program, and compares all that it leaves. A difference fails as a text: the case, and what differs.
pub fn ends(alloc: Global, case: &str, run: &Run<'_>) -> Result<(), Fail> {
    let fails = fails_in(alloc, run.call)?;
    let inner = settings_of(alloc, value_of(run.call, "a", "-"))?;
    let outer = settings_of(alloc, value_of(run.call, "b", "-"))?;
    ends_over(alloc, case, run, [&inner, &outer], &fails)
}

/// What is left.
fn left_of(alloc: Global, words: &str) -> Result<Vec<u8>, Fail> {
    let Some((size, words)) = words.split_once(" of ") else {
        return bytes_in(alloc, words);
    };
    let bytes = bytes_in(alloc, words)?;
    let front = bytes.get(..size.parse()?).ok_or("fewer bytes")?;
    Ok(Vec::from_slice(alloc, front)?)
}

/// A run of the columns of a line: the case, the call and the other three.
pub fn columns_end(
    alloc: Global,
    case: &str,
    call: &str,
    columns: (&str, &str, &str),
) -> Result<(), Fail> {
    let (input, left, line) = columns;
    let input = bytes_in(alloc, input)?;
    let bytes = left_of(alloc, left)?;
    let line = String::from_str(alloc, line)?;
    if left.is_empty() {
        return ends(alloc, case, &nothing(call, &input, &line));
    }
    ends(alloc, case, &leaving(call, &input, &bytes, &line))
}

/// Each run of a table ends as its line says.
pub fn all_end(alloc: Global, table: &str) -> Result<(), Fail> {
    for line in table.lines() {
        let (case, call, columns) = three(line)?;
        columns_end(alloc, case, call, three(columns)?)?;
    }
    Ok(())
}
