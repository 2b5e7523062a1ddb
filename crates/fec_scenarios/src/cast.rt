//! Datagrams of a service of frames -> their stream; a recording -> what must be left of it: the capture and the report.
//!
//! A case is a line of a table of text, in columns with `|` between:
//!
//! 1. Its name.
//! 2. What happens to the stream, as `100-116 270`, in the words of `test_recordings::left_of`. Where a file reads other columns here, it
//!    says so.
//! 3. The numbers of the datagrams that are given, as `0-16 22`.
//! 4. The other columns are the report, as `test_recordings::report_of` reads them.
use scenario_runs::{expect, sent};
use std::alloc::Global;
use std::test::Fail;
use test_recordings::settings::settings_of;
use test_recordings::{
    FileLeft, Given, Left, faultless, left_of, numbered_capture, numbers_in, report_of,
};

/// Settings of a service `lecture`, and what is sent under them.
#[derive(Clone, Copy)]
pub struct Cast<'a> {
    pub settings: &'a [&'a str],
    /// How many bytes each datagram has, as `256*64 20`: 256 datagrams at most.
    pub sizes: &'a str,
    /// How many bytes a record has: 188 where it is a packet alone, 196 where it is stamped, 192 where it is m2ts.
    pub size: usize,
}

/// How many bytes the output and the files take.
const ROOM: usize = 5_000_000;

/// The capture of the datagrams with these numbers.
fn capture_with(alloc: Global, sizes: &[u16], numbers: &[u16]) -> Result<Vec<u8>, Fail> {
    let mut bytes: Vec<u8> = Vec::new(alloc);
    for number in numbers {
        bytes.push(u8::try_from(*number)?)?;
    }
    numbered_capture(alloc, 1, sizes, &bytes)
}

/// The capture of the datagrams with these numbers, of those of these sizes.
pub fn capture_of(alloc: Global, sizes: &str, numbers: &str) -> Result<Vec<u8>, Fail> {
    let sizes = numbers_in(alloc, sizes)?;
    let numbers = numbers_in(alloc, numbers)?;
    capture_with(alloc, &sizes, &numbers)
}

/// The capture of all datagrams of these sizes.
fn capture_of_all(alloc: Global, sizes: &str) -> Result<Vec<u8>, Fail> {
    let count = numbers_in(alloc, sizes)?.len();
    let numbers = format!(in alloc; "0-{}", count.saturating_sub(1))?;
    capture_of(alloc, sizes, &numbers)
}

/// The stream of all datagrams.
pub fn stream_of(alloc: Global, cast: &Cast<'_>) -> Result<Vec<u8>, Fail> {
    let settings = settings_of(alloc, cast.settings)?;
    let capture = capture_of_all(alloc, cast.sizes)?;
    sent(alloc, &settings, &capture, ROOM)
}

/// Receives a recording: the report and these files are left, and nothing else.
pub fn leaves(
    alloc: Global,
    name: &str,
    settings: &str,
    recording: &[u8],
    report: &str,
    files: &[FileLeft<'_>],
) -> Result<(), Fail> {
    let given = Given {
        room: ROOM,
        ..faultless(&["receive", "a.toml"], settings.as_bytes(), recording)
    };
    let left = Left::flushed(report.as_bytes(), "", files);
    expect(alloc, name, &given, &left)
}

/// Receives a recording, and compares the capture and the report with the columns from the third on.
pub fn comes(
    alloc: Global,
    name: &str,
    cast: &Cast<'_>,
    recording: &[u8],
    columns: &str,
) -> Result<(), Fail> {
    let (given, columns) = columns.split_once('|').ok_or("no report")?;
    let settings = settings_of(alloc, cast.settings)?;
    let capture = capture_of(alloc, cast.sizes, given)?;
    let report = report_of(alloc, columns)?;
    let files = [FileLeft::whole("lecture.pcap", &capture)];
    leaves(alloc, name, &settings, recording, &report, &files)
}

/// Receives what is left of a stream, and compares what comes.
fn line_comes(alloc: Global, cast: &Cast<'_>, stream: &[u8], line: &str) -> Result<(), Fail> {
    let (name, columns) = line.split_once('|').ok_or("no harms")?;
    let (harms, columns) = columns.split_once('|').ok_or("no datagrams")?;
    let recording = left_of(alloc, stream, cast.size, harms)?;
    comes(alloc, name, cast, &recording, columns)
}

/// Of each case of a table comes what must come.
pub fn all_come(alloc: Global, cast: &Cast<'_>, stream: &[u8], table: &str) -> Result<(), Fail> {
    for line in table.lines() {
        line_comes(alloc, cast, stream, line)?;
    }
    Ok(())
}
