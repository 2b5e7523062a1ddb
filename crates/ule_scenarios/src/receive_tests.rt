//! What no clause says of `receive SETTINGS`: that a run over objects in memory ends so, with ample memory.
use crate::run_lines::{Run, RunLine, ends, pair_of, read_line, settings_of};
use std::alloc::Global;
use std::test::Fail;
use test_recordings::units::CAPTURE;
use test_recordings::{FileLeft, mixed_recording, report_of};

/// The columns of `run_lines`. Given are settings by their name, and how many bytes of a recording come; it has a packet and its duplicate,
/// a record with a wrong first byte, and 187 bytes: 751 in all. Left are how many files there are, how many bytes the file has, and how many
/// of them are flushed. Where a report is written, its columns come last, as `test_recordings` reads them. It is flushed.
///
/// The rack's calls are: add, the file's head, the record's head, the datagram, flush; the output's one write and a flush.
const CASES: &str = "an empty recording|SNDUS 0|a.toml|1 24 24||stream records=0|files heard=0
a duplicate, and an unreadable record|SNDUS 751|a.toml|1 60 60||stream records=3 tail_bytes=187 unreadable=1|files heard=1 repeats=1 units=1 datagrams=1
packets where baseband frames are read|BASEBAND 751|a.toml|1 24 24||stream records=2 tail_bytes=151 unreadable=2|files heard=0
the rack fails|SNDUS 751|a.toml rack=1|1 0 0|fault of a written file
the rack fails|SNDUS 751|a.toml rack=3|1 40 0|fault of a written file
the rack fails|SNDUS 751|a.toml rack=4|1 60 0|fault of a written file
the input fails|SNDUS 751|a.toml input=1|1 24 0|fault of the input
the input fails|SNDUS 751|a.toml input=2|1 60 0|fault of the input
the output fails|SNDUS 751|a.toml output=0|1 60 60|fault of the output
settings that are not received|SNDUS 751|b.toml|0 0 0|fault of the settings file
settings that are not received|SPEED 751|a.toml|0 0 0|settings 13";

/// The text of the report of these columns, empty where there is none.
fn text_of(alloc: Global, columns: &str) -> Result<String, Fail> {
    if columns.is_empty() {
        return Ok(String::new(alloc));
    }
    report_of(alloc, columns)
}

/// Receives the front of a recording, and compares all that is left.
fn leaves(alloc: Global, recording: &[u8], case: &RunLine<'_>, report: &str) -> Result<(), Fail> {
    let (name, bytes) = case.given.split_once(' ').ok_or("no bytes")?;
    let bytes = bytes.parse::<usize>()?;
    let (count, rest) = case.left.split_once(' ').ok_or("no file")?;
    let count = count.parse::<usize>()?;
    let (size, flushed) = pair_of(rest)?;
    let files = [FileLeft {
        name: "files.pcap",
        bytes: CAPTURE.get(..size).ok_or("no such front")?,
        flushed,
    }];
    let run = Run {
        words: &["receive", "a.toml"],
        settings: settings_of(name)?,
        input: recording.get(..bytes).ok_or("no such front")?,
        room: 10_000,
        output: report.as_bytes(),
        flushed: report.len(),
        files: files.get(..count).ok_or("two files")?,
    };
    ends(alloc, case, &run)
}

/// Receives the recording of a line.
fn comes(alloc: Global, recording: &[u8], line: &str) -> Result<(), Fail> {
    let case = read_line(line)?;
    let (line, columns) = case.line.split_once('|').unwrap_or((case.line, ""));
    let report = text_of(alloc, columns)?;
    leaves(alloc, recording, &RunLine { line, ..case }, &report)
}

#[test]
fn a_recording_gives_its_capture_and_the_report(rt: HostRuntime) -> Result<(), Fail> {
    let recording = mixed_recording(rt.alloc())?;
    for line in CASES.lines() {
        comes(rt.alloc(), &recording, line)?;
    }
    Ok(())
}
