//! A line of a table -> the reception of a small recording into objects in memory, which must end so and leave no more than it must.
//!
//! A line has columns with `|` between.
//!
//! 1. What the case shows.
//! 2. The recording that is received, by its name. `INT_OF_TWO 187` and `WRONG_HASH 0` are those of two services with this section of the INT
//!    and so many bytes after the last record.
//! 3. The call that fails: `rack=3` is the fourth one of the rack; the other objects are `input` and `output`.
//! 4. How the reception ends: `Ok`, or the name of a fault.
//! 5. The files: `one.pcap=60/24` has the first 60 bytes of a capture of three datagrams, of which 24 are flushed. These are the file's head;
//!    the head of a record has 16 bytes, and a datagram 20.
//! 6. What is written of the report: the columns of `test_recordings::report_of`. It is flushed where the reception ends Ok.

use crate::receiver_cases::packet_of_frame;
use ipe_io::StdSource;
use receive_command::{ReceiveFault, receive_recording, ule};
use service_plan::Plan;
use std::alloc::Global;
use std::test::Fail;
use test_lines::expect;
use test_recordings::units::{INT_OF_TWO, WRONG_HASH};
use test_recordings::{
    FileLeft, Given, Left, Outside, bytes_of, fails_of, faultless, recording_of_two, report_of,
    small_capture,
};

/// What is received of a recording.
#[derive(Clone, Copy)]
pub(crate) enum Wanted<'a> {
    /// The services of a plan.
    Plan(&'a Plan),
    /// PID 256.
    Pid,
    /// The same, from a source that lends.
    LentPid,
}

/// The columns of a line.
#[derive(Clone, Copy)]
struct Case<'a> {
    name: &'a str,
    recording: &'a str,
    fails: &'a str,
    end: Result<(), ReceiveFault>,
    files: &'a str,
    report: &'a str,
}

/// How a reception ended, and what it left.
#[derive(Drop)]
struct Ended {
    end: Result<(), ReceiveFault>,
    outside: Outside,
}

/// The end of a word.
fn end_of(word: &str) -> Option<Result<(), ReceiveFault>> {
    match word {
        "Ok" => Some(Ok(())),
        "Source" => Some(Err(ReceiveFault::Source)),
        "Sink" => Some(Err(ReceiveFault::Sink)),
        "Rack" => Some(Err(ReceiveFault::Rack)),
        _ => None,
    }
}

/// Reads a line.
fn read_line(line: &str) -> Option<Case<'_>> {
    let (name, rest) = line.split_once('|')?;
    let (recording, rest) = rest.split_once('|')?;
    let (fails, rest) = rest.split_once('|')?;
    let (end, rest) = rest.split_once('|')?;
    let (files, report) = rest.split_once('|')?;
    Some(Case {
        name,
        recording,
        fails,
        end: end_of(end)?,
        files,
        report,
    })
}

/// The header of a frame on ISI 3 with 192 bits of data, and a complete packet for all receivers with the datagram of the captures
/// (EN 302 307-1 clause 5.1.6, TS 102 606-1 clause 4.2); the CRC-8 was worked out apart from this program. Then zeros: the rest of its 300
/// bytes, another frame, and 299 bytes more.
const BASEBAND_FRAMES: &str =
    "5003000000C000000041 E0160800 450000140000000040110000 0A000001EF010203 00*865";

/// A recording by its name.
fn recording_of(alloc: Global, words: &str) -> Result<Vec<u8>, Fail> {
    let (name, tail) = words.split_once(' ').unwrap_or((words, "0"));
    let tail = tail.parse::<usize>()?;
    let section = match name {
        "EMPTY" => return Ok(Vec::new(alloc)),
        "FRAME" => return Ok(Vec::from_slice(alloc, &packet_of_frame())?),
        "BASEBAND" => return bytes_of(alloc, BASEBAND_FRAMES),
        "INT_OF_TWO" => INT_OF_TWO,
        "WRONG_HASH" => WRONG_HASH,
        _ => return Err("no such recording".into()),
    };
    Ok(recording_of_two(alloc, &section, tail)?)
}

/// The file of a word, which holds a front of a capture.
fn file_of<'a>(capture: &'a [u8], word: &'a str) -> Option<FileLeft<'a>> {
    let (name, sizes) = word.split_once('=')?;
    let (size, flushed) = sizes.split_once('/')?;
    let size = size.parse::<usize>().ok()?;
    Some(FileLeft {
        name,
        bytes: capture.get(..size)?,
        flushed: flushed.parse::<usize>().ok()?,
    })
}

/// The files of words.
fn files_of<'a>(
    alloc: Global,
    capture: &'a [u8],
    words: &'a str,
) -> Result<Vec<FileLeft<'a>>, Fail> {
    let mut files = Vec::new(alloc);
    for word in words.split_whitespace() {
        let Some(file) = file_of(capture, word) else {
            return Err(Fail::new(format_args!("{word}: no file")));
        };
        files.push(file)?;
    }
    Ok(files)
}

/// The text of the report, empty where there is none.
fn text_of(alloc: Global, columns: &str) -> Result<String, Fail> {
    if columns.is_empty() {
        return Ok(String::new(alloc));
    }
    report_of(alloc, columns)
}

/// Receives a recording.
fn received(alloc: Global, wanted: Wanted<'_>, given: &Given<'_>) -> Result<Ended, Fail> {
    let mut outside = Outside::new(alloc, given)?;
    let end = match wanted {
        Wanted::Plan(plan) => receive_recording(
            alloc,
            plan,
            &mut outside.input,
            &mut outside.output,
            &mut outside.rack,
        ),
        Wanted::Pid => ule(alloc, 256, &mut outside.input, &mut outside.rack),
        Wanted::LentPid => {
            let mut input = StdSource::new(alloc, given.input)?;
            ule(alloc, 256, &mut input, &mut outside.rack)
        }
    };
    Ok(Ended { end, outside })
}

/// Receives a recording where these calls fail.
fn received_with(
    alloc: Global,
    wanted: Wanted<'_>,
    input: &[u8],
    fails: &str,
) -> Result<Ended, Fail> {
    let fails = fails_of(alloc, fails)?;
    let given = Given {
        fails: &fails,
        ..faultless(&[], &[], input)
    };
    received(alloc, wanted, &given)
}

/// What differs from how a reception must end and from what it must leave; an empty text where nothing does.
fn difference(
    ended: &Ended,
    end: Result<(), ReceiveFault>,
    report: &str,
    files: &[FileLeft<'_>],
) -> &'static str {
    if ended.end != end {
        return "the end";
    }
    ended.outside.difference(&Left {
        output: report.as_bytes(),
        flushed: if end == Ok(()) { report.len() } else { 0 },
        line: "",
        files,
    })
}

/// Compares what is left with a case.
fn expect_left(alloc: Global, case: &Case<'_>, capture: &[u8], ended: &Ended) -> Result<(), Fail> {
    let files = files_of(alloc, capture, case.files)?;
    let report = text_of(alloc, case.report)?;
    expect(case.name, difference(ended, case.end, &report, &files), "")
}

/// Receives the recording of a case, and compares what is left.
fn case_comes(
    alloc: Global,
    wanted: Wanted<'_>,
    capture: &[u8],
    case: &Case<'_>,
) -> Result<(), Fail> {
    let input = recording_of(alloc, case.recording)?;
    let ended = received_with(alloc, wanted, &input, case.fails)?;
    expect_left(alloc, case, capture, &ended)
}

/// The same of each line of a table.
pub(crate) fn all_come(alloc: Global, wanted: Wanted<'_>, table: &str) -> Result<(), Fail> {
    let capture = small_capture(alloc, 3)?;
    for line in table.lines() {
        let Some(case) = read_line(line) else {
            return Err(Fail::new(format_args!("{line}: no case")));
        };
        case_comes(alloc, wanted, &capture, &case)?;
    }
    Ok(())
}
